use far_base::KeptItem;
use std::marker::Model;

/// A kept list: what the last completed snapshot, the servers and the clients keep across a stop of the switch.
/// Contracts see the list of items. In an image that was read each record of a server is at server 0, since the text
/// does not tell which server has it.
#[derive(Drop)]
pub struct Image {
    /// The records and where each of them is kept.
    pub items: Vec<KeptItem>,
}

impl Model for Image {
    ghost use Rattle.std.specs.Prelude.{List};
    ghost use Rattle.far_base.specs.declared.kept.KeptItem.{KeptItem};

    ghost Value = { List KeptItem };

    ghost view = { λ image. image.items.items };
}
