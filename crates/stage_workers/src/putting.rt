ghost use Rattle.std.specs.Prelude.{◌≡◌, ◌+◌, ◌<◌, ◌∷◌, ◌++◌, [], vec_len, vec_capacity};

use far_base::Packet;

/// Appends an item for which there is room.
pub(crate) fn put<T: Drop>(items: &mut Vec<T>, item: T)
    requires { vec_len items.old < vec_capacity items.old }
    ensures items { items.new.items ≡ items.old.items ++ item ∷ [] }
    ensures len { vec_len items.new ≡ vec_len items.old + 1 }
    ensures room { vec_capacity items.new ≡ vec_capacity items.old }
{
    items.push_reserved(item);
}

/// Appends a packet for which there is room.
pub(crate) fn put_packet(packets: &mut Vec<Packet>, packet: &Packet)
    requires { vec_len packets.old < vec_capacity packets.old }
    ensures items { packets.new.items ≡ packets.old.items ++ packet.now ∷ [] }
    ensures len { vec_len packets.new ≡ vec_len packets.old + 1 }
    ensures room { vec_capacity packets.new ≡ vec_capacity packets.old }
{
    let held: Option<Packet> = Some(*packet);
    if let Some(packet) = held {
        packets.push_reserved(packet);
    }
}
