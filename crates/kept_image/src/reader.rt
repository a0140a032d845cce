ghost use Rattle.std.specs.Prelude.{◌≡◌, ◌≢◌, ◌∷◌, [], ℕ, ◌++◌, ◌<◌, ◌^◌, List, length, true, false, Some, IfOk, OnOk};
ghost use Rattle.far_base.specs.declared.kept.KeptItem.{KeptItem as Kept};
ghost use Rattle.far_model.specs.History.{Agree};
ghost use Rattle.far_model.specs.Kept.{records_in};
ghost use Rattle.kept_image.specs.Faults.{HasConflict, IsFaultOfLine, HasImageFault, Blames, IsFoundAs};
ghost use Rattle.kept_image.specs.ImageText.{title_line};
ghost use Rattle.kept_image.specs.Meaning.{IsImage, IsReadAs, body_limit};
ghost use Rattle.std.specs.BTreeMap.{Updates};
ghost use Rattle.kept_image.specs.Reading.{IsIndexed, TakesLine, key_and_number_cmp};
ghost use Rattle.kept_image.specs.declared.fault.ImageFault.{ImageFault as Fault};
ghost use Rattle.kept_image.specs.declared.version.Version.TheVariants.{First, Second};

use crate::fault::ImageFault;
use crate::image::Image;
use crate::version::Version;
use crate::words::{is_word, item_of};
use far_base::{Body, KeptItem, Key, Memory, Record};
use far_text::Lines;
use std::alloc::Global;
use std::collections::BTreeMap;

/// The items that were read, and a place of each key and number in them.
#[derive(Drop)]
struct Reader {
    items: Vec<KeptItem>,
    places: BTreeMap<(Key, u64), usize>,
}

fn is_same(first: &Body, second: &Body) -> bool
    ensures same { result ≡ true → first.now ≡ second.now }
    ensures other { result ≡ false → first.now ≢ second.now }
{
    first.is_present() == second.is_present() && first.text() == second.text()
}

fn put_item(items: &mut Vec<KeptItem>, item: &KeptItem) -> Result<(), Memory>
    ensures { OnOk result (items.new.items ≡ items.old.items ++ item.now ∷ []) }
{
    items.extend_from_slice(&[*item])?;
    Ok(())
}

/// Notes the place of the item that was read last of this key and number.
fn put_place(
    places: &mut BTreeMap<(Key, u64), usize>,
    at: (Key, u64),
    place: usize,
) -> Result<(), Memory>
    ensures { OnOk result (Updates key_and_number_cmp places.old places.new at (Some place)) }
{
    match places.insert(at, place) {
        Ok(_) => Ok(()),
        Err(_) => Err(Memory),
    }
}

impl Reader {
    fn new(alloc: Global) -> Self
        ensures items { length result.items.items ≡ 0 }
        ensures indexed { IsIndexed result }
    {
        Reader {
            items: Vec::new(alloc),
            places: BTreeMap::new(alloc),
        }
    }

    /// Whether an item that was read has the key and the number of the record and another body.
    fn contradicts(&self, rec: &Record) -> bool
        requires { IsIndexed self.now }
        ensures yes { result ≡ true → HasConflict (records_in self.now.items.items) rec.now }
        ensures no { result ≡ false → Agree (records_in self.now.items.items ++ rec.now ∷ []) }
    {
        match self.places.get(&(rec.key, rec.num)) {
            Some(place) => !is_same(&self.items[*place].rec.body, &rec.body),
            None => false,
        }
    }

    fn push(&mut self, item: &KeptItem) -> Result<(), Memory>
        requires { IsIndexed self.old }
        ensures items { OnOk result (self.new.items.items ≡ self.old.items.items ++ item.now ∷ []) }
        ensures indexed { OnOk result (Agree (records_in self.old.items.items ++ item.now.rec ∷ []) →
            IsIndexed self.new) }
    {
        let place = self.items.len();
        let at = (item.rec.key, item.rec.num);
        put_place(&mut self.places, at, place)?;
        put_item(&mut self.items, item)
    }

    fn take_line(&mut self, number: u32, version: Version, line: &[u8]) -> Result<(), ImageFault>
        requires { IsIndexed self.old }
        ensures taken { OnOk result (TakesLine (body_limit version) line.now self.old self.new) }
        ensures fault { Blames result (IsFaultOfLine (body_limit version) number self.old.items.items line.now) }
    {
        let Some(item) = item_of(version.body_limit(), line) else {
            return Err(ImageFault::BadLine(number));
        };
        if self.contradicts(&item.rec) {
            return Err(ImageFault::Conflict(number));
        }
        self.push(&item)?;
        Ok(())
    }
}

fn read_text(alloc: Global, text: &[u8]) -> Result<Image, ImageFault>
    requires { length text.now < 2 ^ 32 }
    ensures found { IfOk result (λ image. IsImage text.now image) }
    ensures fault { Blames result (HasImageFault text.now) }
{
    let mut lines = Lines::new(text);
    let Some(version) = Version::from_title(&mut lines) else {
        return Err(ImageFault::BadLine(1));
    };
    let mut reader = Reader::new(alloc);
    while let Some(line) = lines.next_line() {
        if !is_word(line, b"end") {
            reader.take_line(lines.read, version, line)?;
        } else if lines.rest.is_empty() {
            return Ok(Image {
                items: reader.items,
            });
        } else {
            return Err(ImageFault::BadLine(lines.read + 1));
        }
    }
    Err(ImageFault::BadLine(lines.read + 1))
}

/// The kept list of which the text is the image, or the first line with a fault and its fault. `BadLine` names a line
/// that has none of the forms or no end, the first line that is missing, and what stands behind the last line;
/// `Conflict` a line whose key and number an earlier line has with another body. A body has at most
/// `FIRST_BODY_LIMIT` bytes where the first line is `far 1 image`.
pub fn parse(alloc: Global, text: &[u8]) -> Result<Image, ImageFault>
    requires { length text.now < 2 ^ 32 }
    ensures found { IfOk result (λ image. IsImage text.now image) }
    // A text that is an image is read as it, unless memory is refused.
    ensures only { (items : List Kept) → IsImage text.now items → IsReadAs result items }
    ensures agree { IfOk result (λ image. Agree (records_in image)) }
    // What is read from a text of the first version is read from it with the first line of the second version too.
    ensures migrates { IfOk result (λ image. (rest : List ℕ) → text.now ≡ title_line First ++ rest → IsImage
        (title_line Second ++ rest) image) }
    // A fault that is named is that of the first faulty line.
    ensures fault { Blames result (HasImageFault text.now) }
    // The first faulty line is named with its fault, unless memory is refused.
    ensures first { (fault : Fault) → HasImageFault text.now fault → IsFoundAs result fault }
{
    read_text(alloc, text)
}
