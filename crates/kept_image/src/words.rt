ghost use Rattle.std.specs.Prelude.{◌≡◌, IfSome, bytes_eq, Some};
ghost use Rattle.far_base.specs.declared.kept.KeptItem.{KeptItem as Kept};
ghost use Rattle.kept_image.specs.Faults.{IsLineOf};
ghost use Rattle.kept_image.specs.Meaning.{IsItem};
ghost use Rattle.kept_image.specs.Words.{is_fitting, record_of, client_of, client_item_of, item_by, item_of};

use far_base::{CLIENT_LIMIT, KeptItem, KeptPlace, Record};
use far_text::{body_of, cut, key_of, number_of};

pub(crate) fn is_word(word: &[u8], name: &[u8]) -> bool
    ensures { result ≡ bytes_eq word.now name.now }
{
    word == name
}

/// Whether the body is short enough, and absent where the number is 0.
fn is_fitting(limit: usize, rec: &Record) -> bool
    ensures { result ≡ is_fitting limit rec.now }
{
    rec.body.text().len() <= limit && (rec.num != 0 || !rec.body.is_present())
}

/// A key, a number and a body.
fn record_of(limit: usize, words: &[u8]) -> Option<Record>
    ensures { result ≡ record_of limit words.now }
{
    let (key, rest) = cut(words, b' ')?;
    let key = key_of(key)?;
    let (num, body) = cut(rest, b' ')?;
    let num = number_of(num)?;
    let body = body_of(body)?;
    let rec = Record { key, num, body };
    if is_fitting(limit, &rec) {
        Some(rec)
    } else {
        None
    }
}

fn client_of(number: u64) -> Option<u32>
    ensures { result ≡ client_of number }
{
    if number < u64::from(CLIENT_LIMIT) {
        Some(number as u32)
    } else {
        None
    }
}

/// A client, a key, a number and a body.
fn client_item_of(limit: usize, words: &[u8]) -> Option<KeptItem>
    ensures { result ≡ client_item_of limit words.now }
{
    let (number, words) = cut(words, b' ')?;
    let client = client_of(number_of(number)?)?;
    let rec = record_of(limit, words)?;
    Some(KeptItem {
        place: KeptPlace::Client(client),
        rec,
    })
}

fn item_by(limit: usize, word: &[u8], words: &[u8]) -> Option<KeptItem>
    ensures { result ≡ item_by limit word.now words.now }
{
    if is_word(word, b"snap") {
        Some(KeptItem {
            place: KeptPlace::Snap,
            rec: record_of(limit, words)?,
        })
    } else if is_word(word, b"server") {
        Some(KeptItem {
            place: KeptPlace::Server(0),
            rec: record_of(limit, words)?,
        })
    } else if is_word(word, b"client") {
        client_item_of(limit, words)
    } else {
        None
    }
}

fn read_item(limit: usize, line: &[u8]) -> Option<KeptItem>
    ensures { result ≡ item_of limit line.now }
{
    let (word, words) = cut(line, b' ')?;
    item_by(limit, word, words)
}

/// The item that the line tells, where bodies have at most `limit` bytes. `None` exactly where the line is that of no
/// such item.
pub(crate) fn item_of(limit: usize, line: &[u8]) -> Option<KeptItem>
    ensures found { IfSome result (λ item. IsLineOf line.now item × IsItem limit item) }
    ensures only { (item : Kept) → IsItem limit item → IsLineOf line.now item → result ≡ Some item }
{
    read_item(limit, line)
}
