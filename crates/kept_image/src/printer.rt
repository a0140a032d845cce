ghost use Rattle.std.specs.Prelude.{◌≡◌, ◌++◌, ◌∷◌, map, codes, decimal, IfOk, OnOk};
ghost use Rattle.far_history.specs.Report as report;
ghost use Rattle.far_text.specs.Text.{text_line};
ghost use Rattle.kept_image.specs.ImageText.{record_words, item_line, item_lines, image_text};
ghost use Rattle.kept_image.specs.MapText as maps;
ghost use Rattle.kept_image.specs.Meaning.{AreTold, AreWhole, IsImage, IsWholeRecord, told_item};

use crate::image::Image;
use far_base::{KeptItem, KeptPlace, Memory, Record};
use far_text::{Word, put_line};
use std::alloc::Global;

/// The bytes of its key and the text of its body tell of a record what their types give.
fn note_whole(rec: &Record)
    ensures { IsWholeRecord rec.now }
{
    let _key = rec.key.bytes();
    let _body = rec.body.text();
}

/// Writes a word and the words of the record.
fn put_record_at<'a>(out: &mut Vec<u8>, place: &'a [u8], rec: &'a Record) -> Result<(), Memory>
    ensures { OnOk result (out.new.items ≡ out.old.items ++ text_line (place.now ∷ record_words rec.now)) }
{
    put_line(
        out,
        &[
            Word::Text(place),
            Word::Key(&rec.key),
            Word::Number(rec.num),
            Word::Body(&rec.body),
        ],
    )
}

fn put_client_record(out: &mut Vec<u8>, client: u32, rec: &Record) -> Result<(), Memory>
    ensures { OnOk result (out.new.items ≡ out.old.items ++ text_line
        (codes "client" ∷ decimal client ∷ record_words rec.now)) }
{
    put_line(
        out,
        &[
            Word::Text(b"client"),
            Word::Number(u64::from(client)),
            Word::Key(&rec.key),
            Word::Number(rec.num),
            Word::Body(&rec.body),
        ],
    )
}

fn put_item(out: &mut Vec<u8>, item: &KeptItem) -> Result<(), Memory>
    ensures text { OnOk result (out.new.items ≡ out.old.items ++ item_line item.now) }
    ensures whole { IsWholeRecord item.now.rec }
{
    note_whole(&item.rec);
    match item.place {
        KeptPlace::Snap => put_record_at(out, b"snap", &item.rec),
        KeptPlace::Server(_) => put_record_at(out, b"server", &item.rec),
        KeptPlace::Client(client) => put_client_record(out, client, &item.rec),
    }
}

fn put_items(out: &mut Vec<u8>, items: &[KeptItem]) -> Result<(), Memory>
    ensures text { OnOk result (out.new.items ≡ out.old.items ++ item_lines items.now) }
    ensures whole { OnOk result (AreWhole items.now) }
{
    for item in items {
        put_item(out, item)?;
    }
    Ok(())
}

/// The text of the image: its first line, a line for each item in their order, and its last line.
pub fn write(alloc: Global, image: &Image) -> Result<Vec<u8>, Memory>
    ensures text { IfOk result (λ text. text.items ≡ image_text image.now) }
    // What is written reads as the image again, with each server as server 0, where its lines have no fault.
    ensures reads { IfOk result (λ text. AreTold image.now → IsImage text.items (map told_item image.now)) }
{
    let mut out = Vec::new(alloc);
    put_line(&mut out, &[Word::Text(b"far 2 image")])?;
    put_items(&mut out, &image.items)?;
    put_line(&mut out, &[Word::Text(b"end")])?;
    Ok(out)
}

fn put_records(out: &mut Vec<u8>, records: &[Record]) -> Result<(), Memory>
    ensures { OnOk result (out.new.items ≡ out.old.items ++ report.texts report.record_text records.now) }
{
    for rec in records {
        put_line(
            out,
            &[
                Word::Key(&rec.key),
                Word::Number(rec.num),
                Word::Body(&rec.body),
            ],
        )?;
    }
    Ok(())
}

/// The text of the map that a recovery leaves: its first line, the number of records, a line for each of them in their
/// order, and its last line.
pub fn map_text(alloc: Global, records: &[Record]) -> Result<Vec<u8>, Memory>
    ensures { IfOk result (λ text. text.items ≡ maps.map_text records.now) }
{
    let mut out = Vec::new(alloc);
    put_line(&mut out, &[Word::Text(b"far 1 recovered")])?;
    put_line(
        &mut out,
        &[Word::Text(b"map"), Word::Number(records.len() as u64)],
    )?;
    put_records(&mut out, records)?;
    put_line(&mut out, &[Word::Text(b"end")])?;
    Ok(out)
}
