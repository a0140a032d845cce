ghost use Rattle.std.specs.Prelude.{◌≡◌, ◌++◌, OnOk, IfOk, slice_index_or};
ghost use Rattle.far_history.specs.RoomyLog.{log_view};
ghost use Rattle.far_history.specs.Report.{texts};
ghost use Rattle.far_history.specs.Summary as words;
ghost use Rattle.far_history.specs.Told.{unheard};
ghost use Rattle.far_history.specs.Tallies.{bodiless, count_stored, greatest_stored, row_near, rows_so};
ghost use Rattle.far_history.specs.Tallies.{same_parts_stored};

use crate::last_writes::last_writes;
use crate::log::Log;
use crate::places::places_in;
use crate::stored::{Bare, Stored};
use crate::told::{Told, gather};
use far_base::{Memory, Placed};
use far_text::{Word, put_line, put_text};
use itoa::Buffer;
use std::alloc::Global;

/// A line of the summary: a word and its number.
#[derive(Clone, Copy)]
struct Count<'a> {
    word: &'a [u8],
    number: u128,
}

impl<'a> Count<'a> {
    fn new(word: &'a [u8], number: u128) -> Self
        ensures word { result.word.now ≡ word.now }
        ensures number { result.number ≡ number }
    {
        Count { word, number }
    }
}

fn answers(lines: &[Stored]) -> usize
    ensures { result ≡ count_stored words.is_answer lines.now }
{
    lines
        .iter()
        .filter(|line| matches!(line.bare, Bare::Answered { .. }))
        .count()
}

fn snapshots(lines: &[Stored]) -> usize
    ensures { result ≡ count_stored words.is_snapshot lines.now }
{
    lines
        .iter()
        .filter(|line| matches!(line.bare, Bare::Snapped { .. }))
        .count()
}

fn evictions(lines: &[Stored]) -> usize
    ensures { result ≡ count_stored words.is_eviction lines.now }
{
    lines
        .iter()
        .filter(|line| matches!(line.bare, Bare::Evicted { .. }))
        .count()
}

fn kept(lines: &[Stored]) -> usize
    ensures { result ≡ count_stored words.is_kept lines.now }
{
    lines
        .iter()
        .filter(|line| matches!(line.bare, Bare::Kept { .. }))
        .count()
}

fn recoveries(lines: &[Stored]) -> usize
    ensures { result ≡ count_stored words.is_recovery lines.now }
{
    lines
        .iter()
        .filter(|line| matches!(line.bare, Bare::Recovered { .. }))
        .count()
}

/// How many parts of the line's snapshot were taken over from the snapshot before it.
fn same_parts(line: &Stored) -> u32
    ensures { result ≡ words.same_parts (bodiless line.now) }
{
    match line.bare {
        Bare::Snapped { same, .. } => same,
        _ => 0,
    }
}

/// The number that the line gives to a write, or 0.
fn number_given(line: &Stored) -> u64
    ensures { result ≡ words.number_given (bodiless line.now) }
{
    match line.bare {
        Bare::Numbered { num, .. } => num,
        _ => 0,
    }
}

fn all_same_parts(lines: &[Stored]) -> u128
    ensures { result ≡ same_parts_stored lines.now }
{
    let mut total = 0;
    for line in lines {
        total += u128::from(same_parts(line));
    }
    total
}

fn greatest_given(lines: &[Stored]) -> u64
    ensures { result ≡ greatest_stored lines.now }
{
    let mut greatest = 0;
    for line in lines {
        greatest = number_given(line).max(greatest);
    }
    greatest
}

/// Of an operation that was emitted and answered, whether the switch answered it by itself.
fn near_of(told: &Told) -> Option<bool>
    ensures { result ≡ row_near told.now }
{
    told.answered?;
    Some(told.emitted?.near)
}

fn near_in(table: &[Told], place: &Placed) -> Option<bool>
    ensures { result ≡ row_near (slice_index_or table.now place.now.op unheard) }
{
    near_of(table.get(place.op as usize)?)
}

fn count_near(table: &[Told], places: &[Placed]) -> usize
    ensures { result ≡ rows_so words.is_near table.now places.now }
{
    places
        .iter()
        .filter(|place| near_in(table, place) == Some(true))
        .count()
}

fn count_far(table: &[Told], places: &[Placed]) -> usize
    ensures { result ≡ rows_so words.is_far table.now places.now }
{
    places
        .iter()
        .filter(|place| near_in(table, place) == Some(false))
        .count()
}

fn put_count(out: &mut Vec<u8>, count: &Count) -> Result<(), Memory>
    ensures { OnOk result (out.new.items ≡ out.old.items ++ words.count_text (count.now.word.now, count.now.number)) }
{
    let mut digits = Buffer::new();
    put_line(
        out,
        &[
            Word::Text(count.word),
            Word::Text(digits.format(count.number).as_bytes()),
        ],
    )
}

fn put_counts(out: &mut Vec<u8>, counts: &[Count]) -> Result<(), Memory>
    ensures { OnOk result (out.new.items ≡ out.old.items ++ texts (λ c. words.count_text
        (c.word.now, c.number)) counts.now) }
{
    for count in counts {
        put_count(out, count)?;
    }
    Ok(())
}

/// The summary of a log, of so many operations and orders: how many operations were answered and by
/// whom, what happened to the cache, the greatest number of a write, and how many keys were written.
/// An operation of the history that was not emitted and answered counts for neither of `switch` and
/// `server`.
pub fn summary_text(alloc: Global, log: &Log, ops: u32, orders: u32) -> Result<Vec<u8>, Memory>
    ensures { IfOk result (λ text. words.IsSummary (log_view log.now) ops orders text.items) }
{
    let (lines, bytes) = log.parts();
    let table = gather(alloc, lines)?;
    let places = places_in(alloc, &table, lines)?;
    let records = last_writes(alloc, bytes, &table, &places)?;
    let counts = [
        Count::new(b"operations", u128::from(ops)),
        Count::new(b"answered", answers(lines) as u128),
        Count::new(b"orders", u128::from(orders)),
        Count::new(b"steps", u128::from(log.steps())),
        Count::new(b"switch", count_near(&table, &places) as u128),
        Count::new(b"server", count_far(&table, &places) as u128),
        Count::new(b"snapshots", snapshots(lines) as u128),
        Count::new(b"same", all_same_parts(lines)),
        Count::new(b"evicted", evictions(lines) as u128),
        Count::new(b"kept", kept(lines) as u128),
        Count::new(b"recoveries", recoveries(lines) as u128),
        Count::new(b"counter", u128::from(greatest_given(lines))),
        Count::new(b"keys", records.len() as u128),
    ];
    let mut out = Vec::new(alloc);
    put_text(&mut out, b"far 1 summary\n")?;
    put_counts(&mut out, &counts)?;
    put_text(&mut out, b"end\n")?;
    Ok(out)
}
