//! A tick of each stage: what stands before it passes it.
ghost use Rattle.std.specs.Prelude.{◌≡◌, ◌+◌, ◌<◌, ◌≤◌, ◌^◌, ⊤, ℕ, List, length, true, IfSome};
ghost use Rattle.std.specs.List.{AllByRecursion};
ghost use Rattle.register_stages.specs.Arrays.{cells_of, place_of};
ghost use Rattle.switch_staged.specs.Heads.{gate_after};
ghost use Rattle.switch_staged.specs.Stages.{InReach, PlaceBelow, IsPart, AdmitsWithin, all_cells, gate_of, entered};
ghost use Rattle.switch_staged.specs.Stages.{table_after, looked_up, heads_after, headed, taken_at_place, parted_at};
ghost use Rattle.switch_staged.specs.Stages.{hots_after, warmed, array_after, carried};
ghost use Rattle.switch_staged.specs.Overlap.{StaysBelow, kept, sent, stepped, shifted, gone};

use crate::bodies::pass_body;
use crate::cells::{Cell, Gate, Head, HotCell, Taken};
use crate::flight::{Course, Passage};
use crate::stages::{pass_gate, pass_heads, pass_hot, pass_taken};
use crate::table::pass_table;
use far_base::{Config, Packet};
use lookup_table::Lookup;
use register_stages::{PassToken, RegArray};

/// Stage 0 gives the flight that comes to stage 1.
pub fn tick_gate(
    gates: &mut RegArray<Gate>,
    config: &Config,
    packet: Option<Packet>,
) -> Option<Course>
    requires cell { length (cells_of gates.old) ≡ 1 }
    requires place { place_of gates.old ≡ 0 }
    requires room { IfSome packet (λ p. (gate_of (cells_of gates.old)).counter + 1 < 2 ^ 64) }
    ensures gate { gate_of (cells_of gates.new) ≡ kept gate_after (gate_of (cells_of gates.old)) packet }
    ensures flight { result ≡ sent (entered config.now) (gate_of (cells_of gates.old)) packet }
    ensures place { place_of gates.new ≡ 0 }
    ensures one { length (cells_of gates.new) ≡ 1 }
{
    match packet {
        Some(packet) => {
            let mut flight = Passage::new(&packet);
            pass_gate(gates, &mut PassToken::start(), config, &packet, &mut flight);
            Some(flight.flight())
        }
        None => None,
    }
}

/// Stage 1 gives the flight that comes to stage 2.
pub fn tick_table(lookup: &mut Lookup, flight: Option<Course>) -> Option<Course>
    requires { IfSome flight (λ f. f.live ≡ true → AdmitsWithin (length lookup.old.bound) f.packet) }
    ensures table { lookup.new.bound ≡ kept table_after lookup.old.bound flight }
    ensures flight { result ≡ sent looked_up lookup.old.bound flight }
{
    match flight {
        Some(flight) => {
            let mut flight = flight.passage();
            pass_table(lookup, &mut flight);
            Some(flight.flight())
        }
        None => None,
    }
}

/// Stage 2 gives the flight that comes to stage 3.
pub fn tick_heads(heads: &mut RegArray<Head>, flight: Option<Course>) -> Option<Course>
    requires cell { IfSome flight (λ f. InReach f.place (cells_of heads.old)) }
    requires place { place_of heads.old ≡ 2 }
    ensures heads { cells_of heads.new ≡ kept heads_after (cells_of heads.old) flight }
    ensures flight { result ≡ sent headed (cells_of heads.old) flight }
    ensures place { place_of heads.new ≡ 2 }
{
    match flight {
        Some(flight) => {
            let mut flight = flight.passage();
            pass_heads(heads, &mut PassToken::start(), &mut flight);
            Some(flight.flight())
        }
        None => None,
    }
}

/// Stage 3 gives the flight that comes to the first stage of the body.
pub fn tick_taken(
    taken: &mut RegArray<Taken>,
    hot: &mut RegArray<HotCell>,
    config: &Config,
    flight: Option<Course>,
) -> Option<Course>
    requires cell { IfSome flight (λ f. InReach f.place (cells_of taken.old)) }
    requires hot_cells { length (cells_of hot.old) ≡ 256 }
    requires place { place_of taken.old ≡ 3 }
    requires hot_place { place_of hot.old ≡ 4 }
    ensures taken { cells_of taken.new ≡ kept (λ cells f. taken_at_place cells f.place f) (cells_of taken.old) flight }
    ensures hot { cells_of hot.new ≡ kept (λ cells f. hots_after config.now cells (parted_at
        (cells_of taken.old) f.place f)) (cells_of hot.old) flight }
    ensures flight { result ≡ sent (λ cells f. warmed config.now (cells_of hot.old) (parted_at cells f.place f))
        (cells_of taken.old) flight }
    ensures place { place_of taken.new ≡ 3 }
    ensures hot_place { place_of hot.new ≡ 4 }
{
    match flight {
        Some(flight) => {
            let mut flight = flight.passage();
            let mut token = PassToken::start();
            pass_taken(taken, &mut token, &mut flight);
            pass_hot(hot, &mut token, config, &mut flight);
            Some(flight.flight())
        }
        None => None,
    }
}

/// Stage `at` of the body gives the flight that comes to the next.
fn tick_body(array: &mut RegArray<Cell>, at: usize, flight: Option<Course>) -> Option<Course>
    requires cell { IfSome flight (λ f. InReach f.place (cells_of array.old)) }
    requires at { at < 32 }
    requires place { place_of array.old + 1 < 2 ^ 32 }
    ensures cells { cells_of array.new ≡ kept (array_after at) (cells_of array.old) flight }
    ensures flight { result ≡ sent (carried at) (cells_of array.old) flight }
    ensures place { place_of array.new ≡ place_of array.old }
{
    match flight {
        Some(flight) => {
            let mut flight = flight.passage();
            pass_body(array, &mut PassToken::start(), at, &mut flight);
            Some(flight.flight())
        }
        None => None,
    }
}

fn tick_arrays(
    arrays: &mut [RegArray<Cell>],
    standing: &mut [Option<Course>],
    slots: u32,
    coming: Option<Course>,
) -> Option<Course>
    requires count { length arrays.old ≡ 32 }
    requires standing_count { length standing.old ≡ 32 }
    requires part { IsPart 5 slots arrays.old }
    requires standing { AllByRecursion (StaysBelow slots) standing.old }
    requires coming { StaysBelow slots coming }
    ensures cells { all_cells arrays.new ≡ stepped 0 (all_cells arrays.old) standing.old }
    ensures standing { standing.new ≡ shifted 0 (all_cells arrays.old) standing.old coming }
    ensures last { result ≡ gone 0 (all_cells arrays.old) standing.old coming }
    ensures count { length arrays.new ≡ 32 }
    ensures standing_count { length standing.new ≡ 32 }
    ensures part { IsPart 5 slots arrays.new }
    ensures below { AllByRecursion (StaysBelow slots) standing.new }
{
    let mut coming = coming;
    for k in 0..arrays.len() {
        let passed = tick_body(&mut arrays[k], k, standing[k]);
        standing[k] = coming;
        coming = passed;
    }
    coming
}

/// Each stage of the body is passed by the flight before it, and `coming` comes to the first. The answer is the
/// flight that has passed the last.
pub fn tick_bodies(
    arrays: &mut Vec<RegArray<Cell>>,
    standing: &mut Vec<Option<Course>>,
    slots: u32,
    coming: Option<Course>,
) -> Option<Course>
    requires count { length arrays.old.items ≡ 32 }
    requires standing_count { length standing.old.items ≡ 32 }
    requires part { IsPart 5 slots arrays.old.items }
    requires standing { AllByRecursion (StaysBelow slots) standing.old.items }
    requires coming { StaysBelow slots coming }
    ensures cells { all_cells arrays.new.items ≡ stepped 0 (all_cells arrays.old.items) standing.old.items }
    ensures standing { standing.new.items ≡ shifted 0 (all_cells arrays.old.items) standing.old.items coming }
    ensures last { result ≡ gone 0 (all_cells arrays.old.items) standing.old.items coming }
    ensures count { length arrays.new.items ≡ 32 }
    ensures standing_count { length standing.new.items ≡ 32 }
    ensures part { IsPart 5 slots arrays.new.items }
    ensures below { AllByRecursion (StaysBelow slots) standing.new.items }
{
    tick_arrays(arrays, standing, slots, coming)
}
