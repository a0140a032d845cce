ghost use Rattle.std.specs.Prelude.{◌≡◌, ◌<◌, ◌^◌, [], ◌∷◌, slice_index, true, false, IfOk};
ghost use Rattle.crossbeam_utils.specs.Seq.{cell_view};
ghost use Rattle.far_fabric.specs.Known.{AtMost, HasJoined, having_published, having_seen, publisher, reader_of};
ghost use Rattle.far_fabric.specs.Rule.{figures_in};

use crate::view::{Figures, View};
use atomic_table::{Join, Split};
use crossbeam_utils::atomic::seq_cell::{Pass, RuledSeqCell};
use crossbeam_utils::rule::{Outcome, Protocol};
use far_base::Memory;
use std::alloc::Global;
use std::marker::Model;
use std::sync::Wait;

/// One publisher's figures stand on the board, and they never fall.
struct OnePublisher;

impl Protocol<[u64; 2], View> for OnePublisher {
    ghost use Rattle.far_fabric.specs.Known.{publisher};
    ghost use Rattle.far_fabric.specs.Rule.{IsKept};

    ghost holds = { IsKept };

    ghost first = { publisher };
}

struct Store;

impl Outcome<[u64; 2], View> for Store {
    ghost use Rattle.far_fabric.specs.Rule.{Stores};

    ghost then = { Stores };
}

struct Load;

impl Outcome<[u64; 2], View> for Load {
    ghost use Rattle.far_fabric.specs.Rule.{Loads};

    ghost then = { Loads };
}

/// A reader's pass beside the pass that it is cut from.
struct Copied;

impl Split<View> for Copied {
    ghost use Rattle.far_fabric.specs.Known.{reader_of};

    ghost left = { λ v. v };

    ghost right = { reader_of };
}

/// A reader's pass that has all of the pass that it is cut from.
struct CutOff;

impl Split<View> for CutOff {
    ghost use Rattle.far_fabric.specs.Known.{reader_of};
    ghost use Rattle.far_fabric.specs.Rule.{spent};

    ghost left = { λ _. spent };

    ghost right = { reader_of };
}

struct TakenIn;

impl Join<View> for TakenIn {
    ghost use Rattle.far_fabric.specs.Rule.{spent, taken_in};

    ghost both = { taken_in };

    ghost spent = { spent };
}

/// A board that one publisher writes its figures on and all read. Contracts see which board it is.
#[derive(Drop)]
pub struct Board {
    cell: RuledSeqCell<[u64; 2], View, OnePublisher, 2>,
}

impl Model for Board {
    ghost use Rattle.atomic_table.specs.Seated.{TableId};

    ghost Value = { TableId };

    ghost view = { λ b. b.cell.table.shared.table_id };
}

/// What one caller knows of a board: the publisher's pass, or a reader's. It has no bytes. Contracts see the board that
/// it is of, the figures that it published last, and those that it has seen.
#[derive(Drop)]
pub struct BoardPass {
    pass: Pass<[u64; 2], View>,
}

impl Model for BoardPass {
    ghost use Rattle.crossbeam_utils.specs.Seq.{cell_view};
    ghost use Rattle.far_fabric.specs.Known.{PassView};

    ghost Value = { PassView };

    ghost view = { λ p. record { board = p.pass.table_id; view = cell_view p.pass } };
}

/// The figures as words.
fn words_of(figures: Figures) -> [u64; 2]
    ensures words { result ≡ figures.steps ∷ figures.answered ∷ [] }
    ensures small { figures.answered < 2 ^ 32 }
{
    [figures.steps, u64::from(figures.answered)]
}

/// The figures in the words of a board.
fn figures_of(words: [u64; 2]) -> Figures
    requires { slice_index words 1 < 2 ^ 32 }
    ensures { result ≡ figures_in words }
{
    Figures {
        steps: words[0],
        answered: words[1] as u32,
    }
}

impl Board {
    /// A board on which both figures are zero, and the publisher's pass.
    pub fn new(alloc: Global) -> Result<(Board, BoardPass), Memory>
        ensures board { IfOk result (λ made. made.1.board ≡ made.0) }
        ensures view { IfOk result (λ made. made.1.view ≡ publisher) }
    {
        match RuledSeqCell::ruled(alloc, [0, 0]) {
            Ok((cell, pass)) => Ok((Board { cell }, BoardPass { pass })),
            Err(_) => Err(Memory),
        }
    }

    /// Puts the figures on the board. Neither may be below the one that was published last.
    pub fn publish<R: Wait>(&self, rt: &R, pass: &mut BoardPass, figures: Figures)
        requires board { pass.old.board ≡ self.now }
        requires publisher { pass.old.view.publishes ≡ true }
        requires rising { AtMost pass.old.view.published figures }
        ensures board { pass.new.board ≡ pass.old.board }
        ensures view { pass.new.view ≡ having_published pass.old.view figures }
    {
        self.cell
            .swap_as::<Store, R>(rt, &mut pass.pass, words_of(figures));
    }

    /// The figures on the board. Neither is below what the pass has seen, and the pass has seen them afterwards. With
    /// the publisher's pass they are those that were published last, or zeros before the first.
    pub fn read<R: Wait>(&self, rt: &R, pass: &mut BoardPass) -> Figures
        requires board { pass.old.board ≡ self.now }
        ensures board { pass.new.board ≡ pass.old.board }
        ensures view { pass.new.view ≡ having_seen pass.old.view result }
        ensures rising { AtMost pass.old.view.seen result }
        ensures published { pass.old.view.publishes ≡ true → result ≡ pass.old.view.published }
    {
        let words = self.cell.load_as::<Load, R>(rt, &mut pass.pass);
        figures_of(words)
    }

    /// A reader's pass that has seen the same as this one, which stays as it is.
    pub fn split<R: Wait>(&self, _rt: &R, pass: &mut BoardPass) -> BoardPass
        requires board { pass.old.board ≡ self.now }
        ensures board { pass.new.board ≡ pass.old.board }
        ensures view { pass.new.view ≡ pass.old.view }
        ensures new_board { result.board ≡ pass.old.board }
        ensures new_view { result.view ≡ reader_of pass.old.view }
    {
        BoardPass {
            pass: self.cell.split_pass::<Copied>(&mut pass.pass),
        }
    }

    /// Takes in a reader's pass: this one has then seen, figure by figure, at least what both had seen. Where this one
    /// is the publisher's, no figure that the reader had seen is above the one that was published last.
    pub fn join<R: Wait>(&self, rt: &R, pass: &mut BoardPass, other: BoardPass)
        requires board { pass.old.board ≡ self.now }
        requires other_board { other.board ≡ self.now }
        requires reader { other.view.publishes ≡ false }
        ensures board { pass.new.board ≡ pass.old.board }
        ensures joined { HasJoined pass.old.view other.view pass.new.view }
        ensures published { pass.old.view.publishes ≡ true → pass.new.view.seen ≡ pass.old.view.published }
        ensures known { pass.old.view.publishes ≡ true → AtMost other.view.seen pass.old.view.published }
    {
        let BoardPass { pass: mut theirs } = other;
        // A pass with which calls were made is not taken in itself, but a new one that has seen the same.
        let cut = self.cell.split_pass::<CutOff>(&mut theirs);
        self.cell.join_pass::<TakenIn>(&mut pass.pass, cut);
        self.cell.load_as::<Load, R>(rt, &mut pass.pass);
    }
}
