ghost use Rattle.std.specs.Prelude.{◌≡◌, max, true};
ghost use Rattle.far_fabric.specs.Known.{AtMost, greater_of, having_published, having_seen, publisher, reader_of};

use crate::board::{Board, BoardPass};
use crate::view::{Figures, View};
use std::marker::Model;
use std::sync::Wait;

/// A board with the pass of one who reads it. Contracts see what the pass knows.
#[derive(Drop)]
pub(crate) struct Viewer<'b> {
    board: &'b Board,
    pass: BoardPass,
}

impl<'b> Model for Viewer<'b> {
    ghost use Rattle.std.specs.Prelude.{◌≡◌};
    ghost use Rattle.far_fabric.specs.declared.view.View.{View};

    ghost Value = { View };

    ghost view = { λ v. v.pass.view };

    ghost invariant = { λ v. v.pass.board ≡ v.board.now };
}

impl<'b> Viewer<'b> {
    /// The figures on the board, of which neither is below what was seen before.
    pub(crate) fn read<R: Wait>(&mut self, rt: &R) -> Figures
        ensures view { self.new ≡ having_seen self.old result }
        ensures rising { AtMost self.old.seen result }
    {
        self.board.read(rt, &mut self.pass)
    }
}

/// A board with its publisher's pass. Contracts see what the pass knows.
#[derive(Drop)]
pub(crate) struct Publisher<'b> {
    board: &'b Board,
    pass: BoardPass,
    last: Figures,
}

impl<'b> Model for Publisher<'b> {
    ghost use Rattle.std.specs.Prelude.{◌≡◌, true};
    ghost use Rattle.far_fabric.specs.declared.view.View.{View};

    ghost Value = { View };

    ghost view = { λ p. p.pass.view };

    ghost invariant = { λ p. (p.pass.board ≡ p.board.now) × (p.pass.view.publishes ≡ true)
        × (p.pass.view.published ≡ p.last) };
}

/// The greater of both, figure by figure.
fn greater(one: Figures, other: Figures) -> Figures
    ensures value { result ≡ greater_of one other }
    ensures first { AtMost one result }
{
    Figures {
        steps: one.steps.max(other.steps),
        answered: one.answered.max(other.answered),
    }
}

impl<'b> Publisher<'b> {
    /// The publisher of a new board.
    pub(crate) fn new(board: &'b Board, pass: BoardPass) -> Self
        requires board { pass.board ≡ board.now }
        requires view { pass.view ≡ publisher }
        ensures { result ≡ publisher }
    {
        Publisher {
            board,
            pass,
            last: Figures {
                steps: 0,
                answered: 0,
            },
        }
    }

    /// Publishes, figure by figure, the greater of this and the one that was published last.
    pub(crate) fn publish<R: Wait>(&mut self, rt: &R, figures: Figures)
        ensures { self.new ≡ having_published self.old (greater_of self.old.published figures) }
    {
        let figures = greater(self.last, figures);
        self.board.publish(rt, &mut self.pass, figures);
        self.last = figures;
    }

    /// The figures on the board, which are those that were published last.
    pub(crate) fn read<R: Wait>(&mut self, rt: &R) -> Figures
        ensures view { self.new ≡ having_seen self.old result }
        ensures published { result ≡ self.old.published }
    {
        self.board.read(rt, &mut self.pass)
    }

    /// One who reads the board and has seen the same.
    pub(crate) fn viewer<R: Wait>(&mut self, rt: &R) -> Viewer<'b>
        ensures same { self.new ≡ self.old }
        ensures viewer { result ≡ reader_of self.old }
    {
        Viewer {
            board: self.board,
            pass: self.board.split(rt, &mut self.pass),
        }
    }
}
