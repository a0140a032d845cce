//! Eight stages of the body as a group.
use crate::bodies::{cell_in, copied_bodies, empty_bodies, pass_bodies, reset_bodies};
use crate::cells::Cell;
use crate::flight::Passage;
use crate::groups::Flight;
use far_base::Memory;
use register_stages::{PassToken, RegArray};
use std::alloc::Global;
use std::marker::Model;

/// The number of stages of a part.
pub const PART_STAGES: usize = 8;

/// Eight stages of the body of a switch. Contracts see the place of the first among the stages of the body, the number
/// of slots and the cells.
#[derive(Drop)]
pub struct BodyPart {
    first: usize,
    slots: u32,
    bodies: Vec<RegArray<Cell>>,
}

impl Model for BodyPart {
    ghost use Rattle.switch_staged.specs.Groups.{PartView};
    ghost use Rattle.switch_staged.specs.Stages.{all_cells};
    ghost use Rattle.switch_staged.specs.Fronts.{IsBodyPart};

    ghost Value = { PartView };

    ghost view = { λ s. record { first = s.first; slots = s.slots; arrays = all_cells s.bodies.items } };

    ghost invariant = { λ s. IsBodyPart s.first s.slots s.bodies.items };
}

ghost use Rattle.std.specs.Prelude.{◌≡◌, ◌+◌, ◌-◌, ◌<◌, ◌≤◌, [], slice_index_or, IfOk};
ghost use Rattle.far_model.specs.View.{slot_at};
ghost use Rattle.switch_staged.specs.declared.groups.Groups.{Groups};
ghost use Rattle.switch_staged.specs.Groups.{part_kept, course_kept, part_left, through_part, empty_part, token_over};
ghost use Rattle.switch_staged.specs.Overlap.{body_cell};
ghost use Rattle.switch_staged.specs.Rows.{zero_cell};
ghost use Rattle.switch_staged.specs.Together.{AreOfOne, IsPartIn, switch_of};

impl BodyPart {
    /// Eight stages of the body from `first` on, with zeros.
    pub(crate) fn new(alloc: Global, first: usize, slots: u32) -> Result<Self, Memory>
        requires { first + 8 ≤ 32 }
        ensures { IfOk result (λ part. part ≡ empty_part first slots) }
    {
        Ok(BodyPart {
            first,
            slots,
            bodies: empty_bodies(alloc, first, PART_STAGES, slots)?,
        })
    }

    /// The same stages with the same cells.
    pub(crate) fn copied(&self, alloc: Global) -> Result<Self, Memory>
        ensures { IfOk result (λ part. part ≡ self.now) }
    {
        Ok(BodyPart {
            first: self.first,
            slots: self.slots,
            bodies: copied_bodies(alloc, &self.bodies)?,
        })
    }

    /// All cells become zeros.
    pub(crate) fn reset(&mut self)
        ensures { self.new ≡ empty_part self.old.first self.old.slots }
    {
        reset_bodies(&mut self.bodies, self.slots);
    }

    /// A flight passes the stages, each array at most once and in the order of the places.
    #[tactic(auto, unfolding(crate::specs::Groups::part_kept, crate::specs::Groups::course_kept))]
    pub(crate) fn carry(&mut self, token: &mut PassToken, flight: &mut Passage)
        requires { token.old ≤ 5 + self.old.first }
        ensures part { self.new ≡ part_kept self.old flight.old }
        ensures flight { flight.new ≡ course_kept self.old flight.old }
        ensures token { token.new ≡ token_over self.old.first self.old.slots 8 flight.old.place token.old }
        ensures within { token.new ≤ 13 + self.old.first }
    {
        pass_bodies(&mut self.bodies, token, self.first, self.slots, flight);
    }

    /// A flight passes the stages. The answer is what goes on with its packet. A flight to a slot that is not there
    /// passes untouched.
    #[tactic(auto, unfolding(crate::specs::Groups::through_part))]
    pub fn pass(&mut self, flight: Flight) -> Flight
        ensures part { self.new ≡ part_left self.old flight }
        ensures flight { result ≡ through_part self.old flight }
    {
        let mut passage = flight.passage();
        self.carry(&mut PassToken::start(), &mut passage);
        Flight::behind(flight.config(), &passage)
    }

    /// The cell of a slot's body in one of the stages, numbered as those of the switch. Where the part is one of a
    /// switch, it is that of the body in the switch's view.
    pub fn body_at(&self, stage: u32, slot: u32) -> Cell
        requires from { 4 + self.now.first ≤ stage }
        requires to { stage < 12 + self.now.first }
        requires slot { slot < self.now.slots }
        ensures cell { result ≡ slice_index_or (slice_index_or self.now.arrays
            (stage - 4 - self.now.first) []) slot zero_cell }
        ensures body { (g : Groups) → AreOfOne g → IsPartIn self.now g → result ≡ body_cell (stage - 4)
            (slot_at (switch_of g) slot).body }
    {
        cell_in(&self.bodies, stage as usize - 4 - self.first, slot)
    }
}
