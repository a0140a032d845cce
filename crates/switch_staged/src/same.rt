//! When two flights are one.
ghost use Rattle.std.specs.Prelude.{◌≡◌, IsTrue};

use crate::cells::{Cells, Head, Shape};
use crate::flight::Course;
use far_base::Packet;
use packet_codec::{encode, spellings_are_one};

/// Whether two packets are one, which is told by their spellings.
pub fn same_packet(one: &Packet, other: &Packet) -> bool
    ensures { IsTrue result → one.now ≡ other.now }
{
    spellings_are_one();
    encode(one).bytes() == encode(other).bytes()
}

impl Shape {
    fn is_same(&self, other: &Shape) -> bool
        ensures { IsTrue result → self.now ≡ other.now }
    {
        *self == *other
    }
}

impl Head {
    fn is_same(&self, other: &Head) -> bool
        ensures { IsTrue result → self.now ≡ other.now }
    {
        self.key == other.key
            && self.tag == other.tag
            && self.valid == other.valid
            && self.latest == other.latest
            && self.num == other.num
            && self.shape.is_same(&other.shape)
    }
}

fn same_cells(one: &Cells, other: &Cells) -> bool
    ensures { IsTrue result → one.now ≡ other.now }
{
    *one == *other
}

impl Course {
    /// What the stages have decided is the same.
    fn is_decided_as(&self, other: &Course) -> bool
        ensures live { IsTrue result → self.now.live ≡ other.now.live }
        ensures gate { IsTrue result → self.now.gate ≡ other.now.gate }
        ensures place { IsTrue result → self.now.place ≡ other.now.place }
        ensures act { IsTrue result → self.now.act ≡ other.now.act }
        ensures part { IsTrue result → self.now.part ≡ other.now.part }
        ensures hot { IsTrue result → self.now.hot ≡ other.now.hot }
    {
        self.live == other.live
            && self.gate == other.gate
            && self.place == other.place
            && self.act == other.act
            && self.part == other.part
            && self.hot == other.hot
    }

    /// Whether both are one.
    pub fn is_same(&self, other: &Course) -> bool
        ensures { IsTrue result → self.now ≡ other.now }
    {
        same_packet(&self.packet, &other.packet)
            && self.is_decided_as(other)
            && self.found.is_same(&other.found)
            && same_cells(&self.cells, &other.cells)
    }
}
