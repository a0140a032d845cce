use far_base::Memory;
use rtrb::{Consumer, Producer, RingBuffer};
use std::alloc::Global;
use std::sync::Wait;
use std::thread;
use switch_staged::Flight;

/// The number of flights that a ring holds.
const RING_SIZE: usize = 64;

/// A ring between two workers, by its two ends.
#[derive(Drop)]
pub(crate) struct Ring {
    pub to: Producer<Flight>,
    pub from: Consumer<Flight>,
}

/// The rings between the five workers.
#[derive(Drop)]
pub(crate) struct Rings {
    pub first: Ring,
    pub second: Ring,
    pub third: Ring,
    pub fourth: Ring,
}

impl Ring {
    fn new(alloc: Global) -> Result<Self, Memory> {
        let (to, from) = RingBuffer::new(alloc, RING_SIZE)?;
        Ok(Ring { to, from })
    }
}

impl Rings {
    /// Rings in which nothing is.
    pub(crate) fn new(alloc: Global) -> Result<Self, Memory> {
        Ok(Rings {
            first: Ring::new(alloc)?,
            second: Ring::new(alloc)?,
            third: Ring::new(alloc)?,
            fourth: Ring::new(alloc)?,
        })
    }
}

/// The next flight of a ring, as soon as there is one. `None` where the ring stays empty and its other end is gone.
pub(crate) fn take<R: Wait>(rt: &R, from: &mut Consumer<Flight>) -> Option<Flight> {
    for _ in rt.forever() {
        if let Ok(flight) = from.pop() {
            return Some(flight);
        }
        if from.is_abandoned() {
            // What came before the other end went may have come since.
            return from.pop().ok();
        }
        thread::yield_now();
    }
    unreachable!()
}

/// Puts a flight into a ring, as soon as there is room. False where the ring stays full and its other end is gone.
pub(crate) fn give<R: Wait>(rt: &R, to: &mut Producer<Flight>, flight: &Flight) -> bool {
    for _ in rt.forever() {
        if to.push(*flight).is_ok() {
            return true;
        }
        if to.is_abandoned() {
            return false;
        }
        thread::yield_now();
    }
    unreachable!()
}
