ghost use Rattle.std.specs.Prelude.{◌≡◌, ◌<◌, ◌^◌, length, IfOk};
ghost use Rattle.far_base.specs.Limits.{IsPlan};
ghost use Rattle.far_fabric.specs.Known.{publisher};
ghost use Rattle.far_world.specs.Scene.{Tells};

use crate::board::{Board, BoardPass};
use crate::running::{in_threads, run_threads};
use crate::view::Figures;
use far_base::Party;
use far_outside::{Gate, NoGate};
use far_runner::started;
use far_world::World;
use server_keeper::MapKeeper;
use std::alloc::Global;
use std::sync::Wait;
use std::sync::atomic::{AtomicU64, Ordering};
use std::test::Fail;
use std::thread::Threads;
use switch_core::PlainSwitch;
use workload::{Workload, parse};

fn figures(steps: u64, answered: u32) -> Figures
    ensures { result ≡ record { steps = steps; answered = answered } }
{
    Figures { steps, answered }
}

/// A reader sees what is published after its pass was made, and the publisher sees its own figures.
#[test]
fn a_reader_sees_what_is_published_later(rt: HostRuntime) -> Result<(), Fail> {
    let (board, mut publisher) = Board::new(rt.alloc()).map_err(|_| "no board")?;
    assert_eq!(rt; board.read(&rt, &mut publisher), figures(0, 0));
    let mut reader = board.split(&rt, &mut publisher);
    assert_eq!(rt; board.read(&rt, &mut reader), figures(0, 0));
    board.publish(&rt, &mut publisher, figures(2, 0));
    assert_eq!(rt; board.read(&rt, &mut reader), figures(2, 0));
    board.publish(&rt, &mut publisher, figures(7, 1));
    let mut second = board.split(&rt, &mut reader);
    assert_eq!(rt; board.read(&rt, &mut second), figures(7, 1));
    board.join(&rt, &mut reader, second);
    assert_eq!(rt; board.read(&rt, &mut publisher), figures(7, 1));
    board.join(&rt, &mut publisher, reader);
    Ok(())
}

const PUT_AND_GET: &[u8] = b"far 1\nclients 1\nservers 1\nslots 1\nhot 0\nput 0 a =x\nget 0 a\n";

/// The workload that the text is.
fn workload_of(alloc: Global, text: &[u8]) -> Result<Workload, Fail>
    requires { length text.now < 2 ^ 32 }
    ensures { IfOk result (λ load. IsPlan load.plan) }
{
    match parse(alloc, text) {
        Ok(load) => Ok(load),
        Err(_) => Err("no workload")?,
    }
}

/// The world at the end of a run in threads of the text.
fn world_of<G: Gate + Sync, R: Threads + Wait + Sync>(
    rt: &R,
    alloc: Global,
    text: &[u8],
    gate: &G,
) -> Result<World<PlainSwitch, MapKeeper>, Fail>
    requires { length text.now < 2 ^ 32 }
{
    let load = workload_of(alloc, text)?;
    let switch = PlainSwitch::new(alloc, load.plan.config, 1, 0).map_err(|_| "no switch")?;
    Ok(run_threads(rt, alloc, &load, switch, gate).map_err(|_| "no world")?)
}

/// The world before the first step of the text.
fn world_before(alloc: Global, text: &[u8]) -> Result<World<PlainSwitch, MapKeeper>, Fail>
    requires { length text.now < 2 ^ 32 }
    ensures { IfOk result (λ world. Tells world.keeper.records) }
{
    let load = workload_of(alloc, text)?;
    let switch = PlainSwitch::new(alloc, load.plan.config, 1, 0).map_err(|_| "no switch")?;
    Ok(started(alloc, &load.plan, switch).map_err(|_| "no world")?)
}

/// The run in threads is finished, with every step that the plan needs.
#[test]
fn a_run_in_threads_is_finished(rt: HostRuntime) -> Result<(), Fail> {
    let world = world_of(&rt, rt.alloc(), PUT_AND_GET, &NoGate)?;
    assert_eq!(rt; world.log().steps(), 10);
    assert_eq!(rt; world.last_answered(), Some(2));
    Ok(())
}

/// A gate that keeps, for each kind of party, the number of its last pass, and for the switch all numbers of its passes,
/// one hexadecimal digit each.
#[derive(Drop)]
struct Noting {
    client: AtomicU64,
    server: AtomicU64,
    controller: AtomicU64,
    switch: AtomicU64,
}

impl Noting {
    fn new() -> Self {
        Noting {
            client: AtomicU64::new(0),
            server: AtomicU64::new(0),
            controller: AtomicU64::new(0),
            switch: AtomicU64::new(0),
        }
    }
}

impl Gate for Noting {
    fn pass(&self, who: Party, seen: u64) {
        match who {
            Party::Client(_) => self.client.store(seen, Ordering::SeqCst),
            Party::Server(_) => self.server.store(seen, Ordering::SeqCst),
            Party::Controller => self.controller.store(seen, Ordering::SeqCst),
            Party::Switch => {
                let before = self.switch.load(Ordering::SeqCst);
                self.switch
                    .store((before << 4) | (seen & 15), Ordering::SeqCst);
            }
        }
    }

    fn after(&self, _who: Party, _answered: Option<u32>) {}
}

/// Whether the run is finished after the workers of all parties have ended. The switch's worker has the pass.
fn finishes<G: Gate + Sync, R: Threads + Wait + Sync>(
    rt: &R,
    alloc: Global,
    text: &[u8],
    gate: &G,
    board: &Board,
    pass: BoardPass,
) -> Result<bool, Fail>
    requires length { length text.now < 2 ^ 32 }
    requires board { pass.board ≡ board.now }
    requires publisher { pass.view ≡ publisher }
{
    let world = world_before(alloc, text)?;
    let world = in_threads(rt, alloc, gate, board, pass, world).map_err(|_| "no end")?;
    Ok(world.finished())
}

/// What the board shows after the workers of all parties have ended. `None` where the run is not finished.
fn shown_at_the_end<G: Gate + Sync, R: Threads + Wait + Sync>(
    rt: &R,
    alloc: Global,
    text: &[u8],
    gate: &G,
) -> Result<Option<Figures>, Fail>
    requires { length text.now < 2 ^ 32 }
{
    let (board, mut pass) = Board::new(alloc).map_err(|_| "no board")?;
    let mut reader = board.split(rt, &mut pass);
    if !finishes(rt, alloc, text, gate, &board, pass)? {
        return Ok(None);
    }
    Ok(Some(board.read(rt, &mut reader)))
}

/// Where one event after the other can happen, the switch's worker publishes after the steps 2, 4, 7 and 9, the last time
/// with the one operation that is answered by then; and the others' workers see before each of their turns what was
/// published before the last message to them was sent.
#[test]
fn every_worker_sees_what_the_switch_publishes(rt: HostRuntime) -> Result<(), Fail> {
    let gate = Noting::new();
    let shown = shown_at_the_end(&rt, rt.alloc(), PUT_AND_GET, &gate)?;
    assert_eq!(rt; shown, Some(figures(9, 1)));
    assert_eq!(rt; gate.switch.load(Ordering::SeqCst), 0x2479);
    assert!(rt; gate.client.load(Ordering::SeqCst) >= 7);
    assert!(rt; gate.server.load(Ordering::SeqCst) >= 4);
    Ok(())
}

const WITH_AN_ORDER: &[u8] =
    b"far 1\nclients 1\nservers 1\nslots 1\nhot 0\nput 0 a =x\nget 0 a\nadmit 6 a\n";

/// The controller's worker reads the board too: the packet that tells it that a key was admitted comes after the switch
/// has published at least step 4.
#[test]
fn the_controller_sees_what_the_switch_publishes(rt: HostRuntime) -> Result<(), Fail> {
    let gate = Noting::new();
    let world = world_of(&rt, rt.alloc(), WITH_AN_ORDER, &gate)?;
    assert!(rt; world.finished());
    assert!(rt; gate.controller.load(Ordering::SeqCst) >= 4);
    Ok(())
}
