ghost use Rattle.std.specs.Prelude.{◌≡◌, ◌<◌, ◌^◌, length, IfOk};
ghost use Rattle.far_base.specs.Limits.{IsPlan};

use crate::gate::NoPipeGate;
use crate::parts::part;
use crate::running::run_pipes;
use std::alloc::Global;
use std::test::Fail;
use workload::{Workload, parse};

/// Keys of two pipes, with orders of all kinds.
const LOAD: &[u8] =
    b"far 1\nclients 2\nservers 1\nslots 1\nhot 0\nput 0 a =x\nput 1 b =y\nget 0 a\nadmit 0 a\n\
      evict 5 b\nsnap 2\nstop 9\nstop writereq 2\n";

/// The workload that the text is.
fn workload_of(alloc: Global, text: &[u8]) -> Result<Workload, Fail>
    requires { length text.now < 2 ^ 32 }
    ensures { IfOk result (λ load. IsPlan load.plan) }
{
    match parse(alloc, text) {
        Ok(load) => Ok(load),
        Err(_) => Err("no workload")?,
    }
}

/// Operations and orders on a key go to its pipe, and snapshots and stops to each.
#[test]
fn a_plan_is_divided_by_its_keys(rt: HostRuntime) -> Result<(), Fail> {
    let alloc = rt.alloc();
    let load = workload_of(alloc, LOAD)?;
    for (pipe, pipes, ops, orders) in [(0, 1, 3, 5), (0, 2, 1, 4), (1, 2, 2, 4), (7, 8, 0, 3)] {
        let part = part(alloc, &load.plan, pipe, pipes).map_err(|_| "no part")?;
        assert_eq!(rt; part.ops.len(), ops);
        assert_eq!(rt; part.orders.len(), orders);
    }
    Ok(())
}

/// Each pipe has its steps.
#[test]
fn pipes_are_run_to_their_ends(rt: HostRuntime) -> Result<(), Fail> {
    let alloc = rt.alloc();
    let load = workload_of(alloc, LOAD)?;
    let worlds = run_pipes(&rt, alloc, &load, 3, &NoPipeGate).map_err(|_| "no worlds")?;
    assert_eq!(rt; worlds.len(), 3);
    for world in &worlds {
        assert!(rt; world.finished());
    }
    Ok(())
}
