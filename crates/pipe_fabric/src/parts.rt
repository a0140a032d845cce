ghost use Rattle.std.specs.Prelude.{◌≡◌, ◌<◌, ◌≤◌, filter, IfOk};
ghost use Rattle.far_base.specs.Limits.{IsPlan};
ghost use Rattle.pipe_fabric.specs.Parts.{is_in, part_of, takes_op, takes_order};
ghost use Rattle.pipe_fabric.specs.declared.parts.TheConstants.{PIPE_LIMIT};

use crate::laws::plans_are_parted;
use far_base::{Key, Memory, OpLine, Ops, Order, Plan};
use std::alloc::Global;

/// The greatest number of pipes; there is at least one.
pub const PIPE_LIMIT: u32 = 8;

/// Whether the key is in the pipe.
#[tactic(auto, unfolding(crate::specs::Parts::is_in))]
fn is_in(pipe: u32, pipes: u32, key: &Key) -> bool
    requires { 0 < pipes }
    ensures { result ≡ is_in pipe pipes key.now }
{
    key.cell() % pipes == pipe
}

fn takes_op(pipe: u32, pipes: u32, line: &OpLine) -> bool
    requires { 0 < pipes }
    ensures { result ≡ takes_op pipe pipes line.now }
{
    is_in(pipe, pipes, &line.key)
}

fn takes_order(pipe: u32, pipes: u32, order: &Order) -> bool
    requires { 0 < pipes }
    ensures { result ≡ takes_order pipe pipes order.now }
{
    match order {
        Order::Admit { key, .. } | Order::Evict { key, .. } => is_in(pipe, pipes, key),
        Order::Snap { .. } | Order::Stop { .. } | Order::StopAt { .. } => true,
    }
}

/// The operations whose keys are in the pipe, in their order.
fn ops_in(alloc: Global, ops: &Ops, pipe: u32, pipes: u32) -> Result<Ops, Memory>
    requires { 0 < pipes }
    ensures { IfOk result (λ part. part ≡ filter (takes_op pipe pipes) ops.now) }
{
    let mut part = Ops::new(alloc);
    for i in 0..ops.len() {
        let line = ops.line(i);
        if takes_op(pipe, pipes, &line) {
            part.push(&line)?;
        }
    }
    Ok(part)
}

/// The orders for the pipe, in their order.
fn orders_in(alloc: Global, orders: &[Order], pipe: u32, pipes: u32) -> Result<Vec<Order>, Memory>
    requires { 0 < pipes }
    ensures { IfOk result (λ part. part.items ≡ filter (takes_order pipe pipes) orders.now) }
{
    let mut part = Vec::new(alloc);
    for order in orders {
        if takes_order(pipe, pipes, order) {
            part.extend_from_slice(&[*order])?;
        }
    }
    Ok(part)
}

/// The part of the plan for a pipe of so many: the same config, the operations on keys of the pipe, and the orders on
/// them with all orders to take a snapshot or to stop the switch, each in their order.
pub fn part(alloc: Global, plan: &Plan, pipe: u32, pipes: u32) -> Result<Plan, Memory>
    requires valid { IsPlan plan.now }
    requires pipe { pipe < pipes }
    requires pipes { pipes ≤ PIPE_LIMIT }
    ensures part { IfOk result (λ part. part ≡ part_of plan.now pipe pipes) }
    ensures valid { IfOk result IsPlan }
{
    plans_are_parted();
    Ok(Plan {
        config: plan.config,
        ops: ops_in(alloc, &plan.ops, pipe, pipes)?,
        orders: orders_in(alloc, &plan.orders, pipe, pipes)?,
    })
}
