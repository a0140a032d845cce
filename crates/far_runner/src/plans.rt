ghost use Rattle.std.specs.Prelude.{◌≡◌, IsTrue, IfOk};

use far_base::{Body, Memory, OpLine, Ops, Order, Plan};
use std::alloc::Global;

/// A plan of its own that is the same.
pub(crate) fn copied(alloc: Global, plan: &Plan) -> Result<Plan, Memory>
    ensures { IfOk result (λ copy. copy ≡ plan.now) }
{
    let mut orders = Vec::new(alloc);
    orders.extend_from_slice(&plan.orders)?;
    Ok(Plan {
        config: plan.config,
        ops: plan.ops.copied(alloc)?,
        orders,
    })
}

#[tactic(auto, using(crate::proofs::SameBodies::same_bodies))]
fn same_body(one: &Body, other: &Body) -> bool
    ensures { IsTrue result → one.now ≡ other.now }
{
    one.is_present() == other.is_present() && one.text() == other.text()
}

fn same_line(one: &OpLine, other: &OpLine) -> bool
    ensures { IsTrue result → one.now ≡ other.now }
{
    one.client == other.client
        && one.op == other.op
        && one.key == other.key
        && same_body(&one.body, &other.body)
}

fn same_ops(one: &Ops, other: &Ops) -> bool
    ensures { IsTrue result → one.now ≡ other.now }
{
    if one.len() != other.len() {
        return false;
    }
    for i in 0..one.len() {
        if !same_line(&one.line(i), &other.line(i)) {
            return false;
        }
    }
    true
}

fn same_order(one: &Order, other: &Order) -> bool
    ensures { IsTrue result → one.now ≡ other.now }
{
    *one == *other
}

fn same_orders(one: &[Order], other: &[Order]) -> bool
    ensures { IsTrue result → one.now ≡ other.now }
{
    if one.len() != other.len() {
        return false;
    }
    for i in 0..one.len() {
        if !same_order(&one[i], &other[i]) {
            return false;
        }
    }
    true
}

/// Whether two plans are one.
pub(crate) fn same_plan(one: &Plan, other: &Plan) -> bool
    ensures { IsTrue result → one.now ≡ other.now }
{
    one.config == other.config
        && same_ops(&one.ops, &other.ops)
        && same_orders(&one.orders, &other.orders)
}
