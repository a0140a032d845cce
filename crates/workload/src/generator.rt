ghost use Rattle.std.specs.Prelude.{◌≡◌, ◌≤◌, ◌<◌, ◌++◌, ◌∷◌, [], length, IfOk, OnOk, Some};
ghost use Rattle.far_base.specs.declared.body.TheConstants.{BODY_LIMIT};
ghost use Rattle.far_base.specs.declared.plan.TheConstants.{OP_LIMIT, STEP_LIMIT};
ghost use Rattle.workload.specs.Draws.{after, op_by, key_number, lettered, key_by, choice_from, op_with};
ghost use Rattle.workload.specs.Draws.{ops_from, seeded, orders_by, generated};
ghost use Rattle.workload.specs.Plain.{IsPlain};

use crate::load::Workload;
use far_base::{Body, Config, Key, Memory, Op, OpLine, Ops, Order, Plan};
use far_text::{put_number, put_text};
use rand_core::SeedableRng;
use rand_core::utils::NextWord;
use rand_pcg::Lcg64Xsh32;
use std::alloc::Global;

fn op_of(draw: u32) -> Op
    ensures { result ≡ op_by draw }
{
    match draw % 100 {
        0..=49 => Op::Get,
        50..=94 => Op::Put,
        _ => Op::Del,
    }
}

fn key_number(choice: u32, draw: u32) -> u32
    ensures value { result ≡ key_number choice draw }
    ensures bound { result < 2048 }
{
    if choice % 100 < 70 {
        draw % 64
    } else {
        64 + draw % 1984
    }
}

/// Makes the text of the letter and the number.
fn spell(text: &mut Vec<u8>, letter: u8, number: u32) -> Result<(), Memory>
    ensures { OnOk result (text.new.items ≡ lettered letter number) }
{
    text.clear();
    put_text(text, &[letter])?;
    put_number(text, u64::from(number))
}

#[tactic(auto, using(crate::proofs::Generated::is_key))]
fn key_of(text: &mut Vec<u8>, number: u32) -> Result<Key, Memory>
    requires { number < 2048 }
    ensures { IfOk result (λ key. key ≡ key_by number) }
{
    spell(text, b'k', number)?;
    match Key::from_text(text) {
        Some(key) => Ok(key),
        None => unreachable!(),
    }
}

/// The body of these bytes.
fn body_of(bytes: &[u8]) -> Body
    requires { length bytes.now ≤ BODY_LIMIT }
    ensures { result ≡ Some bytes.now }
{
    match Body::from_bytes(bytes) {
        Some(body) => body,
        None => unreachable!(),
    }
}

/// What four draws choose: the client, what it does, and the number of the key.
#[derive(Clone, Copy)]
struct Choice {
    client: u32,
    op: Op,
    key: u32,
}

#[tactic(auto, unfolding(crate::specs::Draws::after, crate::specs::Draws::choice_from))]
fn next_choice(rng: &mut Lcg64Xsh32) -> Choice
    ensures choice { result ≡ choice_from rng.old }
    ensures rest { rng.new ≡ after 4 rng.old }
    ensures bound { result.key < 2048 }
{
    let client = rng.next_word() % 16;
    let op = op_of(rng.next_word());
    let choice = rng.next_word();
    let draw = rng.next_word();
    Choice {
        client,
        op,
        key: key_number(choice, draw),
    }
}

/// Appends the operation. The text is a place for its key and its body.
#[tactic(auto, using(crate::proofs::Generated::is_short))]
fn push_op(lines: &mut Ops, text: &mut Vec<u8>, choice: Choice, number: u32) -> Result<(), Memory>
    requires { choice.key < 2048 }
    ensures { OnOk result (lines.new ≡ lines.old ++ op_with number choice ∷ []) }
{
    let Choice { client, op, key } = choice;
    let key = key_of(text, key)?;
    match op {
        Op::Put => {
            spell(text, b'v', number)?;
            let body = body_of(text);
            lines.push(&OpLine {
                client,
                op,
                key,
                body,
            })
        }
        Op::Get | Op::Del => {
            let body = Body::absent();
            lines.push(&OpLine {
                client,
                op,
                key,
                body,
            })
        }
    }
}

#[tactic(auto, unfolding(crate::specs::Draws::seeded))]
fn ops_of(alloc: Global, start: u64, ops: u32) -> Result<Ops, Memory>
    ensures { IfOk result (λ lines. lines ≡ ops_from 1 ops (seeded start)) }
{
    let mut rng = Lcg64Xsh32::seed_from_u64(start);
    let mut lines = Ops::new(alloc);
    let mut text = Vec::new(alloc);
    for i in 0..ops {
        let choice = next_choice(&mut rng);
        push_op(&mut lines, &mut text, choice, i + 1)?;
    }
    Ok(lines)
}

fn orders_of(alloc: Global, ops: u64) -> Result<Vec<Order>, Memory>
    requires { ops ≤ OP_LIMIT }
    ensures { IfOk result (λ orders. orders.items ≡ orders_by ops) }
{
    let orders = [
        Order::Snap { step: ops },
        Order::Stop { step: 2 * ops },
        Order::Snap { step: 3 * ops },
        Order::Stop { step: 4 * ops },
    ];
    Vec::from_array(alloc, orders).map_err(|_| Memory)
}

fn work_of(alloc: Global, start: u64, ops: u32) -> Result<Workload, Memory>
    requires { ops ≤ OP_LIMIT }
    ensures { IfOk result (λ load. load ≡ generated start ops) }
{
    let plan = Plan {
        config: Config {
            clients: 16,
            servers: 4,
            slots: 256,
            hot: 4,
        },
        ops: ops_of(alloc, start, ops)?,
        orders: orders_of(alloc, u64::from(ops))?,
    };
    Ok(Workload {
        plan,
        picks: Vec::new(alloc),
        random: Some(start),
    })
}

/// A workload of so many operations, each made by four draws of the generator of the start number,
/// with two snapshots and two stops. Its picks are draws of a second generator of that number.
pub fn generate(alloc: Global, start: u64, ops: u32) -> Result<Workload, Memory>
    requires { ops ≤ OP_LIMIT }
    ensures work { IfOk result (λ load. load ≡ generated start ops) }
    ensures plain { start ≤ STEP_LIMIT → IfOk result (λ load. IsPlain load) }
{
    work_of(alloc, start, ops)
}
