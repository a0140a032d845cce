ghost use Rattle.std.specs.Prelude.{◌≡◌, ◌≤◌, ◌<◌, ◌^◌, length, true, IfOk};
ghost use Rattle.far_base.specs.Limits.{is_slot_order, is_snap, is_stop};
ghost use Rattle.far_base.specs.declared.plan.Op.TheVariants.{Get as ReadOp, Del as DelOp};
ghost use Rattle.far_text.specs.Pieces.{pieces};
ghost use Rattle.workload.specs.Outcome.{Gives};
ghost use Rattle.workload.specs.Forms.{op_counted, order_step, passed, step_by, form_by};
ghost use Rattle.workload.specs.Reading.{line_step, reading};
ghost use Rattle.workload.specs.Meaning.{IsReading, IsReadAs};
ghost use Rattle.workload.specs.Plain.{IsPlain};
ghost use Rattle.workload.specs.Faults.{HasFault, Blames, IsFoundAs};
ghost use Rattle.workload.specs.declared.fault.WorkFault.{WorkFault};
ghost use Rattle.workload.specs.WorkView.{WorkView};
ghost use Rattle.workload.specs.Joining.{client_in, pushed, joined_from};
ghost use Rattle.workload.specs.declared.words.Verb.TheVariants.{Get, Put, Del, Admit, Evict, Snap, Stop, Picks};
ghost use Rattle.workload.specs.declared.words.Verb.TheVariants.{Random};

use crate::fault::{Limit, WorkFault};
use crate::lines::{head, next_line};
use crate::load::{PICK_LIMIT, Workload};
use crate::words::{Verb, number_and_key, put_words, stop_of};
use far_base::{Body, OP_LIMIT, ORDER_LIMIT, Op, OpLine, Order, SNAP_LIMIT, STOP_LIMIT};
use far_text::{Lines, cut, number_of};
use std::alloc::Global;

fn is_slot_order(order: &Order) -> bool
    ensures { result ≡ is_slot_order order.now }
{
    matches!(order, Order::Admit { .. } | Order::Evict { .. })
}

fn is_snap(order: &Order) -> bool
    ensures { result ≡ is_snap order.now }
{
    matches!(order, Order::Snap { .. })
}

fn is_stop(order: &Order) -> bool
    ensures { result ≡ is_stop order.now }
{
    matches!(order, Order::Stop { .. } | Order::StopAt { .. })
}

// Orders are few, so that counting them again for each new one costs little.
fn limit_passed(orders: &[Order], order: &Order) -> Option<Limit>
    ensures { result ≡ passed orders.now order.now }
{
    match order {
        Order::Admit { .. } | Order::Evict { .. } => {
            let count = orders.iter().filter(|other| is_slot_order(other)).count();
            if count < ORDER_LIMIT as usize {
                None
            } else {
                Some(Limit::Orders)
            }
        }
        Order::Snap { .. } => {
            let count = orders.iter().filter(|other| is_snap(other)).count();
            if count < SNAP_LIMIT as usize {
                None
            } else {
                Some(Limit::Snaps)
            }
        }
        Order::Stop { .. } | Order::StopAt { .. } => {
            let count = orders.iter().filter(|other| is_stop(other)).count();
            if count < STOP_LIMIT as usize {
                None
            } else {
                Some(Limit::Stops)
            }
        }
    }
}

fn client_of(number: u64, clients: u32) -> Option<u32>
    ensures { result ≡ client_in clients number }
{
    if number < u64::from(clients) {
        Some(number as u32)
    } else {
        None
    }
}

/// Appends the number that the word spells, where there is room for it, and tells whether there was.
fn push_pick(picks: &mut Vec<u64>, number: u32, word: &[u8]) -> Result<bool, WorkFault>
    ensures { Gives (λ room. (room, picks.new.items)) result (pushed number picks.old.items word.now) }
{
    let Some(pick) = number_of(word) else {
        return Err(WorkFault::BadLine(number));
    };
    if picks.len() >= PICK_LIMIT as usize {
        return Ok(false);
    }
    picks.push(pick)?;
    Ok(true)
}

#[tactic(auto, using(crate::proofs::Joined::word_by_word))]
fn join_picks(picks: &mut Vec<u64>, number: u32, words: &[u8]) -> Result<(), WorkFault>
    ensures { Gives (λ _. picks.new.items) result (joined_from number true picks.old.items (pieces 32 words.now)) }
{
    let mut rest = words;
    while let Some((word, behind)) = cut(rest, b' ') {
        push_pick(picks, number, word)?;
        rest = behind;
    }
    if push_pick(picks, number, rest)? {
        Ok(())
    } else {
        Err(WorkFault::TooLarge(Limit::Picks, number))
    }
}

impl Workload {
    fn push_op(&mut self, number: u32, line: &OpLine) -> Result<(), WorkFault>
        ensures { Gives (λ _. self.new) result (op_counted number self.old line.now) }
    {
        if self.plan.ops.len() >= OP_LIMIT as usize {
            return Err(WorkFault::TooLarge(Limit::Ops, number));
        }
        self.plan
            .ops
            .push(line)
            .map_err(|_refused| WorkFault::Memory)?;
        Ok(())
    }

    fn take_op(&mut self, number: u32, op: Op, words: &[u8]) -> Result<(), WorkFault>
        ensures get { op ≡ ReadOp → Gives (λ _. self.new) result (step_by number self.old (form_by Get words.now)) }
        ensures del { op ≡ DelOp → Gives (λ _. self.new) result (step_by number self.old (form_by Del words.now)) }
    {
        let Some((client, key)) = number_and_key(words) else {
            return Err(WorkFault::BadLine(number));
        };
        let Some(client) = client_of(client, self.plan.config.clients) else {
            return Err(WorkFault::BadLine(number));
        };
        self.push_op(
            number,
            &OpLine {
                client,
                op,
                key,
                body: Body::absent(),
            },
        )
    }

    fn take_put(&mut self, number: u32, words: &[u8]) -> Result<(), WorkFault>
        ensures { Gives (λ _. self.new) result (step_by number self.old (form_by Put words.now)) }
    {
        let Some((client, key, text)) = put_words(words) else {
            return Err(WorkFault::BadLine(number));
        };
        let Some(client) = client_of(client, self.plan.config.clients) else {
            return Err(WorkFault::BadLine(number));
        };
        let Some(body) = Body::from_bytes(text) else {
            return Err(WorkFault::TooLarge(Limit::Body, number));
        };
        self.push_op(
            number,
            &OpLine {
                client,
                op: Op::Put,
                key,
                body,
            },
        )
    }

    fn push_order(&mut self, number: u32, order: Order) -> Result<(), WorkFault>
        ensures { Gives (λ _. self.new) result (order_step number self.old order) }
    {
        if let Some(which) = limit_passed(&self.plan.orders, &order) {
            return Err(WorkFault::TooLarge(which, number));
        }
        self.plan.orders.push(order)?;
        Ok(())
    }

    fn take_admit(&mut self, number: u32, words: &[u8]) -> Result<(), WorkFault>
        ensures { Gives (λ _. self.new) result (step_by number self.old (form_by Admit words.now)) }
    {
        let Some((step, key)) = number_and_key(words) else {
            return Err(WorkFault::BadLine(number));
        };
        self.push_order(number, Order::Admit { step, key })
    }

    fn take_evict(&mut self, number: u32, words: &[u8]) -> Result<(), WorkFault>
        ensures { Gives (λ _. self.new) result (step_by number self.old (form_by Evict words.now)) }
    {
        let Some((step, key)) = number_and_key(words) else {
            return Err(WorkFault::BadLine(number));
        };
        self.push_order(number, Order::Evict { step, key })
    }

    fn take_snap(&mut self, number: u32, words: &[u8]) -> Result<(), WorkFault>
        ensures { Gives (λ _. self.new) result (step_by number self.old (form_by Snap words.now)) }
    {
        let Some(step) = number_of(words) else {
            return Err(WorkFault::BadLine(number));
        };
        self.push_order(number, Order::Snap { step })
    }

    fn take_stop(&mut self, number: u32, words: &[u8]) -> Result<(), WorkFault>
        ensures { Gives (λ _. self.new) result (step_by number self.old (form_by Stop words.now)) }
    {
        let Some(order) = stop_of(words) else {
            return Err(WorkFault::BadLine(number));
        };
        self.push_order(number, order)
    }

    #[tactic(auto, using(crate::proofs::Joined::picks_read, crate::proofs::Joined::picks_fail))]
    fn take_picks(&mut self, number: u32, words: &[u8]) -> Result<(), WorkFault>
        ensures { Gives (λ _. self.new) result (step_by number self.old (form_by Picks words.now)) }
    {
        join_picks(&mut self.picks, number, words)?;
        Ok(())
    }

    fn take_random(&mut self, number: u32, words: &[u8]) -> Result<(), WorkFault>
        ensures { Gives (λ _. self.new) result (step_by number self.old (form_by Random words.now)) }
    {
        let Some(start) = number_of(words) else {
            return Err(WorkFault::BadLine(number));
        };
        if self.random.is_some() {
            return Err(WorkFault::BadLine(number));
        }
        self.random = Some(start);
        Ok(())
    }

    fn take_line(&mut self, number: u32, line: &[u8]) -> Result<(), WorkFault>
        ensures { Gives (λ _. self.new) result (line_step number self.old line.now) }
    {
        let Some((word, words)) = cut(line, b' ') else {
            return Err(WorkFault::BadLine(number));
        };
        match Verb::from_word(word) {
            Some(Verb::Get) => self.take_op(number, Op::Get, words),
            Some(Verb::Put) => self.take_put(number, words),
            Some(Verb::Del) => self.take_op(number, Op::Del, words),
            Some(Verb::Admit) => self.take_admit(number, words),
            Some(Verb::Evict) => self.take_evict(number, words),
            Some(Verb::Snap) => self.take_snap(number, words),
            Some(Verb::Stop) => self.take_stop(number, words),
            Some(Verb::Picks) => self.take_picks(number, words),
            Some(Verb::Random) => self.take_random(number, words),
            None => Err(WorkFault::BadLine(number)),
        }
    }
}

#[tactic(auto, unfolding(crate::specs::Reading::reading), using(crate::proofs::ByLine::line_by_line))]
fn read_text(alloc: Global, text: &[u8]) -> Result<Workload, WorkFault>
    requires { length text.now < 2 ^ 32 }
    ensures { Gives (λ w. w) result (reading text.now) }
{
    let mut lines = Lines::new(text);
    let config = head(&mut lines)?;
    let mut load = Workload::empty(alloc, config);
    while !lines.rest.is_empty() {
        let line = next_line(&mut lines)?;
        load.take_line(lines.read, line)?;
    }
    Ok(load)
}

/// The workload that the text is, or the first line with a fault and its fault. `BadLine` names a
/// line that has none of the forms, a missing head line, a line without its end, a count of 0, a
/// client that is not there, and a second start number; `TooLarge` a line that passes a limit.
pub fn parse(alloc: Global, text: &[u8]) -> Result<Workload, WorkFault>
    requires { length text.now < 2 ^ 32 }
    // A workload, or a fault and its line, as the reading of the lines gives it.
    ensures read { Gives (λ w. w) result (reading text.now) }
    // The lines of what is read are its text.
    ensures found { IfOk result (λ w. IsReading text.now w) }
    // A text that is a workload is read as it, unless memory is refused.
    ensures only { (w : WorkView) → IsReading text.now w → IsReadAs result w }
    ensures plain { IfOk result (λ w. IsPlain w) }
    // A fault that is named is that of the first faulty line.
    ensures fault { Blames result (HasFault text.now) }
    // The first faulty line is named with its fault, unless memory is refused.
    ensures first { (fault : WorkFault) → HasFault text.now fault → IsFoundAs result fault }
{
    read_text(alloc, text)
}
