use super::*;
use std::test::Fail;

#[test]
fn a_round_is_ready_once_all_have_answered(rt: HostRuntime) -> Result<(), Fail> {
    let mut round = Round::new(rt.alloc(), 1, 5, 2, 2).map_err(|_| "no memory")?;
    round.asked_store();
    round.told(0, 0);
    round.told(1, 2);
    round.stored(4);
    assert!(rt; round.waits_stored() && !round.waits_told(0) && round.waits_told(1));
    round.told(1, 7);
    assert!(rt; !round.asks_top());
    round.stored(5);
    assert!(rt; !round.waits_top(0) && round.asks_top() && !round.asks_top());
    round.top(1, 9);
    assert!(rt; round.ready().is_none() && round.waits_top(0) && !round.waits_top(1));
    round.top(0, 3);
    assert!(rt; round.ready() == Some(9));
    Ok(())
}
