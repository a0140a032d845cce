use super::*;
use std::test::Fail;

#[test]
fn a_visit_answers_the_old_cell(rt: HostRuntime) -> Result<(), Fail> {
    let mut counts = RegArray::new(rt.alloc(), 0, 2, 5u64).map_err(|_| "memory")?;
    let mut flags = RegArray::new(rt.alloc(), 3, 1, false).map_err(|_| "memory")?;
    let mut token = PassToken::start();
    assert_eq!(rt; counts.visit(&mut token, 1, |count| count / 2), 5);
    assert!(rt; !flags.visit(&mut token, 0, |flag| !flag));
    assert_eq!(rt; counts.look(0), 5);
    assert_eq!(rt; counts.look(1), 2);
    assert!(rt; flags.look(0));
    counts.reset(0);
    assert_eq!(rt; counts.count(), 2);
    assert_eq!(rt; counts.look(1), 0);
    Ok(())
}
