use super::*;
use far_base::Key;
use std::test::Fail;

#[test]
fn a_slot_is_admitted_evicted_and_freed(rt: HostRuntime) -> Result<(), Fail> {
    let key = Key::from_text(b"a").ok_or("no key")?;
    let other = Key::from_text(b"b").ok_or("no key")?;
    let mut admission = Admission::new(rt.alloc(), 2).map_err(|_| "no memory")?;
    assert_eq!(rt; admission.count(), 2);
    assert_eq!(rt; admission.next_admit(key), Some((0, 1)));
    assert_eq!(rt; admission.next_admit(other), Some((1, 2)));
    assert_eq!(rt; admission.next_admit(other), None);
    assert_eq!(rt; admission.acked(1, 1), None);
    assert_eq!(rt; admission.acked(1, 2), Some(other));
    assert!(rt; admission.holds(&key) == Some(0) && admission.held(&key).is_none());
    assert!(rt; !admission.has_free() && admission.has_held());
    assert_eq!(rt; admission.victim(), Some(1));
    assert_eq!(rt; admission.state(1), SlotState::Held { key: other, tag: 2 });
    admission.evicting(1);
    assert_eq!(rt; admission.victim(), None);
    admission.kept(1);
    admission.evicting(1);
    admission.freed(1);
    admission.clear();
    assert_eq!(rt; admission.next_admit(key), Some((0, 3)));
    Ok(())
}
