use super::*;
use far_base::Key;
use std::test::Fail;

#[test]
fn a_key_grows_hot_within_an_era(rt: HostRuntime) -> Result<(), Fail> {
    let mut cells = HotCells::new(rt.alloc(), 2).map_err(|_| "memory")?;
    let key = Key::from_text(b"a").ok_or("no key")?;
    assert!(rt; !cells.touch(&key, 0));
    assert!(rt; !cells.touch(&key, 1));
    assert!(rt; cells.touch(&key, 1));
    assert!(rt; !cells.touch(&key, 1));
    Ok(())
}
