use super::*;
use far_base::{Config, Key};
use std::test::Fail;

#[test]
fn a_key_is_wanted(rt: HostRuntime) -> Result<(), Fail> {
    let key = Key::from_text(b"a").ok_or("no key")?;
    let config = Config {
        clients: 2,
        servers: 1,
        slots: 1,
        hot: 0,
    };
    let mut controller = Controller::new(rt.alloc(), config).map_err(|_| "no memory")?;
    assert!(rt; !controller.tick_ready() && !controller.has_job() && !controller.has_round());
    controller.want(key).map_err(|_| "no memory")?;
    assert!(rt; controller.has_want() && controller.tick_ready() && !controller.busy_evicting());
    Ok(())
}
