use super::*;
use far_base::{Body, Key, Record};
use std::test::Fail;

#[test]
fn a_snapshot_has_every_part(rt: HostRuntime) -> Result<(), Fail> {
    let record = Record {
        key: Key::from_text(b"a").ok_or("no key")?,
        num: 4,
        body: Body::absent(),
    };
    let mut job = Job::new(rt.alloc(), 1, 2).map_err(|_| "no memory")?;
    job.part(1, Some(record));
    assert!(rt; job.has(1) && !job.has(0) && job.lacks(0) && !job.lacks(2));
    job.begun(7);
    assert!(rt; !job.is_whole());
    job.part(0, None);
    assert!(rt; job.is_whole());
    let first = job.complete();
    assert_eq!(rt; (first.id, first.point), (1, 7));
    let mut next = Job::new(rt.alloc(), 2, 2).map_err(|_| "no memory")?;
    next.begun(9);
    next.same(1, &first);
    next.same(0, &first);
    assert_eq!(rt; next.sames(), 2);
    let second = next.complete();
    assert!(rt; second.views[1] == Some(record) && second.views[0].is_none());
    Ok(())
}
