use super::*;
use far_base::{Body, Key, Packet};
use std::test::Fail;

#[test]
fn an_eviction_is_given_up_after_three_removals(rt: HostRuntime) -> Result<(), Fail> {
    let key = Key::from_text(b"a").ok_or("no key")?;
    let (mut evict, _peek) = Evict::begin(1, 0, key, 7);
    assert!(rt; evict.waits_for(Due::Peeked, 0, 7) && !evict.waits_for(Due::Peeked, 0, 8));
    let body = Body::absent();
    assert!(rt; matches!(evict.peeked(true, 4, body), Next::Store(_)));
    assert_eq!(rt; evict.due(), Due::Stored);
    assert!(rt;
        matches!(
            evict.stored(),
            Packet::Remove {
                num: 4,
                latest: true,
                ..
            }
        )
    );
    assert!(rt; matches!(evict.removed(false, true, 5, body), Next::Store(_)));
    evict.stored();
    assert!(rt; matches!(evict.removed(false, true, 6, body), Next::Store(_)));
    evict.stored();
    assert!(rt;
        matches!(
            evict.removed(false, true, 7, body),
            Next::Kept { tries: 3, .. }
        )
    );
    assert_eq!(rt; evict.due(), Due::Over);
    Ok(())
}
