use super::*;
use far_base::{Key, Packet, Party};
use packet_codec::decode;
use std::test::Fail;

#[test]
fn messages_keep_their_order(rt: HostRuntime) -> Result<(), Fail> {
    let key = Key::from_text(b"a").ok_or("no key")?;
    let hot = Packet::Hot { key };
    let mut bag = Bag::new(rt.alloc());
    bag.reserve(3).map_err(|_| "no memory")?;
    assert_eq!(rt; bag.count(), 0);
    bag.put(Party::Client(1), Party::Switch, &hot);
    bag.reserve(2).map_err(|_| "no memory")?;
    bag.put(Party::Switch, Party::Server(0), &hot);
    assert_eq!(rt; bag.count(), 2);
    assert!(rt; !bag.none_from(Party::Switch));
    assert_eq!(rt; bag.get(1).1, Party::Server(0));
    let (from, _, wire) = bag.take(0);
    assert_eq!(rt; from, Party::Client(1));
    assert!(rt; decode(wire.bytes()) == Ok(hot));
    assert_eq!(rt; bag.take(0).0, Party::Switch);
    assert!(rt; bag.none_from(Party::Switch));
    Ok(())
}

#[test]
fn the_oldest_message_to_a_party_is_found(rt: HostRuntime) -> Result<(), Fail> {
    let key = Key::from_text(b"a").ok_or("no key")?;
    let hot = Packet::Hot { key };
    let mut bag = Bag::new(rt.alloc());
    bag.reserve(4).map_err(|_| "no memory")?;
    assert_eq!(rt; bag.oldest_to(Party::Client(1)), None);
    // Both clients are counted at one place.
    bag.put(Party::Switch, Party::Client(65), &hot);
    assert_eq!(rt; bag.oldest_to(Party::Client(1)), None);
    bag.put(Party::Switch, Party::Client(1), &hot);
    bag.put(Party::Client(1), Party::Switch, &hot);
    bag.put(Party::Switch, Party::Client(1), &hot);
    assert_eq!(rt; bag.oldest_to(Party::Client(1)), Some(1));
    assert_eq!(rt; bag.oldest_to(Party::Switch), Some(2));
    bag.remove(1);
    assert_eq!(rt; bag.oldest_to(Party::Client(1)), Some(2));
    bag.remove(0);
    bag.remove(1);
    assert_eq!(rt; bag.oldest_to(Party::Client(1)), None);
    assert_eq!(rt; bag.oldest_to(Party::Switch), Some(0));
    Ok(())
}
