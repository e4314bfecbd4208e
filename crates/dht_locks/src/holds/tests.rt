//! Locks that clients ask for, free and leave behind.

use super::*;
use dht_types::identifiers::Gfid;
use dht_types::names::Name;
use std::test::Fail;

const DIR: Key = Key::Dir(Gfid::ROOT);

/// This client asks for the directory.
fn ask(locks: &mut Locks, client: u16, mode: Mode) -> Asked {
    locks.ask(ClientNo(client), &DIR, mode)
}

#[test]
fn a_lock_is_passed_on(rt: HostRuntime) -> Result<(), Fail> {
    let mut locks = Locks::new(rt.alloc());
    assert!(rt; ask(&mut locks, 7, Mode::Exclusive) == Asked::Granted);
    assert!(rt;
        ask(&mut locks, 7, Mode::Shared) == Asked::Granted,
        "its own"
    );
    assert!(rt; ask(&mut locks, 7, Mode::Exclusive) == Asked::Granted);
    assert!(rt; ask(&mut locks, 5, Mode::Shared) == Asked::Wait(ClientNo(7)));
    locks.free(ClientNo(7), &DIR);
    assert!(rt; ask(&mut locks, 5, Mode::Shared) == Asked::Granted);
    assert!(rt;
        ask(&mut locks, 7, Mode::Shared) == Asked::Granted,
        "beside it"
    );
    assert!(rt; ask(&mut locks, 5, Mode::Exclusive) == Asked::Wait(ClientNo(7)));
    assert!(rt; ask(&mut locks, 9, Mode::Exclusive) == Asked::Wait(ClientNo(5)));
    locks.free_client(ClientNo(5));
    assert!(rt; ask(&mut locks, 9, Mode::Exclusive) == Asked::Wait(ClientNo(7)));
    locks.clear();
    assert!(rt; ask(&mut locks, 9, Mode::Exclusive) == Asked::Granted);
    Ok(())
}

#[test]
fn a_lock_of_another_key_is_free(rt: HostRuntime) -> Result<(), Fail> {
    let mut locks = Locks::new(rt.alloc());
    let file = Gfid(0x1_0000);
    let name = Key::Entry(Gfid::ROOT, Name::of(b"a.txt"));
    let other = Key::Entry(Gfid::ROOT, Name::of(b"a.tx"));
    assert!(rt; ask(&mut locks, 1, Mode::Exclusive) == Asked::Granted);
    let keys = [
        name,
        other,
        Key::Content(file),
        Key::Dir(file),
        Key::Rebalance,
    ];
    for key in &keys {
        assert!(rt; locks.ask(ClientNo(2), key, Mode::Exclusive) == Asked::Granted);
    }
    for key in &keys {
        assert!(rt; locks.ask(ClientNo(1), key, Mode::Shared) == Asked::Wait(ClientNo(2)));
    }
    Ok(())
}
