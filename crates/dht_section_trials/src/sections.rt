//! Sections that are driven by hand.

use dht_brick::replies::{Given, Look, Reply, Why};
use dht_brick::requests::{NameRequest, Request};
use dht_section::looks::{Linkto, What};
use dht_section::machine::{Ask, Finish, Machine, Turn};
use dht_section::origin::Origin;
use dht_section::section::{Opened, Section};
use dht_section::want::Want;
use dht_types::bytes::Bytes;
use dht_types::calls::Answer;
use dht_types::errors::Errno;
use dht_types::identifiers::{BrickNo, CallNo, ClientNo, Gfid};
use dht_types::locks::{Key, Mode};
use dht_types::names::Name;
use dht_types::stored::{Main, Slot};
use std::alloc::{AllocError, Global};
use std::test::Fail;

const DIR: Gfid = Gfid(0x30000);

const OTHER: Gfid = Gfid(0x20000);

const FILE: Gfid = Gfid(0x50001);

/// A reply that shows this main part, and a directory without a range.
fn shown(main: Option<Main>) -> Reply {
    Reply::Ok(Given::Look(Look {
        slot: Slot {
            main,
            standby: None,
        },
        file: None,
        copy: None,
        value: None,
    }))
}

/// Two directories, one in both modes, and two names, one of them twice; of two bricks.
fn begun(alloc: Global) -> Result<Section, AllocError> {
    let mut dirs = Vec::new(alloc);
    dirs.push((DIR, Mode::Shared))?;
    dirs.push((OTHER, Mode::Shared))?;
    dirs.push((DIR, Mode::Exclusive))?;
    let mut names = Vec::new(alloc);
    names.push((DIR, Name::of(b"b")))?;
    names.push((OTHER, Name::of(b"z")))?;
    names.push((DIR, Name::of(b"b")))?;
    Section::begin(alloc, 2, Want::new(dirs, names))
}

/// What the section asks is this lock.
fn asks_lock(section: &Section, key: &Key, mode: Mode) -> bool {
    let ask = section.next();
    match &ask.request {
        Request::Lock(asked, held) => *asked == *key && *held == mode,
        _ => false,
    }
}

/// What it asks is a look at this name on this brick.
fn asks_look(section: &Section, directory: Gfid, name: &Name, brick: u16) -> bool {
    let ask = section.next();
    match &ask.request {
        Request::OnNames(NameRequest::Look(asked, at)) => {
            *asked == directory && at.same(name) && ask.brick.0 == brick
        }
        _ => false,
    }
}

/// The request gives this lock back.
fn unlocks(ask: &Ask, key: &Key) -> bool {
    match &ask.request {
        Request::Unlock(asked) => *asked == *key,
        _ => false,
    }
}

/// What the section asks is to give this lock back.
fn asks_unlock(section: &Section, key: &Key) -> bool {
    unlocks(&section.next(), key)
}

/// The section goes on after this reply.
fn goes_on(section: Section, reply: Reply, at: u64) -> Result<Section, Fail> {
    match section.take(reply, at) {
        Turn::Go(section) => Ok(section),
        Turn::Done(_) => Err(Fail::new("another turn")),
    }
}

/// The section with all its locks: the directories by gfid, and then the names.
fn locked(alloc: Global) -> Result<Section, Fail> {
    let mut section = begun(alloc)?;
    let keys = [
        (Key::Dir(OTHER), Mode::Shared),
        (Key::Dir(DIR), Mode::Exclusive),
        (Key::Entry(OTHER, Name::of(b"z")), Mode::Exclusive),
        (Key::Entry(DIR, Name::of(b"b")), Mode::Exclusive),
    ];
    for (key, mode) in &keys {
        section = goes_on(section, Reply::Wait(ClientNo(1)), 1)?;
        if !asks_lock(&section, key, *mode) {
            return Err(Fail::new("another lock"));
        }
        section = goes_on(section, Reply::Ok(Given::Nothing), 2)?;
    }
    Ok(section)
}

#[test]
fn a_section_is_held(rt: HostRuntime) -> Result<(), Fail> {
    let z = Name::of(b"z");
    let b = Name::of(b"b");
    let mut section = locked(rt.alloc())?;
    assert!(rt; asks_look(&section, OTHER, &z, 0));
    section = goes_on(section, shown(None), 10)?;
    assert!(rt; asks_look(&section, OTHER, &z, 1));
    section = goes_on(section, shown(Some(Main::File(FILE, None))), 11)?;
    assert!(rt; asks_look(&section, DIR, &b, 0));
    section = goes_on(section, shown(None), 12)?;
    assert!(rt; asks_look(&section, DIR, &b, 1));
    let Turn::Done(Opened::Held(held)) = section.take(shown(None), 13) else {
        return Err(Fail::new("another turn"));
    };
    let found = held.found(OTHER, &z);
    assert!(rt; found.looked == 11);
    assert!(rt; matches!(found.what, What::File(FILE, BrickNo(1), 0)));
    assert!(rt; held.found(DIR, &b).looked == 13);
    assert!(rt; matches!(held.found(DIR, &b).what, What::Absent));
    assert!(rt; held.is_copied(DIR, &b, BrickNo(1)));
    assert!(rt; !held.is_linkto(DIR, &b, BrickNo(1)));
    assert!(rt; held.holder(DIR, &b).is_none());
    assert!(rt; held.hop(OTHER, &z) == 0);
    let finish = Finish {
        answer: Answer::File(FILE),
        at: Some(11),
    };
    let mut closing = held.close(finish);
    for _ in 0..3 {
        let Turn::Go(next) = closing.take(Reply::Ok(Given::Nothing), 14) else {
            return Err(Fail::new("another turn"));
        };
        closing = next;
    }
    assert!(rt; matches!(closing.next().request, Request::Unlock(Key::Dir(OTHER))));
    assert!(rt; matches!(closing.take(Reply::Ok(Given::Nothing), 15), Turn::Done(_)));
    Ok(())
}

/// What a brick shows of a name that has a linkto of this value.
fn shown_linkto(alloc: Global, value: &[u8]) -> Result<Reply, AllocError> {
    Ok(shown(Some(Main::Linkto(Bytes::new(Vec::from_slice(alloc, value)?)))))
}

#[test]
fn linktos_are_read(rt: HostRuntime) -> Result<(), Fail> {
    let z = Name::of(b"z");
    let b = Name::of(b"b");
    let alloc = rt.alloc();
    let mut section = locked(alloc)?;
    section = goes_on(section, shown_linkto(alloc, b"brick-1\0")?, 10)?;
    section = goes_on(section, shown_linkto(alloc, b"brick-01")?, 11)?;
    section = goes_on(section, shown_linkto(alloc, b"brick-2")?, 12)?;
    let Turn::Done(Opened::Held(held)) = section.take(shown_linkto(alloc, b"brick-0")?, 13) else {
        return Err(Fail::new("another turn"));
    };
    assert!(rt; matches!(held.linkto(OTHER, &z, BrickNo(0)), Linkto::To(BrickNo(1))));
    assert!(rt;
        matches!(held.linkto(OTHER, &z, BrickNo(1)), Linkto::Unread),
        "a spare zero"
    );
    assert!(rt;
        matches!(held.linkto(DIR, &b, BrickNo(0)), Linkto::Unread),
        "there are two bricks"
    );
    assert!(rt; matches!(held.linkto(DIR, &b, BrickNo(1)), Linkto::To(BrickNo(0))));
    assert!(rt; matches!(held.linkto(DIR, &b, BrickNo(2)), Linkto::No));
    assert!(rt; held.is_linkto(OTHER, &z, BrickNo(1)));
    Ok(())
}

#[test]
fn a_directory_is_gone(rt: HostRuntime) -> Result<(), Fail> {
    let mut section = locked(rt.alloc())?;
    section = goes_on(section, Reply::Refused(Why::Nodir), 10)?;
    assert!(rt; asks_unlock(&section, &Key::Entry(DIR, Name::of(b"b"))));
    section = goes_on(section, Reply::Ok(Given::Nothing), 11)?;
    assert!(rt; asks_unlock(&section, &Key::Entry(OTHER, Name::of(b"z"))));
    section = goes_on(section, Reply::Ok(Given::Nothing), 12)?;
    section = goes_on(section, Reply::Ok(Given::Nothing), 13)?;
    assert!(rt; asks_unlock(&section, &Key::Dir(OTHER)));
    let Turn::Done(Opened::Gone(directory, at)) = section.take(Reply::Ok(Given::Nothing), 14) else {
        return Err(Fail::new("another turn"));
    };
    assert!(rt; directory == OTHER && at == 10);
    Ok(())
}

#[test]
fn a_section_is_stopped(rt: HostRuntime) -> Result<(), Fail> {
    let mut section = begun(rt.alloc())?;
    section = goes_on(section, Reply::Ok(Given::Nothing), 1)?;
    section = goes_on(section, Reply::Down, 2)?;
    assert!(rt; asks_unlock(&section, &Key::Dir(DIR)), "though it was down");
    section = goes_on(section, Reply::Ok(Given::Nothing), 3)?;
    assert!(rt; asks_unlock(&section, &Key::Dir(OTHER)));
    let end = section.take(Reply::Ok(Given::Nothing), 4);
    assert!(rt; matches!(end, Turn::Done(Opened::Stopped(Errno::Enotconn))));
    Ok(())
}

#[test]
fn one_name_is_held_by_two_locks(rt: HostRuntime) -> Result<(), Fail> {
    let name = Name::of(b"a");
    let mut section = Section::of_name(rt.alloc(), 1, Gfid::ROOT, Mode::Shared, name)?;
    assert!(rt; asks_lock(&section, &Key::Dir(Gfid::ROOT), Mode::Shared));
    section = goes_on(section, Reply::Ok(Given::Nothing), 1)?;
    assert!(rt; asks_lock(&section, &Key::Entry(Gfid::ROOT, name), Mode::Exclusive));
    section = goes_on(section, Reply::Ok(Given::Nothing), 2)?;
    assert!(rt; asks_look(&section, Gfid::ROOT, &name, 0));
    Ok(())
}

#[test]
fn a_section_is_released_and_begins_anew(rt: HostRuntime) -> Result<(), Fail> {
    let name = Name::of(b"a");
    let mut section = Section::of_name(rt.alloc(), 1, DIR, Mode::Shared, name)?;
    section = goes_on(section, Reply::Ok(Given::Nothing), 1)?;
    section = goes_on(section, Reply::Ok(Given::Nothing), 2)?;
    let Turn::Done(Opened::Held(held)) = section.take(shown(Some(Main::Dir(OTHER))), 3) else {
        return Err(Fail::new("another turn"));
    };
    assert!(rt; matches!(held.found(DIR, &name).what, What::Dir(OTHER)));
    let release = held.release();
    assert!(rt;
        unlocks(&release.next(), &Key::Entry(DIR, name)),
        "the last lock first"
    );
    let Turn::Go(release) = release.take(Reply::Ok(Given::Nothing), 4) else {
        return Err(Fail::new("another turn"));
    };
    assert!(rt; unlocks(&release.next(), &Key::Dir(DIR)));
    let Turn::Done(prepared) = release.take(Reply::Ok(Given::Nothing), 5) else {
        return Err(Fail::new("another turn"));
    };
    let mut section = prepared.begin();
    assert!(rt; asks_lock(&section, &Key::Dir(DIR), Mode::Shared));
    section = goes_on(section, Reply::Ok(Given::Nothing), 6)?;
    section = goes_on(section, Reply::Ok(Given::Nothing), 7)?;
    let Turn::Done(Opened::Held(held)) = section.take(shown(None), 8) else {
        return Err(Fail::new("another turn"));
    };
    assert!(rt;
        matches!(held.found(DIR, &name).what, What::Absent),
        "as it is seen anew"
    );
    assert!(rt; held.found(DIR, &name).looked == 8);
    Ok(())
}

#[test]
fn a_gfid_tells_of_its_origin(rt: HostRuntime) -> Result<(), Fail> {
    let origin = Origin {
        run: 1,
        client: ClientNo(2),
        call: CallNo(3),
    };
    let gfid = origin.gfid(BrickNo(4));
    assert!(rt; gfid == Gfid(0x0000_0001_0002_0000_0000_0000_0003_0004));
    assert!(rt; gfid.home().0 == 4);
    Ok(())
}
