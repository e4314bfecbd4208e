//! A create that is driven by hand, over two bricks: no brick has the name, and the second has a
//! linkto of it; or no brick has a range of the directory, which is healed first.

use dht_brick::replies::{Given, Look, Reply};
use dht_brick::requests::{NameRequest, Request};
use dht_fileops::create::Create;
use dht_heal::room::HealRoom;
use dht_section::machine::{Machine, Turn};
use dht_section::origin::Origin;
use dht_types::bytes::Bytes;
use dht_types::calls::Answer;
use dht_types::errors::Errno;
use dht_types::identifiers::{CallNo, ClientNo, Gfid};
use dht_types::locks::Key;
use dht_types::names::Name;
use dht_types::stored::{Main, Slot};
use dht_types::volumes::Weights;
use dht_xattr::range::Range;
use std::alloc::{AllocError, Global};
use std::test::Fail;

/// The kind of a request, as it stands in a word.
#[derive(Clone, Copy, PartialEq, Eq)]
enum Kind {
    Lock,
    Look,
    Dirinfo,
    DropLinkto,
    Create,
    UnlockName,
    UnlockDir,
    Other,
}

/// The kind of what is asked.
fn kind_of(request: &Request) -> Kind {
    match request {
        Request::Lock(_, _) => Kind::Lock,
        Request::Unlock(Key::Dir(_)) => Kind::UnlockDir,
        Request::Unlock(Key::Entry(_, _)) => Kind::UnlockName,
        Request::OnNames(NameRequest::Look(_, _)) => Kind::Look,
        Request::OnNames(NameRequest::Dirinfo(_)) => Kind::Dirinfo,
        Request::OnNames(NameRequest::DropLinkto(_, _)) => Kind::DropLinkto,
        Request::OnNames(NameRequest::Create(_, _, _)) => Kind::Create,
        _ => Kind::Other,
    }
}

/// A reply that shows this main part, and this attribute of the directory.
fn shown(main: Option<Main>, value: Option<Bytes>) -> Reply {
    Reply::Ok(Given::Look(Look {
        slot: Slot {
            main,
            standby: None,
        },
        file: None,
        copy: None,
        value,
    }))
}

/// A linkto to the first brick.
fn linkto(alloc: Global) -> Result<Main, AllocError> {
    Ok(Main::Linkto(Bytes::new(Vec::from_slice(alloc, b"brick-0\0")?)))
}

/// The create after this reply, where it asked this of this brick.
fn answered(create: Create, kind: Kind, brick: u16, reply: Reply, at: u64) -> Result<Create, Fail> {
    let ask = create.next();
    if kind_of(&ask.request) != kind || ask.brick.0 != brick {
        return Err(Fail::new("another request"));
    }
    match create.take(reply, at) {
        Turn::Go(create) => Ok(create),
        Turn::Done(_) => Err(Fail::new("another turn")),
    }
}

/// The attribute of the range that has every hash.
fn all(alloc: Global) -> Result<Option<Bytes>, AllocError> {
    let range = Range {
        commit: 0,
        first: 0,
        last: u32::MAX,
    };
    let value = range.value();
    Ok(Some(Bytes::new(Vec::from_slice(alloc, value.as_slice())?)))
}

/// A create to which the first brick has shown this attribute, and the second this main part.
fn looked(rt: HostRuntime, first: Option<Bytes>, second: Option<Main>) -> Result<Create, Fail> {
    let origin = Origin {
        run: 1,
        client: ClientNo(3),
        call: CallNo(5),
    };
    let name = Name::of(b"a");
    let weights = Weights::new(vec![in rt.alloc(); 1, 1]?);
    let room = HealRoom::new(rt.alloc(), &weights)?;
    let create = Create::begin(rt.alloc(), 2, Gfid::ROOT, name, origin, room)?;
    let create = answered(create, Kind::Lock, 0, Reply::Ok(Given::Nothing), 4)?;
    let create = answered(create, Kind::Lock, 0, Reply::Ok(Given::Nothing), 5)?;
    let create = answered(create, Kind::Look, 0, shown(None, first), 6)?;
    answered(create, Kind::Look, 1, shown(second, None), 7)
}

/// The answer is this error, or that a file was made.
fn tells(answer: &Answer, fault: Option<Errno>) -> bool {
    match answer {
        Answer::Made(_) => fault.is_none(),
        Answer::Fault(errno) => fault == Some(*errno),
        _ => false,
    }
}

/// It gives its locks back, and answers this error, or that a file was made, at this line.
fn ends(create: Create, fault: Option<Errno>, at: Option<u64>) -> Result<(), Fail> {
    let create = answered(create, Kind::UnlockName, 0, Reply::Ok(Given::Nothing), 20)?;
    let Turn::Done(end) = create.take(Reply::Ok(Given::Nothing), 21) else {
        return Err(Fail::new("another turn"));
    };
    if !tells(&end.finish.answer, fault) || end.finish.at != at {
        return Err(Fail::new("another end"));
    }
    Ok(())
}

#[test]
fn a_linkto_goes_before_the_file_comes(rt: HostRuntime) -> Result<(), Fail> {
    let second = Some(linkto(rt.alloc())?);
    let create = looked(rt, all(rt.alloc())?, second)?;
    let create = answered(create, Kind::DropLinkto, 1, Reply::Ok(Given::Nothing), 8)?;
    let create = answered(create, Kind::Create, 0, Reply::Ok(Given::Nothing), 9)?;
    ends(create, None, Some(9))
}

#[test]
fn a_file_comes_where_no_linkto_is(rt: HostRuntime) -> Result<(), Fail> {
    let create = looked(rt, all(rt.alloc())?, None)?;
    let create = answered(create, Kind::Create, 0, Reply::Ok(Given::Nothing), 8)?;
    ends(create, None, Some(8))
}

#[test]
fn a_name_that_is_there_is_refused(rt: HostRuntime) -> Result<(), Fail> {
    let create = looked(rt, all(rt.alloc())?, Some(Main::File(Gfid(0x10000), None)))?;
    ends(create, Some(Errno::Eexist), Some(7))
}

#[test]
fn a_brick_that_is_down_ends_it(rt: HostRuntime) -> Result<(), Fail> {
    let second = Some(linkto(rt.alloc())?);
    let create = looked(rt, all(rt.alloc())?, second)?;
    let create = answered(create, Kind::DropLinkto, 1, Reply::Down, 8)?;
    ends(create, Some(Errno::Enotconn), None)
}

#[test]
fn a_directory_without_ranges_is_healed_first(rt: HostRuntime) -> Result<(), Fail> {
    let create = looked(rt, None, None)?;
    let create = answered(create, Kind::UnlockName, 0, Reply::Ok(Given::Nothing), 8)?;
    let create = answered(create, Kind::UnlockDir, 0, Reply::Ok(Given::Nothing), 9)?;
    let create = answered(create, Kind::Lock, 0, Reply::Ok(Given::Nothing), 10)?;
    let create = answered(create, Kind::Dirinfo, 0, Reply::Down, 11)?;
    if kind_of(&create.next().request) != Kind::UnlockDir {
        return Err(Fail::new("another request"));
    }
    let Turn::Done(end) = create.take(Reply::Ok(Given::Nothing), 12) else {
        return Err(Fail::new("another turn"));
    };
    if !tells(&end.finish.answer, Some(Errno::Enotconn)) || end.layout.is_none() {
        return Err(Fail::new("another end"));
    }
    Ok(())
}
