//! An unlink that is driven by hand, over two bricks: the name is a file's on the first, and its
//! last.

use dht_brick::replies::{Given, Look, Reply, Why};
use dht_brick::requests::{FileRequest, NameRequest, Request};
use dht_fileops::unlink::Unlink;
use dht_section::machine::{Machine, Turn};
use dht_types::bytes::Bytes;
use dht_types::calls::Answer;
use dht_types::errors::Errno;
use dht_types::identifiers::{BrickNo, Gfid};
use dht_types::locks::Key;
use dht_types::names::Name;
use dht_types::stored::{Main, Slot};
use std::test::Fail;

/// The kind of a request, as it stands in a word.
#[derive(Clone, Copy, PartialEq, Eq)]
enum Kind {
    LockDir,
    LockName,
    Look,
    Unlink,
    DropLinkto,
    Seal,
    Drop,
    UnlockName,
    UnlockDir,
    Other,
}

const FILE: Gfid = Gfid(0x10000);

/// The kind of what is asked.
fn kind_of(request: &Request) -> Kind {
    match request {
        Request::Lock(Key::Dir(_), _) => Kind::LockDir,
        Request::Lock(Key::Entry(_, _), _) => Kind::LockName,
        Request::Unlock(Key::Dir(_)) => Kind::UnlockDir,
        Request::Unlock(Key::Entry(_, _)) => Kind::UnlockName,
        Request::Seal(FILE) => Kind::Seal,
        Request::OnFile(FileRequest::Drop(FILE)) => Kind::Drop,
        Request::OnNames(NameRequest::Look(_, _)) => Kind::Look,
        Request::OnNames(NameRequest::Unlink(_, _, FILE)) => Kind::Unlink,
        Request::OnNames(NameRequest::DropLinkto(_, _)) => Kind::DropLinkto,
        _ => Kind::Other,
    }
}

/// A reply that shows this main part.
fn shown(main: Option<Main>) -> Reply {
    Reply::Ok(Given::Look(Look {
        slot: Slot {
            main,
            standby: None,
        },
        file: None,
        copy: None,
        value: None,
    }))
}

/// The unlink after this reply, where it asked this of this brick.
fn answered(unlink: Unlink, kind: Kind, brick: u16, reply: Reply, at: u64) -> Result<Unlink, Fail> {
    let ask = unlink.next();
    if kind_of(&ask.request) != kind || ask.brick.0 != brick {
        return Err(Fail::new("another request"));
    }
    match unlink.take(reply, at) {
        Turn::Go(unlink) => Ok(unlink),
        Turn::Done(_) => Err(Fail::new("another turn")),
    }
}

/// An unlink that has looked at both bricks, and whose name is a file on the first; the second has
/// shown this.
fn found(rt: HostRuntime, second: Option<Main>) -> Result<Unlink, Fail> {
    let name = Name::of(b"a");
    let unlink = Unlink::begin(rt.alloc(), 2, Gfid::ROOT, name)?;
    let unlink = answered(unlink, Kind::LockDir, 0, Reply::Ok(Given::Nothing), 4)?;
    let unlink = answered(unlink, Kind::LockName, 0, Reply::Ok(Given::Nothing), 5)?;
    let unlink = answered(
        unlink,
        Kind::Look,
        0,
        shown(Some(Main::File(FILE, None))),
        6,
    )?;
    answered(unlink, Kind::Look, 1, shown(second), 7)
}

/// The answer is this error, or that it is done.
fn tells(answer: &Answer, fault: Option<Errno>) -> bool {
    match answer {
        Answer::Done => fault.is_none(),
        Answer::Fault(errno) => fault == Some(*errno),
        _ => false,
    }
}

/// It gives its locks back, and answers this error, or that it is done, at this line.
fn ends(unlink: Unlink, fault: Option<Errno>, at: Option<u64>) -> Result<(), Fail> {
    let unlink = answered(unlink, Kind::UnlockName, 0, Reply::Ok(Given::Nothing), 20)?;
    let Turn::Done(end) = unlink.take(Reply::Ok(Given::Nothing), 21) else {
        return Err(Fail::new("another turn"));
    };
    if !tells(&end.finish.answer, fault) || end.finish.at != at {
        return Err(Fail::new("another end"));
    }
    Ok(())
}

#[test]
fn the_last_name_takes_the_file_along(rt: HostRuntime) -> Result<(), Fail> {
    let unlink = found(rt, None)?;
    let unlink = answered(unlink, Kind::Unlink, 0, Reply::Ok(Given::Links(0)), 9)?;
    let unlink = answered(unlink, Kind::Seal, 1, Reply::Ok(Given::Nothing), 10)?;
    let unlink = answered(unlink, Kind::Drop, 0, Reply::Ok(Given::Nothing), 11)?;
    ends(unlink, None, Some(9))
}

#[test]
fn an_open_file_stays(rt: HostRuntime) -> Result<(), Fail> {
    let unlink = found(rt, None)?;
    let unlink = answered(unlink, Kind::Unlink, 0, Reply::Ok(Given::Links(0)), 9)?;
    let unlink = answered(unlink, Kind::Seal, 1, Reply::Refused(Why::Open(1)), 10)?;
    ends(unlink, None, Some(9))
}

#[test]
fn a_file_with_another_name_stays(rt: HostRuntime) -> Result<(), Fail> {
    let unlink = found(rt, None)?;
    let unlink = answered(unlink, Kind::Unlink, 0, Reply::Ok(Given::Links(1)), 9)?;
    ends(unlink, None, Some(9))
}

#[test]
fn a_brick_that_is_down_ends_it(rt: HostRuntime) -> Result<(), Fail> {
    let unlink = found(rt, None)?;
    let unlink = answered(unlink, Kind::Unlink, 0, Reply::Ok(Given::Links(0)), 9)?;
    let unlink = answered(unlink, Kind::Seal, 1, Reply::Down, 10)?;
    ends(unlink, Some(Errno::Enotconn), None)
}

#[test]
fn a_linkto_of_the_name_goes_too(rt: HostRuntime) -> Result<(), Fail> {
    let linkto = Main::Linkto(Bytes::new(Vec::from_slice(rt.alloc(), b"brick-0\0")?));
    let unlink = found(rt, Some(linkto))?;
    let unlink = answered(unlink, Kind::Unlink, 0, Reply::Ok(Given::Links(0)), 9)?;
    let unlink = answered(unlink, Kind::DropLinkto, 1, Reply::Ok(Given::Nothing), 10)?;
    let unlink = answered(unlink, Kind::Seal, 1, Reply::Ok(Given::Nothing), 11)?;
    let unlink = answered(unlink, Kind::Drop, 0, Reply::Ok(Given::Nothing), 12)?;
    ends(unlink, None, Some(9))
}
