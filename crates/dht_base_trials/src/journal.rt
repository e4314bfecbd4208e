//! What a journal keeps of requests and their replies.

use dht_brick::journal::{Journal, JournalEntry};
use dht_brick::replies::{Given, Reply, Why};
use dht_brick::requests::{Change, FileRequest, NameRequest, Request};
use dht_sched::print_line;
use dht_types::bytes::Bytes;
use dht_types::identifiers::{BrickNo, CallNo, ClientNo, Gfid};
use dht_types::lines::Line;
use dht_types::locks::{Key, Mode};
use dht_types::names::Name;
use std::alloc::{AllocError, Global};
use std::test::Fail;

/// Each entry as a step line at brick 0; and under it the gfid, the name, the offset and the
/// length.
const JOURNAL: &str = "\
step 7 3 0 lock wait
  00000000-0000-0000-0000-000000000001 a 0 0
step 7 3 0 orphans failed
  00000000-0000-0000-0000-000000000000  0 0
step 7 3 0 linkover ok
  00000000-0000-0000-0000-000000000001 b 0 0
step 7 3 0 standbywrite refused:dirty
  00000000-0000-0000-0000-000000010000  5 3
step 7 3 0 mkstandby refused:nodir
  00000000-0000-0000-0000-000000000001 a 0 0
step 7 3 0 seal refused:open
  00000000-0000-0000-0000-000000010000  0 0
";

const FILE: Gfid = Gfid(0x1_0000);

/// Requests and their replies.
fn served(alloc: Global) -> Result<Vec<(Request, Reply)>, AllocError> {
    let (root, name) = (Gfid::ROOT, Name::of(b"a"));
    let lock = Request::Lock(Key::Entry(root, name), Mode::Exclusive);
    let over = NameRequest::LinkOver(root, Name::of(b"b"), FILE, Gfid(9));
    let bytes = Bytes::new(b"abc".to_vec(alloc)?);
    let write = FileRequest::StandbyWrite(FILE, Change::Write(5, bytes));
    let copy = FileRequest::MakeStandby {
        file: FILE,
        dir: root,
        name,
        source: BrickNo(1),
        hop: 4,
    };
    let orphans = NameRequest::Orphans(Some(FILE));
    Ok(vec![in alloc;
        (lock, Reply::Wait(ClientNo(1))),
        (Request::OnNames(orphans), Reply::Failed),
        (Request::OnNames(over), Reply::Ok(Given::Links(1))),
        (Request::OnFile(write), Reply::Refused(Why::Dirty)),
        (Request::OnFile(copy), Reply::Refused(Why::Nodir)),
        (Request::Seal(FILE), Reply::Refused(Why::Open(2))),
    ]?)
}

/// Appends an entry as it is told.
fn push_told(alloc: Global, out: &mut Vec<u8>, entry: &JournalEntry) -> Result<(), AllocError> {
    let (request, reply) = (entry.request, entry.reply);
    let step = Line::Stepped(entry.call, entry.client, BrickNo(0), request, reply);
    print_line(&step, out)?;
    out.extend_from_slice(b"  ")?;
    out.extend_from_slice(&entry.gfid.text())?;
    out.push(b' ')?;
    out.extend_from_slice(entry.name.as_bytes())?;
    let span = format!(in alloc; " {} {}\n", entry.offset, entry.length)?;
    out.extend_from_slice(span.as_bytes())
}

#[test]
fn a_journal_keeps_its_entries(rt: HostRuntime) -> Result<(), Fail> {
    let mut journal = Journal::new(rt.alloc());
    for (request, reply) in &served(rt.alloc())? {
        journal.make_room()?;
        journal.note(JournalEntry::of(ClientNo(3), CallNo(7), request, reply));
    }
    let mut out = Vec::new(rt.alloc());
    for entry in journal.as_slice() {
        push_told(rt.alloc(), &mut out, entry)?;
    }
    let text = String::from_utf8_lossy(rt.alloc(), &out)?;
    assert_eq!(rt; text.as_str(), JOURNAL);
    Ok(())
}
