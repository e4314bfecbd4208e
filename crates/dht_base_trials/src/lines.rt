//! The lines of transcripts, dumps and commands, printed.

use dht_sched::{
    print_dump_line, print_hash, print_line, print_malformed, print_range, print_usage,
};
use dht_types::bytes::Bytes;
use dht_types::calls::{Answer, Call, TreeStep};
use dht_types::errors::Errno;
use dht_types::identifiers::{BrickNo, CallNo, ClientNo, Gfid};
use dht_types::lines::{Cause, DumpLine, Line, RecordLine, Refusal, ReplyKind, RequestKind};
use dht_types::names::Name;
use dht_types::stored::{Main, Slot, Standby};
use dht_types::volumes::Weights;
use std::alloc::{AllocError, Global};
use std::test::Fail;

const TRANSCRIPT: &str = "\
volume 2 0 7
remount 3 7 0 1000
call 12 1 lookup 00000000-0000-0000-0000-000000000001 a%20b%25%7f
call 12 1 create 00000000-0000-0000-0000-000000000001 a%20b%25%7f
call 12 1 unlink 00000001-0000-0000-0000-000000010002 %-
call 12 1 mkdir 00000000-0000-0000-0000-000000000001 a%20b%25%7f
call 12 1 rmdir 00000001-0000-0000-0000-000000010002 %-
call 12 1 heal 00000001-0000-0000-0000-000000010002
tree 12 add-file 00000000-0000-0000-0000-000000000001 a%20b%25%7f 00000001-0000-0000-0000-000000010002
tree 12 remove-file 00000000-0000-0000-0000-000000000001 a%20b%25%7f
tree 12 add-dir 00000000-0000-0000-0000-000000000001 a%20b%25%7f 00000001-0000-0000-0000-000000010002
tree 12 remove-dir 00000000-0000-0000-0000-000000000001 a%20b%25%7f
refused 7 unknown
refused 7 dead
refused 7 busy
refused 7 idle
refused 7 answer
refused 7 open
refused 7 fewer
wait 12 1 3 63
down 3
up 3
die 1
step 12 1 3 lock ok
step 12 1 3 unlock ok
step 12 1 3 look refused:nodir
step 12 1 3 dirinfo nomem
step 12 1 3 create refused:slot
step 12 1 3 mkstandby failed
step 12 1 3 lwrite down
step 12 1 3 setlayout ok
step 12 1 3 mkdir ok
step 12 1 3 dropdir refused:notempty
answer 12 1 at 34 file 00000001-0000-0000-0000-000000010002
answer 12 1 at 34 dir 00000001-0000-0000-0000-000000010002
answer 12 1 at 34 made 00000001-0000-0000-0000-000000010002
answer 12 1 at 34 ok
answer 12 1 at 34 eexist
answer 12 1 at 34 eisdir
answer 12 1 at 34 enotdir
answer 12 1 at 34 enotempty
answer 12 1 at 34 estale
answer 12 1 at 34 enametoolong
answer 12 1 enomem
answer 12 1 enotconn
answer 12 1 eio
";

const STEPS: [(RequestKind, ReplyKind); 10] = [
    (RequestKind::Lock, ReplyKind::Ok),
    (RequestKind::Unlock, ReplyKind::Ok),
    (RequestKind::Look, ReplyKind::Refused(Refusal::Nodir)),
    (RequestKind::Dirinfo, ReplyKind::NoMemory),
    (RequestKind::Create, ReplyKind::Refused(Refusal::Slot)),
    (RequestKind::MakeStandby, ReplyKind::Failed),
    (RequestKind::LockedWrite, ReplyKind::Down),
    (RequestKind::SetLayout, ReplyKind::Ok),
    (RequestKind::MakeDir, ReplyKind::Ok),
    (RequestKind::DropDir, ReplyKind::Refused(Refusal::NotEmpty)),
];

const DUMP: &str = "\
brick 3 up
brick 3 down
dir 3 00000000-0000-0000-0000-000000000001 -
dir 3 00000000-0000-0000-0000-000000000001 x
dir 3 00000000-0000-0000-0000-000000000001 00abff
slot 3 00000000-0000-0000-0000-000000000001 a%20b%25 data 00000001-0000-0000-0000-000000010002 -
slot 3 00000000-0000-0000-0000-000000000001 a%20b%25 data 00000001-0000-0000-0000-000000010002 over 1 -
slot 3 00000000-0000-0000-0000-000000000001 a%20b%25 dir 00000001-0000-0000-0000-000000010002 -
slot 3 00000000-0000-0000-0000-000000000001 a%20b%25 linkto x627269636b2d3000 link 00000001-0000-0000-0000-000000010002
slot 3 00000000-0000-0000-0000-000000000001 a%20b%25 - copy 00000001-0000-0000-0000-000000010002
file 3 00000001-0000-0000-0000-000000010002 live 0 1 2 e3e3e3e3e3e3e3e3e3e3e3e3e3e3e3e3e3e3e3e3e3e3e3e3e3e3e3e3e3e3e3e3
file 3 00000001-0000-0000-0000-000000010002 moving 4 1 2 e3e3e3e3e3e3e3e3e3e3e3e3e3e3e3e3e3e3e3e3e3e3e3e3e3e3e3e3e3e3e3e3 7
file 3 00000001-0000-0000-0000-000000010002 standby 5 6 2 e3e3e3e3e3e3e3e3e3e3e3e3e3e3e3e3e3e3e3e3e3e3e3e3e3e3e3e3e3e3e3e3 dirty
file 3 00000001-0000-0000-0000-000000010002 forward 7 5
end
";

const COMMANDS: &str = "\
malformed 18446744073709551615
usage: dhtvol replay, serve, hash, layout, bulk
02345678 a%20b%25%ff
ffffffff %-
31 -
2 000000000000000000417874ffffffff
";

/// The name of the lines.
const NAME: &[u8] = b"a b%\x7f";

/// The file of the lines.
const MADE: Gfid = Gfid(0x1_0000_0000_0000_0000_0001_0002);

const CAUSES: [Cause; 7] = [
    Cause::Unknown,
    Cause::Dead,
    Cause::Busy,
    Cause::Idle,
    Cause::Answer,
    Cause::Open,
    Cause::Fewer,
];

const ANSWERS: [(Option<u64>, Answer); 13] = [
    (Some(34), Answer::File(MADE)),
    (Some(34), Answer::Dir(MADE)),
    (Some(34), Answer::Made(MADE)),
    (Some(34), Answer::Done),
    (Some(34), Answer::Fault(Errno::Eexist)),
    (Some(34), Answer::Fault(Errno::Eisdir)),
    (Some(34), Answer::Fault(Errno::Enotdir)),
    (Some(34), Answer::Fault(Errno::Enotempty)),
    (Some(34), Answer::Fault(Errno::Estale)),
    (Some(34), Answer::Fault(Errno::Enametoolong)),
    (None, Answer::Fault(Errno::Enomem)),
    (None, Answer::Fault(Errno::Enotconn)),
    (None, Answer::Fault(Errno::Eio)),
];

/// The lines of volumes, of calls, and of what these did to the tree.
fn called(alloc: Global, call: CallNo, client: ClientNo) -> Result<Vec<Line>, AllocError> {
    let (root, name) = (Gfid::ROOT, Name::of(NAME));
    let looked_up = Bytes::new(NAME.to_vec(alloc)?);
    let made = Bytes::new(NAME.to_vec(alloc)?);
    let new = Bytes::new(NAME.to_vec(alloc)?);
    let (none, nothing) = (Bytes::new(Vec::new(alloc)), Bytes::new(Vec::new(alloc)));
    Ok(vec![in alloc;
        Line::Volume(Weights::new(vec![in alloc; 0, 7]?)),
        Line::Remounted(Weights::new(vec![in alloc; 7, 0, 1000]?)),
        Line::Called(call, client, Call::Lookup(root, looked_up)),
        Line::Called(call, client, Call::Create(root, made)),
        Line::Called(call, client, Call::Unlink(MADE, none)),
        Line::Called(call, client, Call::Mkdir(root, new)),
        Line::Called(call, client, Call::Rmdir(MADE, nothing)),
        Line::Called(call, client, Call::Heal(MADE)),
        Line::Tree(call, TreeStep::AddFile(root, name, MADE)),
        Line::Tree(call, TreeStep::RemoveFile(root, name)),
        Line::Tree(call, TreeStep::AddDir(root, name, MADE)),
        Line::Tree(call, TreeStep::RemoveDir(root, name)),
    ]?)
}

/// The lines of a transcript.
fn lines(alloc: Global) -> Result<Vec<Line>, AllocError> {
    let (call, client, brick) = (CallNo(12), ClientNo(1), BrickNo(3));
    let mut lines = called(alloc, call, client)?;
    for cause in CAUSES {
        lines.push(Line::Refused(7, cause))?;
    }
    lines.push(Line::Waited(call, client, brick, ClientNo(63)))?;
    lines.push(Line::WentDown(brick))?;
    lines.push(Line::CameUp(brick))?;
    lines.push(Line::Died(client))?;
    for (kind, reply) in STEPS {
        lines.push(Line::Stepped(call, client, brick, kind, reply))?;
    }
    for (point, answer) in ANSWERS {
        lines.push(Line::Answered(call, client, point, answer))?;
    }
    Ok(lines)
}

/// The dump line of a slot.
fn slot(main: Option<Main>, standby: Option<Standby>) -> DumpLine {
    let slot = Slot { main, standby };
    DumpLine::Slot(BrickNo(3), Gfid::ROOT, Name::of(b"a b%"), slot)
}

/// The dump lines of directories and slots.
fn names(alloc: Global) -> Result<Vec<DumpLine>, AllocError> {
    let (brick, root) = (BrickNo(3), Gfid::ROOT);
    let empty = Bytes::new(Vec::new(alloc));
    let value = Bytes::new(vec![in alloc; 0, 0xab, 0xff]?);
    let linkto = Bytes::new(b"brick-0\0".to_vec(alloc)?);
    Ok(vec![in alloc;
        DumpLine::Brick(brick, true),
        DumpLine::Brick(brick, false),
        DumpLine::Dir(brick, root, None),
        DumpLine::Dir(brick, root, Some(empty)),
        DumpLine::Dir(brick, root, Some(value)),
        slot(Some(Main::File(MADE, None)), None),
        slot(Some(Main::File(MADE, Some(BrickNo(1)))), None),
        slot(Some(Main::Dir(MADE)), None),
        slot(Some(Main::Linkto(linkto)), Some(Standby::StandLink(MADE))),
        slot(None, Some(Standby::Copy(MADE))),
    ]?)
}

const RECORDS: [RecordLine; 4] = [
    RecordLine::Live {
        hop: 0,
        links: 1,
        length: 2,
        digest: [0xe3; 32],
    },
    RecordLine::Moving {
        hop: 4,
        links: 1,
        length: 2,
        digest: [0xe3; 32],
        dest: BrickNo(7),
    },
    RecordLine::Standby {
        hop: 5,
        source: BrickNo(6),
        length: 2,
        digest: [0xe3; 32],
        is_dirty: true,
    },
    RecordLine::Forward {
        brick: BrickNo(7),
        hop: 5,
    },
];

#[test]
fn lines_of_transcripts(rt: HostRuntime) -> Result<(), Fail> {
    let mut out = Vec::new(rt.alloc());
    for line in &lines(rt.alloc())? {
        print_line(line, &mut out)?;
    }
    let text = String::from_utf8_lossy(rt.alloc(), &out)?;
    assert_eq!(rt; text.as_str(), TRANSCRIPT);
    Ok(())
}

#[test]
fn lines_of_dumps(rt: HostRuntime) -> Result<(), Fail> {
    let mut lines = names(rt.alloc())?;
    for record in RECORDS {
        lines.push(DumpLine::File(BrickNo(3), MADE, record))?;
    }
    lines.push(DumpLine::End)?;
    let mut out = Vec::new(rt.alloc());
    for line in &lines {
        print_dump_line(line, &mut out)?;
    }
    let text = String::from_utf8_lossy(rt.alloc(), &out)?;
    assert_eq!(rt; text.as_str(), DUMP);
    Ok(())
}

#[test]
fn last_lines_and_lines_of_commands(rt: HostRuntime) -> Result<(), Fail> {
    let mut out = Vec::new(rt.alloc());
    print_malformed(18446744073709551615, &mut out)?;
    print_usage(&mut out)?;
    print_hash(0x0234_5678, b"a b%\xff", &mut out)?;
    print_hash(0xffff_ffff, b"", &mut out)?;
    print_range(BrickNo(31), &None, &mut out)?;
    let value = b"\0\0\0\0\0\0\0\0\0\x41\x78\x74\xff\xff\xff\xff".to_vec(rt.alloc())?;
    print_range(BrickNo(2), &Some(Bytes::new(value)), &mut out)?;
    let text = String::from_utf8_lossy(rt.alloc(), &out)?;
    assert_eq!(rt; text.as_str(), COMMANDS);
    Ok(())
}
