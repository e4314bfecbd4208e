//! Runs over sources and sinks in memory, as text. Expected values are those of another
//! implementation, in Python.

use dht_run::run::{Shelf, run};
use dht_run::sink::MemSink;
use dht_run::source::MemSource;
use dht_run::words::Word;
use std::alloc::{AllocError, Global};
use std::test::Fail;

const SCHEDULE: &str = "\
volume 2 1 0\n\
call 0 create @ a\n\
step 0\n\
step 0\n\
step 0\n\
step 0\n\
step 0\n\
step 0\n\
step 0\n\
call 0 lookup @ a\n\
step 0\n\
";

/// What is written of it: 14 lines of events, and what the bricks contain.
const TRANSCRIPT: &str = "\
volume 2 1 0\n\
call 1 0 create 00000000-0000-0000-0000-000000000001 a\n\
step 1 0 0 lock ok\n\
step 1 0 0 lock ok\n\
step 1 0 0 look ok\n\
step 1 0 1 look ok\n\
step 1 0 0 create ok\n\
tree 1 add-file 00000000-0000-0000-0000-000000000001 a 00000001-0000-0000-0000-000000010000\n\
step 1 0 0 unlock ok\n\
step 1 0 0 unlock ok\n\
answer 1 0 at 8 made 00000001-0000-0000-0000-000000010000\n\
call 2 0 lookup 00000000-0000-0000-0000-000000000001 a\n\
step 2 0 0 look ok\n\
answer 2 0 at 13 file 00000001-0000-0000-0000-000000010000\n\
brick 0 up\n\
dir 0 00000000-0000-0000-0000-000000000001 000000000000000000000000ffffffff\n\
slot 0 00000000-0000-0000-0000-000000000001 a data 00000001-0000-0000-0000-000000010000 -\n\
file 0 00000001-0000-0000-0000-000000010000 live 0 1 0 e3b0c44298fc1c149afbf4c8996fb92427ae41e4649b934ca495991b7852b855\n\
brick 1 up\n\
dir 1 00000000-0000-0000-0000-000000000001 -\n\
end\n\
";

/// The words of a run with a bar between them, what it reads, its status, how many bricks it
/// leaves, and what it writes.
type Row = (&'static str, &'static str, u8, usize, &'static str);

const RUNS: [Row; 22] = [
    // A file is made, and then found.
    ("replay", SCHEDULE, 0, 2, TRANSCRIPT),
    // It is made once only.
    (
        "replay",
        "\
volume 2 1 0\n\
call 0 create @ a\n\
step 0\n\
step 0\n\
step 0\n\
step 0\n\
step 0\n\
step 0\n\
step 0\n\
call 0 create @ a\n\
step 0\n\
step 0\n\
step 0\n\
step 0\n\
step 0\n\
step 0\n\
",
        0,
        2,
        "\
volume 2 1 0\n\
call 1 0 create 00000000-0000-0000-0000-000000000001 a\n\
step 1 0 0 lock ok\n\
step 1 0 0 lock ok\n\
step 1 0 0 look ok\n\
step 1 0 1 look ok\n\
step 1 0 0 create ok\n\
tree 1 add-file 00000000-0000-0000-0000-000000000001 a 00000001-0000-0000-0000-000000010000\n\
step 1 0 0 unlock ok\n\
step 1 0 0 unlock ok\n\
answer 1 0 at 8 made 00000001-0000-0000-0000-000000010000\n\
call 2 0 create 00000000-0000-0000-0000-000000000001 a\n\
step 2 0 0 lock ok\n\
step 2 0 0 lock ok\n\
step 2 0 0 look ok\n\
step 2 0 1 look ok\n\
step 2 0 0 unlock ok\n\
step 2 0 0 unlock ok\n\
answer 2 0 at 16 eexist\n\
brick 0 up\n\
dir 0 00000000-0000-0000-0000-000000000001 000000000000000000000000ffffffff\n\
slot 0 00000000-0000-0000-0000-000000000001 a data 00000001-0000-0000-0000-000000010000 -\n\
file 0 00000001-0000-0000-0000-000000010000 live 0 1 0 e3b0c44298fc1c149afbf4c8996fb92427ae41e4649b934ca495991b7852b855\n\
brick 1 up\n\
dir 1 00000000-0000-0000-0000-000000000001 -\n\
end\n\
",
    ),
    // Another name is not found.
    (
        "replay",
        "\
volume 2 1 0\n\
call 0 create @ a\n\
step 0\n\
step 0\n\
step 0\n\
step 0\n\
step 0\n\
step 0\n\
step 0\n\
call 0 lookup @ b\n\
step 0\n\
step 0\n\
step 0\n\
step 0\n\
step 0\n\
step 0\n\
step 0\n\
",
        0,
        2,
        "\
volume 2 1 0\n\
call 1 0 create 00000000-0000-0000-0000-000000000001 a\n\
step 1 0 0 lock ok\n\
step 1 0 0 lock ok\n\
step 1 0 0 look ok\n\
step 1 0 1 look ok\n\
step 1 0 0 create ok\n\
tree 1 add-file 00000000-0000-0000-0000-000000000001 a 00000001-0000-0000-0000-000000010000\n\
step 1 0 0 unlock ok\n\
step 1 0 0 unlock ok\n\
answer 1 0 at 8 made 00000001-0000-0000-0000-000000010000\n\
call 2 0 lookup 00000000-0000-0000-0000-000000000001 b\n\
step 2 0 0 look ok\n\
step 2 0 0 lock ok\n\
step 2 0 0 lock ok\n\
step 2 0 0 look ok\n\
step 2 0 1 look ok\n\
step 2 0 0 unlock ok\n\
step 2 0 0 unlock ok\n\
answer 2 0 at 17 enoent\n\
brick 0 up\n\
dir 0 00000000-0000-0000-0000-000000000001 000000000000000000000000ffffffff\n\
slot 0 00000000-0000-0000-0000-000000000001 a data 00000001-0000-0000-0000-000000010000 -\n\
file 0 00000001-0000-0000-0000-000000010000 live 0 1 0 e3b0c44298fc1c149afbf4c8996fb92427ae41e4649b934ca495991b7852b855\n\
brick 1 up\n\
dir 1 00000000-0000-0000-0000-000000000001 -\n\
end\n\
",
    ),
    // Two clients make one name: one of them waits.
    (
        "replay",
        "\
volume 2 1 0\n\
call 0 create @ a\n\
call 1 create @ a\n\
step 0\n\
step 1\n\
step 0\n\
step 1\n\
step 0\n\
step 1\n\
step 0\n\
step 1\n\
step 0\n\
step 1\n\
step 0\n\
step 1\n\
step 0\n\
step 1\n\
step 1\n\
step 1\n\
step 1\n\
",
        0,
        2,
        "\
volume 2 1 0\n\
call 1 0 create 00000000-0000-0000-0000-000000000001 a\n\
call 2 1 create 00000000-0000-0000-0000-000000000001 a\n\
step 1 0 0 lock ok\n\
step 2 1 0 lock ok\n\
step 1 0 0 lock ok\n\
wait 2 1 0 0\n\
step 1 0 0 look ok\n\
wait 2 1 0 0\n\
step 1 0 1 look ok\n\
wait 2 1 0 0\n\
step 1 0 0 create ok\n\
tree 1 add-file 00000000-0000-0000-0000-000000000001 a 00000001-0000-0000-0000-000000010000\n\
wait 2 1 0 0\n\
step 1 0 0 unlock ok\n\
step 2 1 0 lock ok\n\
step 1 0 0 unlock ok\n\
answer 1 0 at 13 made 00000001-0000-0000-0000-000000010000\n\
step 2 1 0 look ok\n\
step 2 1 1 look ok\n\
step 2 1 0 unlock ok\n\
step 2 1 0 unlock ok\n\
answer 2 1 at 20 eexist\n\
brick 0 up\n\
dir 0 00000000-0000-0000-0000-000000000001 000000000000000000000000ffffffff\n\
slot 0 00000000-0000-0000-0000-000000000001 a data 00000001-0000-0000-0000-000000010000 -\n\
file 0 00000001-0000-0000-0000-000000010000 live 0 1 0 e3b0c44298fc1c149afbf4c8996fb92427ae41e4649b934ca495991b7852b855\n\
brick 1 up\n\
dir 1 00000000-0000-0000-0000-000000000001 -\n\
end\n\
",
    ),
    // A brick goes down, a client dies, and there is no such brick.
    (
        "replay",
        "\
volume 2 1 0\n\
down 0\n\
call 0 lookup @ a\n\
step 0\n\
up 0\n\
call 63 create @ a\n\
step 63\n\
step 63\n\
die 63\n\
call 63 lookup @ a\n\
down 2\n\
call 0 create @ a\n\
step 0\n\
step 0\n\
step 0\n\
down 1\n\
step 0\n\
step 0\n\
step 0\n\
",
        0,
        2,
        "\
volume 2 1 0\n\
down 0\n\
call 1 0 lookup 00000000-0000-0000-0000-000000000001 a\n\
step 1 0 0 dirinfo down\n\
answer 1 0 enotconn\n\
up 0\n\
call 2 63 create 00000000-0000-0000-0000-000000000001 a\n\
step 2 63 0 lock ok\n\
step 2 63 0 lock ok\n\
die 63\n\
refused 10 dead\n\
refused 11 unknown\n\
call 3 0 create 00000000-0000-0000-0000-000000000001 a\n\
step 3 0 0 lock ok\n\
step 3 0 0 lock ok\n\
step 3 0 0 look ok\n\
down 1\n\
step 3 0 1 look down\n\
step 3 0 0 unlock ok\n\
step 3 0 0 unlock ok\n\
answer 3 0 enotconn\n\
brick 0 up\n\
dir 0 00000000-0000-0000-0000-000000000001 000000000000000000000000ffffffff\n\
brick 1 down\n\
dir 1 00000000-0000-0000-0000-000000000001 -\n\
end\n\
",
    ),
    // There is no such client, or it has not called.
    (
        "replay",
        "\
volume 2 1 0\n\
step 64\n\
step 9\n\
",
        0,
        2,
        "\
volume 2 1 0\n\
refused 2 unknown\n\
refused 3 idle\n\
brick 0 up\n\
dir 0 00000000-0000-0000-0000-000000000001 000000000000000000000000ffffffff\n\
brick 1 up\n\
dir 1 00000000-0000-0000-0000-000000000001 -\n\
end\n\
",
    ),
    // Calls are refused before their first request; or they name what no call has answered.
    (
        "replay",
        "\
volume 2 1 0\n\
call 0 create @ /\n\
call 0 lookup @ %-\n\
call 0 unlink @1 a\n\
call 0 unlink @9 a\n\
call 0 lookup 00000000-0000-0000-0000-000000000002 a\n\
call 0 unlink @ aaaaaaaaaaaaaaaaaaaaaaaaaaaaaaaaaaaaaaaaaaaaaaaaaaaaaaaaaaaaaaaaaaaaaaaaaaaaaaaaaaaaaaaaaaaaaaaaaaaaaaaaaaaaaaaaaaaaaaaaaaaaaaaaaaaaaaaaaaaaaaaaaaaaaaaaaaaaaaaaaaaaaaaaaaaaaaaaaaaaaaaaaaaaaaaaaaaaaaaaaaaaaaaaaaaaaaaaaaaaaaaaaaaaaaaaaaaaaaaaaaaaaaaaaaaaaaaa\n\
call 64 lookup @7 a\n\
",
        0,
        2,
        "\
volume 2 1 0\n\
call 1 0 create 00000000-0000-0000-0000-000000000001 /\n\
answer 1 0 einval\n\
call 2 0 lookup 00000000-0000-0000-0000-000000000001 %-\n\
answer 2 0 einval\n\
refused 4 answer\n\
refused 5 answer\n\
call 3 0 lookup 00000000-0000-0000-0000-000000000002 a\n\
answer 3 0 at 8 estale\n\
call 4 0 unlink 00000000-0000-0000-0000-000000000001 aaaaaaaaaaaaaaaaaaaaaaaaaaaaaaaaaaaaaaaaaaaaaaaaaaaaaaaaaaaaaaaaaaaaaaaaaaaaaaaaaaaaaaaaaaaaaaaaaaaaaaaaaaaaaaaaaaaaaaaaaaaaaaaaaaaaaaaaaaaaaaaaaaaaaaaaaaaaaaaaaaaaaaaaaaaaaaaaaaaaaaaaaaaaaaaaaaaaaaaaaaaaaaaaaaaaaaaaaaaaaaaaaaaaaaaaaaaaaaaaaaaaaaaaaaaaaaaa\n\
answer 4 0 enametoolong\n\
refused 8 unknown\n\
brick 0 up\n\
dir 0 00000000-0000-0000-0000-000000000001 000000000000000000000000ffffffff\n\
brick 1 up\n\
dir 1 00000000-0000-0000-0000-000000000001 -\n\
end\n\
",
    ),
    // The bricks of a volume share the root's hashes.
    (
        "replay",
        "volume 2 1 1\n",
        0,
        2,
        "\
volume 2 1 1\n\
brick 0 up\n\
dir 0 00000000-0000-0000-0000-000000000001 0000000000000000000000007ffffffe\n\
brick 1 up\n\
dir 1 00000000-0000-0000-0000-000000000001 00000000000000007fffffffffffffff\n\
end\n\
",
    ),
    // Lines that are invalid.
    ("replay", "", 3, 0, "malformed 1\n"),
    ("replay", "\n", 3, 0, "malformed 1\n"),
    ("replay", "step 0\n", 3, 0, "malformed 1\n"),
    ("replay", "volume 2 1 0", 3, 0, "malformed 1\n"),
    ("replay", "volume 2 0 0\n", 3, 0, "malformed 1\n"),
    (
        "replay",
        "volume 2 1 1\ncall 0 cre",
        3,
        2,
        "volume 2 1 1\nmalformed 2\n",
    ),
    (
        "replay",
        "volume 2 1 0\nvolume 2 1 0\n",
        3,
        2,
        "volume 2 1 0\nmalformed 2\n",
    ),
    (
        "replay",
        "volume 2 1 0\nstep 0\ncall 0 cre",
        3,
        2,
        "\
volume 2 1 0\n\
refused 2 idle\n\
malformed 3\n\
",
    ),
    // The hashes of names of one letter.
    (
        "hash||a|aaaa|aaaaaaaaaaaaaaa|aaaaaaaaaaaaaaaa|aaaaaaaaaaaaaaaaa|aaaaaaaaaaaaaaaaaaaaaaaaaaaaaaaaaaaaaaaaaaaaaaaaaaaaaaaaaaaaaaaaaaaaaaaaaaaaaaaaaaaaaaaaaaaaaaaaaaaaaaaaaaaaaaaaaaaaaaaaaaaaaaaaaaaaaaaaaaaaaaaaaaaaaaaaaaaaaaaaaaaaaaaaaaaaaaaaaaaaaaaaaaaaaaaaaaaaaaaaaaaaaaaaaaaaaaaaaaaaaaaaaaaaaaaaaaaaaaaaaaaaaaaaaaaaaaa",
        "",
        0,
        0,
        "\
884774a2 %-\n\
3a17e4e6 a\n\
10055b22 aaaa\n\
6c658e4f aaaaaaaaaaaaaaa\n\
4b7bcfa6 aaaaaaaaaaaaaaaa\n\
3a11e11a aaaaaaaaaaaaaaaaa\n\
13717738 aaaaaaaaaaaaaaaaaaaaaaaaaaaaaaaaaaaaaaaaaaaaaaaaaaaaaaaaaaaaaaaaaaaaaaaaaaaaaaaaaaaaaaaaaaaaaaaaaaaaaaaaaaaaaaaaaaaaaaaaaaaaaaaaaaaaaaaaaaaaaaaaaaaaaaaaaaaaaaaaaaaaaaaaaaaaaaaaaaaaaaaaaaaaaaaaaaaaaaaaaaaaaaaaaaaaaaaaaaaaaaaaaaaaaaaaaaaaaaaaaaaaaaaaaaaaaaa\n\
",
    ),
    // Layouts.
    (
        "layout|1|1",
        "",
        0,
        0,
        "0 0000000000000000000000007ffffffe\n1 00000000000000007fffffffffffffff\n",
    ),
    (
        "layout|1000",
        "",
        0,
        0,
        "0 000000000000000000000000ffffffff\n",
    ),
    (
        "layout|0|1|1000",
        "",
        0,
        0,
        "\
0 -\n\
1 00000000000000000000000000417873\n\
2 000000000000000000417874ffffffff\n\
",
    ),
    (
        "layout|0|7|0|1000|3",
        "",
        0,
        0,
        "\
0 -\n\
1 00000000000000000000000001c635bb\n\
2 -\n\
3 000000000000000001c635bcff3d56ad\n\
4 0000000000000000ff3d56aeffffffff\n\
",
    ),
    (
        "layout|1|1|1|1|1|1|1|1|1|1|1|1|1|1|1|1|1|1|1|1|1|1|1|1|1|1|1|1|1|1|1|1",
        "",
        0,
        0,
        "\
0 00000000000000000000000007fffffe\n\
1 000000000000000007ffffff0ffffffd\n\
2 00000000000000000ffffffe17fffffc\n\
3 000000000000000017fffffd1ffffffb\n\
4 00000000000000001ffffffc27fffffa\n\
5 000000000000000027fffffb2ffffff9\n\
6 00000000000000002ffffffa37fffff8\n\
7 000000000000000037fffff93ffffff7\n\
8 00000000000000003ffffff847fffff6\n\
9 000000000000000047fffff74ffffff5\n\
10 00000000000000004ffffff657fffff4\n\
11 000000000000000057fffff55ffffff3\n\
12 00000000000000005ffffff467fffff2\n\
13 000000000000000067fffff36ffffff1\n\
14 00000000000000006ffffff277fffff0\n\
15 000000000000000077fffff17fffffef\n\
16 00000000000000007ffffff087ffffee\n\
17 000000000000000087ffffef8fffffed\n\
18 00000000000000008fffffee97ffffec\n\
19 000000000000000097ffffed9fffffeb\n\
20 00000000000000009fffffeca7ffffea\n\
21 0000000000000000a7ffffebafffffe9\n\
22 0000000000000000afffffeab7ffffe8\n\
23 0000000000000000b7ffffe9bfffffe7\n\
24 0000000000000000bfffffe8c7ffffe6\n\
25 0000000000000000c7ffffe7cfffffe5\n\
26 0000000000000000cfffffe6d7ffffe4\n\
27 0000000000000000d7ffffe5dfffffe3\n\
28 0000000000000000dfffffe4e7ffffe2\n\
29 0000000000000000e7ffffe3efffffe1\n\
30 0000000000000000efffffe2f7ffffe0\n\
31 0000000000000000f7ffffe1ffffffff\n\
",
    ),
];

/// Words that are no command.
const NO_COMMANDS: [&str; 24] = [
    "",
    "|",
    "repla",
    "replays",
    "Replay",
    "replay|a",
    "has|a",
    "hash",
    "hash|-x",
    "hash|-",
    "hash|a|b|--",
    "-hash|a",
    "layout",
    "layout|",
    "layout|0|0",
    "layout|01",
    "layout|1001",
    "layout|18446744073709551617",
    "layout|+1",
    "layout|1|-1",
    "layout|1|x",
    "layout|1 1",
    "Layout|1",
    "layout|1|1|1|1|1|1|1|1|1|1|1|1|1|1|1|1|1|1|1|1|1|1|1|1|1|1|1|1|1|1|1|1|1",
];

const USAGE: &str = "usage: dhtvol replay, serve, hash, layout, bulk\n";

/// The words of a text with a bar between them. An empty text has none.
fn words_of(alloc: Global, text: &[u8]) -> Result<Vec<Word>, AllocError> {
    let mut words = Vec::new(alloc);
    let mut word = Vec::new(alloc);
    for byte in text {
        if *byte == b'|' {
            words.push(Word::new(alloc, &word)?)?;
            word.clear();
        } else {
            word.push(*byte)?;
        }
    }
    if !text.is_empty() {
        words.push(Word::new(alloc, &word)?)?;
    }
    Ok(words)
}

/// The status of a run, and how many bricks it leaves. `fails` lists the reads that fail.
fn outcome(
    alloc: Global,
    words: &[u8],
    input: &str,
    fails: &[u64],
    sink: &mut MemSink,
) -> Result<(u8, usize), AllocError> {
    let words = words_of(alloc, words)?;
    let mut source = MemSource::new(input.as_bytes().to_vec(alloc)?, fails.to_vec(alloc)?);
    let mut shelf = Shelf {
        mem: Vec::new(alloc),
    };
    let status = run(alloc, &words, &mut source, sink, &mut shelf);
    Ok((status, shelf.mem.len()))
}

#[test]
fn runs_write_their_text(rt: HostRuntime) -> Result<(), Fail> {
    let alloc = rt.alloc();
    for (words, input, status, bricks, output) in RUNS {
        let mut sink = MemSink::new(alloc, 2_000, Vec::new(alloc))?;
        let ended = outcome(alloc, words.as_bytes(), input, &[], &mut sink)?;
        assert_eq!(rt; ended, (status, bricks), "at {words:?} and {input:?}");
        assert_eq!(rt;
            sink.bytes(),
            output.as_bytes(),
            "at {words:?} and {input:?}"
        );
    }
    Ok(())
}

#[test]
fn words_that_are_no_command_are_refused(rt: HostRuntime) -> Result<(), Fail> {
    let alloc = rt.alloc();
    for words in NO_COMMANDS {
        let mut sink = MemSink::new(alloc, 2_000, Vec::new(alloc))?;
        let ended = outcome(alloc, words.as_bytes(), SCHEDULE, &[], &mut sink)?;
        assert_eq!(rt; ended, (2, 0), "at {words:?}");
        assert_eq!(rt; sink.bytes(), USAGE.as_bytes(), "at {words:?}");
    }
    Ok(())
}

#[test]
fn a_full_sink_has_a_prefix(rt: HostRuntime) -> Result<(), Fail> {
    let alloc = rt.alloc();
    for (words, input, _, _, output) in RUNS {
        for room in (0..output.len()).step_by(7) {
            let mut sink = MemSink::new(alloc, room, Vec::new(alloc))?;
            let (status, _) = outcome(alloc, words.as_bytes(), input, &[], &mut sink)?;
            assert_eq!(rt; status, 5, "at {words:?} and {input:?} with {room}");
            assert_eq!(rt; sink.bytes().len(), room, "at {words:?} and {input:?}");
            assert!(rt;
                output.as_bytes().starts_with(sink.bytes()),
                "at {words:?} with {room}"
            );
        }
    }
    Ok(())
}

/// The first lines of a text, so many of them.
fn first_lines(text: &[u8], count: usize) -> &[u8] {
    let mut left = count;
    for (index, byte) in text.iter().enumerate() {
        if left == 0 {
            return &text[..index];
        }
        if *byte == b'\n' {
            left = left.saturating_sub(1);
        }
    }
    text
}

/// Which read of `SCHEDULE` fails, which write, the status, and how many lines were written before:
/// an event's lines are one write, and the dump is one.
const FAILING: [(u64, u64, u8, usize); 14] = [
    (1, 0, 4, 0),
    (2, 0, 4, 14),
    (0, 1, 5, 0),
    (0, 2, 5, 1),
    (0, 3, 5, 2),
    (0, 4, 5, 3),
    (0, 5, 5, 4),
    (0, 6, 5, 5),
    (0, 7, 5, 6),
    (0, 8, 5, 8),
    (0, 9, 5, 9),
    (0, 10, 5, 11),
    (0, 11, 5, 12),
    (0, 12, 5, 14),
];

#[test]
fn a_fault_ends_the_run(rt: HostRuntime) -> Result<(), Fail> {
    let alloc = rt.alloc();
    for (read, write, status, lines) in FAILING {
        let mut sink = MemSink::new(alloc, 2_000, [write].to_vec(alloc)?)?;
        let (ended, _) = outcome(alloc, b"replay", SCHEDULE, &[read], &mut sink)?;
        assert_eq!(rt; ended, status, "at {read} and {write}");
        let wanted = first_lines(TRANSCRIPT.as_bytes(), lines);
        assert_eq!(rt; sink.bytes(), wanted, "at {read} and {write}");
    }
    Ok(())
}

#[test]
fn bytes_that_do_not_print_are_spelled(rt: HostRuntime) -> Result<(), Fail> {
    let alloc = rt.alloc();
    let words = b"hash|Gr\xc3\xbc\xc3\x9fe \xe4\xb8\x96\xe7\x95\x8c%\xff";
    let output = b"1b4cb75b Gr%c3%bc%c3%9fe%20%e4%b8%96%e7%95%8c%25%ff\n";
    let mut sink = MemSink::new(alloc, 100, Vec::new(alloc))?;
    assert_eq!(rt; outcome(alloc, words, "", &[], &mut sink)?, (0, 0));
    assert_eq!(rt; sink.bytes(), output.as_slice());
    Ok(())
}
