//! Inputs, and the lines that are cut off them.

ghost use Rattle.std.specs.Prelude.{None};

use dht_run::line_reader::{LineReader, Next};
use dht_run::source::{Got, MemSource, Source};
use std::alloc::{AllocError, Global};
use std::test::Fail;

/// What comes out of a source: each line and a bar, `!` for a fault, and `.` for the end or `?` for
/// no line.
fn transcript<S: Source>(alloc: Global, source: &mut S) -> Result<Vec<u8>, AllocError> {
    let mut reader = LineReader::new(alloc)?;
    let mut out = Vec::new(alloc);
    for _ in 0..100 {
        match reader.next(source) {
            Next::Line => {
                out.extend_from_slice(reader.line())?;
                out.push(b'|')?;
            }
            Next::Failed => out.push(b'!')?,
            Next::End => {
                out.push(b'.')?;
                return Ok(out);
            }
            Next::NoLine => {
                out.push(b'?')?;
                return Ok(out);
            }
        }
    }
    Ok(out)
}

/// A source that gives a byte at a time.
#[derive(Drop)]
struct ByteByByte {
    bytes: Vec<u8>,
    read: usize,
}

impl Source for ByteByByte {
    ghost left = { λ _. None };

    ghost faults = { λ _. 0 };

    fn read(&mut self, into: &mut [u8]) -> Got {
        match (into, self.bytes.get(self.read)) {
            ([first, ..], Some(next)) => {
                *first = *next;
                self.read = self.read.saturating_add(1);
                Got::Bytes(1)
            }
            _ => Got::Bytes(0),
        }
    }
}

const INPUTS: [(&[u8], &[u8]); 7] = [
    (b"", b"."),
    (b"no newline", b"?"),
    (b"\n", b"|."),
    (b"one\ntwo\n", b"one|two|."),
    (b"one\n\ntwo\n", b"one||two|."),
    (b"one\ntwo", b"one|?"),
    (b"one\r\n", b"one\r|."),
];

#[test]
fn lines_are_cut_off(rt: HostRuntime) -> Result<(), Fail> {
    let alloc = rt.alloc();
    for (input, wanted) in INPUTS {
        let mut source = MemSource::new(input.to_vec(alloc)?, Vec::new(alloc));
        assert_eq!(rt;
            transcript(alloc, &mut source)?.as_slice(),
            wanted,
            "at {input:?}"
        );
        let mut slow = ByteByByte {
            bytes: input.to_vec(alloc)?,
            read: 0,
        };
        assert_eq!(rt;
            transcript(alloc, &mut slow)?.as_slice(),
            wanted,
            "by bytes, at {input:?}"
        );
    }
    Ok(())
}

#[test]
fn a_fault_loses_nothing(rt: HostRuntime) -> Result<(), Fail> {
    let alloc = rt.alloc();
    let wanted: [&[u8]; 3] = [b"!one|two|.", b"one|two|!.", b"one|two|."];
    for (index, wanted) in wanted.iter().enumerate() {
        let fails = vec![in alloc; (index as u64).saturating_add(1)]?;
        let mut source = MemSource::new(b"one\ntwo\n".to_vec(alloc)?, fails);
        assert_eq!(rt;
            transcript(alloc, &mut source)?.as_slice(),
            *wanted,
            "at {index}"
        );
    }
    Ok(())
}

/// A source of a line of this many bytes and a newline.
fn source_of_line(alloc: Global, len: usize) -> Result<MemSource, AllocError> {
    let mut bytes = vec![in alloc; b'a'; len]?;
    bytes.push(b'\n')?;
    Ok(MemSource::new(bytes, Vec::new(alloc)))
}

#[test]
fn a_line_has_a_limit(rt: HostRuntime) -> Result<(), Fail> {
    let alloc = rt.alloc();
    let mut longest = source_of_line(alloc, 16_383)?;
    let mut reader = LineReader::new(alloc)?;
    assert_eq!(rt; reader.next(&mut longest), Next::Line);
    assert_eq!(rt; reader.line().len(), 16_383);
    assert_eq!(rt; reader.next(&mut longest), Next::End);
    let mut longer = source_of_line(alloc, 16_384)?;
    let mut reader = LineReader::new(alloc)?;
    assert_eq!(rt; reader.next(&mut longer), Next::NoLine);
    assert_eq!(rt; reader.next(&mut longer), Next::NoLine);
    Ok(())
}

#[test]
fn an_input_has_a_limit(rt: HostRuntime) -> Result<(), Fail> {
    let alloc = rt.alloc();
    for (more, last) in [(0, Next::End), (1, Next::NoLine)] {
        let mut bytes = Vec::new(alloc);
        for _ in 0..1_024 {
            bytes.extend_from_slice(vec![in alloc; b'a'; 16_383]?.as_slice())?;
            bytes.push(b'\n')?;
        }
        bytes.extend_from_slice(vec![in alloc; b'\n'; more]?.as_slice())?;
        let mut source = MemSource::new(bytes, Vec::new(alloc));
        let mut reader = LineReader::new(alloc)?;
        for line in 0..1_024 {
            assert_eq!(rt; reader.next(&mut source), Next::Line, "at line {line}");
        }
        assert_eq!(rt; reader.next(&mut source), last, "with {more} more");
    }
    Ok(())
}
