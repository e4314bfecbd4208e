//! Sources and sinks, in memory and over std, and writes that are short or fail.

ghost use Rattle.std.specs.Prelude.{None};
ghost use Rattle.dht_run.specs.Memory.{sink_plan};

use dht_run::sink::{MemSink, Sink, SinkFault, StdSink, Took, write_all};
use dht_run::source::{Got, MemSource, Source, StdSource};
use std::io;
use std::io::{Read, Write};
use std::test::Fail;

#[test]
fn a_source_in_memory_fails_as_planned(rt: HostRuntime) -> Result<(), Fail> {
    let alloc = rt.alloc();
    let mut source = MemSource::new(b"hello".to_vec(alloc)?, [2].to_vec(alloc)?);
    let mut into = [0; 3];
    assert_eq!(rt; source.read(&mut into), Got::Bytes(3));
    assert_eq!(rt; into.as_slice(), b"hel".as_slice());
    assert_eq!(rt; source.read(&mut into), Got::Failed);
    assert_eq!(rt; source.read(&mut into), Got::Bytes(2));
    assert_eq!(rt; into.as_slice(), b"lol".as_slice());
    assert_eq!(rt; source.read(&mut into), Got::Bytes(0));
    Ok(())
}

/// A reader whose second read fails.
#[derive(Drop)]
struct SecondFails {
    calls: u8,
}

impl Read for SecondFails {
    fn read(&mut self, into: &mut [u8]) -> io::Result<usize> {
        self.calls = self.calls.saturating_add(1);
        if self.calls == 2 {
            return Err(io::Error::from(io::ErrorKind::BrokenPipe));
        }
        match into {
            [] => Ok(0),
            [first, ..] => {
                *first = self.calls;
                Ok(1)
            }
        }
    }
}

#[test]
fn a_source_over_a_reader_goes_on_after_a_fault(rt: HostRuntime) {
    let mut source = StdSource::new(SecondFails { calls: 0 });
    let mut into = [0; 3];
    assert_eq!(rt; source.read(&mut into), Got::Bytes(1));
    assert_eq!(rt; source.read(&mut into), Got::Failed);
    assert_eq!(rt; source.read(&mut into), Got::Bytes(1));
    assert_eq!(rt; into.as_slice(), [3, 0, 0].as_slice());
}

#[test]
fn a_sink_in_memory_fails_as_planned_and_when_it_is_full(rt: HostRuntime) -> Result<(), Fail> {
    let alloc = rt.alloc();
    let mut sink = MemSink::new(alloc, 5, [2].to_vec(alloc)?)?;
    assert_eq!(rt; sink.write(b"hel"), Took::Bytes(3));
    assert_eq!(rt; sink.write(b"lost"), Took::Failed);
    assert_eq!(rt; sink.write(b"lower"), Took::Bytes(2));
    assert_eq!(rt; sink.write(b"more"), Took::Failed);
    assert_eq!(rt; sink.write(b""), Took::Bytes(0));
    assert_eq!(rt; sink.bytes(), b"hello".as_slice());
    Ok(())
}

/// A writer that takes a byte at a time. Its second write fails, and its third takes nothing.
#[derive(Drop)]
struct Slow {
    calls: u8,
}

impl Write for Slow {
    fn write(&mut self, piece: &[u8]) -> io::Result<usize> {
        self.calls = self.calls.saturating_add(1);
        match self.calls {
            2 => Err(io::Error::from(io::ErrorKind::BrokenPipe)),
            3 => Ok(0),
            _ => Ok(piece.len().min(1)),
        }
    }

    fn flush(&mut self) -> io::Result<()> {
        Ok(())
    }
}

#[test]
fn a_sink_over_a_writer_goes_on_after_faults(rt: HostRuntime) {
    let mut sink = StdSink::new(Slow { calls: 0 });
    assert_eq!(rt; sink.write(b"hello"), Took::Bytes(1));
    assert_eq!(rt; sink.write(b"ello"), Took::Failed);
    assert_eq!(rt; sink.write(b"ello"), Took::Failed);
    assert_eq!(rt; sink.write(b"ello"), Took::Bytes(1));
    assert_eq!(rt; sink.write(b""), Took::Bytes(0));
}

#[test]
fn a_sink_over_a_writer_passes_its_bytes_on(rt: HostRuntime) {
    let mut taken = Vec::new(rt.alloc());
    let mut sink = StdSink::new(&mut taken);
    assert_eq!(rt; sink.write(b"hello"), Took::Bytes(5));
    assert_eq!(rt; taken.as_slice(), b"hello".as_slice());
}

/// A sink that takes two bytes at a time.
#[derive(Drop)]
struct ByTwos {
    sink: MemSink,
}

impl Sink for ByTwos {
    ghost taken = { λ _. None };

    ghost faults = { λ s. (sink_plan s.sink).faults };

    fn write(&mut self, piece: &[u8]) -> Took {
        self.sink.write(&piece[..piece.len().min(2)])
    }
}

/// A text, the writes that fail, and what is taken of it by twos.
const WRITES: [(&[u8], u64, Result<(), SinkFault>, &[u8]); 4] = [
    (b"hello", 0, Ok(()), b"hello"),
    (b"", 1, Ok(()), b""),
    (b"hello", 2, Err(SinkFault), b"he"),
    (b"hello world", 0, Err(SinkFault), b"hello wor"),
];

#[test]
fn short_writes_add_up_until_a_fault(rt: HostRuntime) -> Result<(), Fail> {
    let alloc = rt.alloc();
    for (text, fails, wanted, taken) in WRITES {
        let sink = MemSink::new(alloc, 9, [fails].to_vec(alloc)?)?;
        let mut sink = ByTwos { sink };
        assert_eq!(rt; write_all(&mut sink, text), wanted, "at {text:?}");
        assert_eq!(rt; sink.sink.bytes(), taken, "at {text:?}");
    }
    Ok(())
}
