use dq_base::{Failed, MemSink, ReadSource, Sink, Source, WriteSink};
use std::io::{self, Read, Write};
use std::test::Fail;

/// What a reader does at one read.
enum Reading {
    Interrupted,
    Breaks,
    Gives(&'static [u8]),
}

/// A reader that does this in turn, and is interrupted forever after.
#[derive(Drop)]
struct ScriptedReader {
    turns: &'static [Reading],
}

impl Read for ScriptedReader {
    fn read(&mut self, into: &mut [u8]) -> io::Result<usize> {
        let Some((turn, later)) = self.turns.split_first() else {
            return Err(io::ErrorKind::Interrupted.into());
        };
        self.turns = later;
        match turn {
            Reading::Interrupted => Err(io::ErrorKind::Interrupted.into()),
            Reading::Breaks => Err(io::ErrorKind::ConnectionReset.into()),
            Reading::Gives(bytes) => {
                let count = bytes.len().min(into.len());
                into[..count].copy_from_slice(&bytes[..count]);
                Ok(count)
            }
        }
    }
}

#[test]
fn reads_go_on_after_interruptions_and_failures(rt: HostRuntime) {
    let mut source = ReadSource::new(ScriptedReader {
        turns: &[
            Reading::Interrupted,
            Reading::Gives(b"ab"),
            Reading::Gives(b"cdef"),
            Reading::Breaks,
            Reading::Gives(b""),
        ],
    });
    let mut into = [0u8; 4];
    // What each read answers, what is in the buffer then, and the count of faults.
    let wanted = [
        (Ok(2), *b"ab\0\0", 1),
        (Ok(4), *b"cdef", 1),
        (Err(Failed), *b"cdef", 2),
        (Ok(0), *b"cdef", 2),
        // One try and a thousand more.
        (Err(Failed), *b"cdef", 1_003),
    ];
    for (answer, buffer, faults) in wanted {
        assert_eq!(rt; source.read(&mut into), answer);
        assert_eq!(rt; into, buffer);
        assert_eq!(rt; source.faults(), faults);
    }
}

/// What a writer does at one write.
enum Writing {
    Interrupted,
    Breaks,
    /// It takes these bytes, with which the piece has to begin; another piece breaks it.
    Takes(&'static [u8]),
    /// It takes this many bytes.
    TakesAny(usize),
}

/// A writer that does this in turn, and is interrupted forever after.
#[derive(Drop)]
struct ScriptedWriter {
    turns: &'static [Writing],
}

impl Write for ScriptedWriter {
    fn write(&mut self, bytes: &[u8]) -> io::Result<usize> {
        let Some((turn, later)) = self.turns.split_first() else {
            return Err(io::ErrorKind::Interrupted.into());
        };
        self.turns = later;
        match turn {
            Writing::Interrupted => Err(io::ErrorKind::Interrupted.into()),
            Writing::Breaks => Err(io::ErrorKind::BrokenPipe.into()),
            Writing::Takes(front) if bytes.starts_with(front) => Ok(front.len()),
            Writing::Takes(_) => Err(io::ErrorKind::InvalidData.into()),
            Writing::TakesAny(most) => Ok(bytes.len().min(*most)),
        }
    }

    fn flush(&mut self) -> io::Result<()> {
        Ok(())
    }
}

#[test]
fn writes_go_on_after_interruptions_and_failures(rt: HostRuntime) {
    let mut sink = WriteSink::new(ScriptedWriter {
        turns: &[
            Writing::Takes(b"ab"),
            Writing::Interrupted,
            Writing::Takes(b"cd"),
            Writing::Takes(b"e"),
            Writing::Breaks,
            Writing::Takes(b""),
            Writing::Takes(b"jk"),
        ],
    });
    // What is written, what is answered, and the count of faults.
    let wanted = [
        (&b"abcd"[..], Ok(()), 1),
        (&b"efg"[..], Err(Failed), 2),
        (&b"hi"[..], Err(Failed), 3),
        (&b"jk"[..], Ok(()), 3),
        (&b""[..], Ok(()), 3),
        // One try and a thousand more.
        (&b"l"[..], Err(Failed), 1_004),
    ];
    for (bytes, answer, faults) in wanted {
        assert_eq!(rt; sink.write_all(bytes), answer);
        assert_eq!(rt; sink.faults(), faults);
    }
}

#[test]
fn a_long_piece_is_written_whole(rt: HostRuntime) -> Result<(), Fail> {
    let piece = vec![in rt.alloc(); 7; 2_000_000]?;
    let mut sink = WriteSink::new(ScriptedWriter {
        turns: &[Writing::TakesAny(1_000_000), Writing::TakesAny(1_000_000)],
    });
    assert_eq!(rt; sink.write_all(piece.as_slice()), Ok(()));
    assert_eq!(rt; sink.faults(), 0);
    Ok(())
}

#[test]
fn a_sink_in_memory_keeps_what_did_not_fail(rt: HostRuntime) -> Result<(), Fail> {
    let mut sink = MemSink::new(rt.alloc(), vec![in rt.alloc(); 2]?);
    // What is written, what is answered, and what the sink holds then.
    for (bytes, answer, held) in [
        (b"one".as_slice(), Ok(()), b"one".as_slice()),
        (b"two".as_slice(), Err(Failed), b"one".as_slice()),
        (b"three".as_slice(), Ok(()), b"onethree".as_slice()),
    ] {
        assert_eq!(rt; sink.write_all(bytes), answer);
        assert_eq!(rt; sink.bytes(), held);
    }
    Ok(())
}
