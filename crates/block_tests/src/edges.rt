//! The real streams, fakes that fail in mid-stream, and the messages.

use io_edges::{
    Gate, Got, MemSink, MemSource, NoGate, Point, Put, ReadError, Sink, Source, StdSink, StdSource,
    WriteFault, read_all, write_all,
};
use std::io::{self, Error, ErrorKind, Read, Write};
use std::test::Fail;

// Replies to each call from a table, and then reports its end.
#[derive(Drop)]
struct ScriptedReader {
    answers: [Step; 5],
    call: usize,
}

#[derive(Drop)]
struct ScriptedWriter {
    answers: [Step; 5],
    call: usize,
    taken: usize,
}

#[derive(Clone, Copy)]
enum Step {
    Bytes(usize),
    Interrupted,
    Broken,
}

impl Read for ScriptedReader {
    fn read(&mut self, buf: &mut [u8]) -> io::Result<usize> {
        if self.call >= self.answers.len() {
            return Ok(0);
        }
        let answer = self.answers[self.call];
        self.call += 1;
        match answer {
            Step::Bytes(count) => {
                let count = count.min(buf.len());
                for byte in buf[..count].iter_mut() {
                    *byte = b'x';
                }
                Ok(count)
            }
            Step::Interrupted => Err(Error::from(ErrorKind::Interrupted)),
            Step::Broken => Err(Error::from(ErrorKind::BrokenPipe)),
        }
    }
}

impl Write for ScriptedWriter {
    fn write(&mut self, buf: &[u8]) -> io::Result<usize> {
        if self.call >= self.answers.len() {
            return Ok(0);
        }
        let answer = self.answers[self.call];
        self.call += 1;
        match answer {
            Step::Bytes(count) => {
                let count = count.min(buf.len());
                self.taken = self.taken.saturating_add(count);
                Ok(count)
            }
            Step::Interrupted => Err(Error::from(ErrorKind::Interrupted)),
            Step::Broken => Err(Error::from(ErrorKind::BrokenPipe)),
        }
    }

    fn flush(&mut self) -> io::Result<()> {
        Ok(())
    }
}

#[test]
fn a_stream_is_read_through_an_interruption_and_fails_where_it_breaks(rt: HostRuntime) {
    let mut source = StdSource::new(ScriptedReader {
        answers: [
            Step::Bytes(2),
            Step::Interrupted,
            Step::Bytes(3),
            Step::Broken,
            Step::Bytes(1),
        ],
        call: 0,
    });
    let mut into = [0; 4];
    for wanted in [
        Got::Took(2),
        Got::Took(3),
        Got::Failed,
        Got::Took(1),
        Got::End,
    ] {
        let got = source.read(&mut into);
        assert_eq!(rt; got, wanted);
    }
    assert_eq!(rt; into, *b"xxx\0");
}

#[test]
fn a_stream_is_written_through_an_interruption_and_fails_where_it_takes_nothing(rt: HostRuntime) {
    let mut sink = StdSink::new(ScriptedWriter {
        answers: [
            Step::Bytes(2),
            Step::Interrupted,
            Step::Broken,
            Step::Bytes(0),
            Step::Bytes(9),
        ],
        call: 0,
        taken: 0,
    });
    for wanted in [Put::Took(2), Put::Failed, Put::Failed, Put::Took(4)] {
        let put = sink.write(b"abcd");
        assert_eq!(rt; put, wanted);
    }
    assert!(rt; write_all(&mut sink, b"e").is_err());
}

#[test]
fn the_real_streams_end_and_take(rt: HostRuntime) -> Result<(), Fail> {
    let mut input = StdSource::standard_input(&rt);
    assert_eq!(rt; input.read(&mut [0; 4]), Got::End);
    assert!(rt; read_all(rt.alloc(), &mut input, 4)?.is_empty());
    write_all(&mut StdSink::standard_output(&rt), b"to standard output\n")?;
    write_all(&mut StdSink::standard_error(&rt), b"to standard error\n")?;
    Ok(())
}

#[test]
fn all_is_read_in_any_pieces(rt: HostRuntime) -> Result<(), Fail> {
    let alloc = rt.alloc();
    for piece in [1, 2, 7] {
        let mut source = MemSource::new(b"seven b", piece, &[]);
        let bytes = read_all(alloc, &mut source, 7)?;
        assert_eq!(rt; bytes.as_slice(), b"seven b".as_slice());
    }
    Ok(())
}

#[test]
fn a_read_fails_in_turn(rt: HostRuntime) {
    let alloc = rt.alloc();
    // Three reads return the bytes, the fourth reports the end, and a fifth is not made.
    for (number, wanted) in [
        (0, Some("read fault")),
        (2, Some("read fault")),
        (3, Some("read fault")),
        (4, None),
    ] {
        let fails = [number];
        let mut source = MemSource::new(b"abc", 1, &fails);
        match read_all(alloc, &mut source, 3) {
            Ok(_) => assert!(rt; wanted.is_none(), "at {number}"),
            Err(ReadError::Fault) => assert!(rt; wanted.is_some(), "at {number}"),
            Err(_) => assert!(rt; false, "at {number}"),
        }
    }
}

#[test]
fn one_byte_over_the_limit_is_too_long(rt: HostRuntime) {
    let four = b"abcd".as_slice();
    let rows = [
        (four, 3, true),
        (four, 4, false),
        (b"".as_slice(), 0, false),
    ];
    for (bytes, limit, too_long) in rows {
        let mut source = MemSource::new(bytes, 2, &[]);
        let read = read_all(rt.alloc(), &mut source, limit);
        assert_eq!(rt; matches!(read, Err(ReadError::TooLong)), too_long);
        assert_eq!(rt; read.is_ok(), !too_long);
    }
}

#[test]
fn all_is_written_in_any_pieces(rt: HostRuntime) -> Result<(), Fail> {
    for piece in [1, 2, 7] {
        let mut sink = MemSink::new(rt.alloc(), 7, piece, &[])?;
        write_all(&mut sink, b"seven b")?;
        assert_eq!(rt; sink.as_slice(), b"seven b".as_slice());
    }
    Ok(())
}

#[test]
fn a_write_fails_in_turn(rt: HostRuntime) -> Result<(), Fail> {
    for (room, fail, wanted) in [(3, 0, ""), (3, 2, "ab"), (2, 9, "ab"), (3, 3, "abc")] {
        let fails = [fail];
        let mut sink = MemSink::new(rt.alloc(), room, 1, &fails)?;
        let written = write_all(&mut sink, b"abc");
        assert_eq!(rt; written.is_ok(), wanted == "abc");
        assert_eq!(rt; sink.as_slice(), wanted.as_bytes());
    }
    Ok(())
}

#[test]
fn errors_say_what_they_are(rt: HostRuntime) -> Result<(), Fail> {
    let errors = [
        (ReadError::Memory, "out of memory"),
        (ReadError::Fault, "read fault"),
        (ReadError::TooLong, "input too long"),
    ];
    for (error, words) in errors {
        let text = format!(in rt.alloc(); "{error}")?;
        assert_eq!(rt; text.as_str(), words);
    }
    let text = format!(in rt.alloc(); "{}", WriteFault)?;
    assert_eq!(rt; text.as_str(), "write fault");
    Ok(())
}

// A gate as threads share it.
fn pass<G: Gate + Sync>(gate: &G) {
    for point in [
        Point::Before(0),
        Point::Pinned(0),
        Point::Chunk(0),
        Point::After(0),
    ] {
        gate.reached(1, point);
    }
}

#[test]
fn no_gate_holds_nobody() {
    pass(&NoGate);
}
