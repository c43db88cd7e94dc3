ghost use Rattle.std.specs.Prelude.{◌≡◌, IfOk, IfSome};

use mama_edge::{
    Clock, Gate, GateActor, MemoryClock, MemorySink, MemorySource, OpenGate, OutOfMemory, ReadAll,
    RealClock, StdSink, StdSource, WriteFault, print_i64, print_quoted, print_u64, read_all,
    read_i64, read_quoted, read_u64, write_all_counted,
};
use std::alloc::{AllocError, Global};
use std::io;
use std::io::{ErrorKind, Read, Write};
use std::test::Fail;

// So many bytes, no two neighbours alike.
fn some_bytes(alloc: Global, count: usize) -> Result<Vec<u8>, AllocError> {
    let mut bytes = Vec::new(alloc);
    for i in 0..count {
        bytes.push((i % 251) as u8)?;
    }
    Ok(bytes)
}

// A sink of this room that takes pieces of 100 bytes, and fails at the calls of these numbers.
fn sink_of(alloc: Global, room: usize, failing: &[u64]) -> Result<MemorySink, Fail> {
    Ok(MemorySink::new(alloc, room, 100, Vec::from_slice(alloc, failing)?)?)
}

// Writes a text; no clause is told.
fn write_to(sink: &mut MemorySink, text: &[u8]) -> Result<(), WriteFault> {
    write_all_counted(sink, text)
}

// Whether a sink takes a text, or so many bytes of it before the fault.
fn takes(sink: &mut MemorySink, text: &[u8], fault: Option<u64>) -> bool {
    let (wanted, front) = match fault {
        Some(written) => (Err(WriteFault { written }), text.get(..written as usize)),
        None => (Ok(()), Some(text)),
    };
    write_to(sink, text) == wanted && Some(sink.written()) == front
}

#[test]
fn writes_up_to_a_fault(rt: HostRuntime) -> Result<(), Fail> {
    let alloc = rt.alloc();
    let text = some_bytes(alloc, 400)?;
    // the room, the failing calls, and how many bytes are written before the fault, if there is one
    let cases = [
        (1000, [2].as_slice(), Some(100)),
        (150, [].as_slice(), Some(150)),
        (400, [].as_slice(), None),
        (399, [].as_slice(), Some(399)),
        (400, [5].as_slice(), None),
        (400, [4, 1].as_slice(), Some(0)),
        (400, [4].as_slice(), Some(300)),
    ];
    for (room, failing, fault) in cases {
        let mut sink = sink_of(alloc, room, failing)?;
        assert!(rt; takes(&mut sink, &text, fault), "room {room}");
    }
    assert!(rt; is_copied(alloc, &text)?);
    assert!(rt; written(alloc, &text)?.is_none());
    assert!(rt; written(alloc, b"mama")?.is_some());
    let mut full = MemorySink::new(alloc, 0, 1, Vec::new(alloc))?;
    assert_eq!(rt; write_to(&mut full, b""), Ok(()));
    assert_eq!(rt; write_to(&mut full, b"a"), Err(WriteFault { written: 0 }));
    Ok(())
}

#[test]
fn reads_to_the_end_or_to_a_fault(rt: HostRuntime) -> Result<(), Fail> {
    let alloc = rt.alloc();
    let text = some_bytes(alloc, 10_000)?;
    // the piece, the failing calls, the limit, the error if there is one, and how many bytes are left
    let cases = [
        (1, [].as_slice(), 10_000, None, 0),
        (10_000, [].as_slice(), 10_000, None, 0),
        (7, [].as_slice(), 67_108_864, None, 0),
        // there is never so much memory, and nothing was read
        (
            7,
            [].as_slice(),
            usize::MAX,
            Some(ReadAll::OutOfMemory),
            10_000,
        ),
        (100, [].as_slice(), 9_999, Some(ReadAll::TooLong), 0),
        (100, [].as_slice(), 0, Some(ReadAll::TooLong), 9_999),
        (100, [].as_slice(), 250, Some(ReadAll::TooLong), 9_749),
        (
            100,
            [1].as_slice(),
            10_000,
            Some(ReadAll::ReadFault),
            10_000,
        ),
        (100, [3].as_slice(), 10_000, Some(ReadAll::ReadFault), 9_800),
        (100, [101].as_slice(), 10_000, Some(ReadAll::ReadFault), 0),
        (100, [102].as_slice(), 10_000, None, 0),
    ];
    for (piece, failing, limit, error, left) in cases {
        let bytes = Vec::from_slice(alloc, &text)?;
        let failing = Vec::from_slice(alloc, failing)?;
        let mut source = MemorySource::new(bytes, piece, failing);
        match read_all(alloc, &mut source, limit) {
            Ok(read) => {
                assert_eq!(rt; None, error, "piece {piece}, limit {limit}");
                assert_eq!(rt; read.as_slice(), text.as_slice());
            }
            Err(answer) => assert_eq!(rt; Some(answer), error, "piece {piece}, limit {limit}"),
        }
        assert_eq!(rt; source.left().len(), left, "piece {piece}, limit {limit}");
    }
    Ok(())
}

#[test]
fn gives_moments_in_turn(rt: HostRuntime) -> Result<(), Fail> {
    let alloc = rt.alloc();
    let mut clock = MemoryClock::new(Vec::from_slice(alloc, &[5, 3, 8])?);
    for moment in [5, 3, 8, 8, 8] {
        assert_eq!(rt; clock.now(), moment);
    }
    let mut stopped = MemoryClock::new(Vec::new(alloc));
    assert_eq!(rt; (stopped.now(), stopped.now()), (0, 0));
    let mut real = RealClock::new(&rt);
    assert!(rt; real.now() > 1_500_000_000_000);
    OpenGate.turn(GateActor::Queue(1));
    Ok(())
}

// A copy, by way of a source over memory.
fn copied(alloc: Global, bytes: Vec<u8>) -> Result<Vec<u8>, ReadAll>
    ensures { IfOk result (λ copy. copy.items ≡ bytes.items) }
{
    let limit = bytes.len();
    let mut source = MemorySource::new(bytes, 1, Vec::new(alloc));
    read_all(alloc, &mut source, limit)
}

// Whether a copy by way of a source has the same bytes.
fn is_copied(alloc: Global, text: &[u8]) -> Result<bool, Fail> {
    Ok(copied(alloc, Vec::from_slice(alloc, text)?)?.as_slice() == text)
}

// A sink over memory with the text, if that has 100 bytes at most.
fn written(alloc: Global, text: &[u8]) -> Result<Option<MemorySink>, OutOfMemory>
    ensures { IfOk result (λ answer. IfSome answer (λ sink. sink.written ≡ text.now)) }
{
    let mut sink = MemorySink::new(alloc, 100, 10, Vec::new(alloc))?;
    match write_all_counted(&mut sink, text) {
        Ok(()) => Ok(Some(sink)),
        Err(_) => Ok(None),
    }
}

// A reader that gives, and a writer that takes, a byte a call, and fails at the call with this number. The writer takes
// nothing at its fourth call.
#[derive(Drop)]
struct Shaky {
    calls: u32,
    failing: u32,
}

impl Shaky {
    fn new(failing: u32) -> Shaky {
        Shaky { calls: 0, failing }
    }

    fn call(&mut self) -> io::Result<()> {
        self.calls = self.calls.saturating_add(1);
        if self.calls == self.failing {
            return Err(io::Error::from(ErrorKind::BrokenPipe));
        }
        Ok(())
    }
}

impl Read for Shaky {
    fn read(&mut self, buf: &mut [u8]) -> io::Result<usize> {
        self.call()?;
        if buf.is_empty() {
            return Ok(0);
        }
        buf[0] = b'z';
        Ok(1)
    }
}

impl Write for Shaky {
    fn write(&mut self, buf: &[u8]) -> io::Result<usize> {
        self.call()?;
        if buf.is_empty() || self.calls == 4 {
            return Ok(0);
        }
        Ok(1)
    }

    fn flush(&mut self) -> io::Result<()> {
        Ok(())
    }
}

// The bytes that come of a text by way of a reader.
fn read_by(alloc: Global, text: &[u8]) -> Result<Vec<u8>, ReadAll> {
    let mut source = StdSource::new(text);
    read_all(alloc, &mut source, text.len())
}

// The bytes that come of a text by way of a writer.
fn written_by(alloc: Global, text: &[u8]) -> Result<Vec<u8>, WriteFault> {
    let mut out = Vec::new(alloc);
    let mut sink = StdSink::new(&mut out);
    write_all_counted(&mut sink, text)?;
    Ok(out)
}

// Why at most five bytes of a reader that fails at this call are not all.
fn read_fault(alloc: Global, failing: u32) -> Option<ReadAll> {
    let mut source = StdSource::new(Shaky::new(failing));
    read_all(alloc, &mut source, 5).err()
}

fn write_fault(text: &[u8], failing: u32) -> Result<(), WriteFault> {
    let mut sink = StdSink::new(Shaky::new(failing));
    write_all_counted(&mut sink, text)
}

#[test]
fn adapts_readers_and_writers(rt: HostRuntime) -> Result<(), Fail> {
    let text: &[u8] = b"mama script 1\n";
    assert_eq!(rt; read_by(rt.alloc(), text)?.as_slice(), text);
    assert_eq!(rt; written_by(rt.alloc(), text)?.as_slice(), text);
    for (failing, error) in [
        (0, ReadAll::TooLong),
        (7, ReadAll::TooLong),
        (6, ReadAll::ReadFault),
        (1, ReadAll::ReadFault),
    ] {
        assert_eq!(rt; read_fault(rt.alloc(), failing), Some(error), "{failing}");
    }
    for (failing, written) in [(0, 3), (4, 3), (3, 2), (1, 0)] {
        assert_eq!(rt;
            write_fault(text, failing),
            Err(WriteFault { written }),
            "{failing}"
        );
    }
    Ok(())
}

// Whether a word is read as an unsigned number and as a signed one, each of which is printed so.
const NUMBERS: &str = "yy 0
yy 7
yy 10
yy 9007199254740993
yy 9223372036854775807
yn 9223372036854775808
yn 18446744073709551615
nn 18446744073709551616
nn 18446744073709551620
nn 100000000000000000000
ny -1
ny -10
ny -9223372036854775808
nn -9223372036854775809
nn 00
nn 01
nn -01
nn +1
nn -0
nn -
nn --1
nn 1-
nn  1
nn 1 
nn 1a
nn :
nn ";

// Whether a word is printed as it was read, or not read.
fn unsigned(alloc: Global, word: &[u8]) -> Result<char, Fail> {
    let Some(number) = read_u64(word) else {
        return Ok('n');
    };
    let mut out = Vec::from_slice(alloc, b"n")?;
    print_u64(number, &mut out)?;
    Ok(if out.split_first() == Some((&b'n', word)) {
        'y'
    } else {
        '?'
    })
}

fn signed(alloc: Global, word: &[u8]) -> Result<char, Fail> {
    let Some(number) = read_i64(word) else {
        return Ok('n');
    };
    let mut out = Vec::from_slice(alloc, b"n")?;
    print_i64(number, &mut out)?;
    Ok(if out.split_first() == Some((&b'n', word)) {
        'y'
    } else {
        '?'
    })
}

#[test]
fn numbers_are_printed_as_they_were_read(rt: HostRuntime) -> Result<(), Fail> {
    for row in NUMBERS.lines() {
        let (want, word) = row.split_once(' ').unwrap_or((row, ""));
        let mut found = String::new(rt.alloc());
        found.push(unsigned(rt.alloc(), word.as_bytes())?)?;
        found.push(signed(rt.alloc(), word.as_bytes())?)?;
        assert_eq!(rt; found.as_str(), want, "{row}");
    }
    assert_eq!(rt; read_i64(b"-9223372036854775808"), Some(i64::MIN));
    assert_eq!(rt; read_u64(b"18446744073709551615"), Some(u64::MAX));
    Ok(())
}

// A quoted text, and what it stands for, if it is one.
const QUOTED: &str = r#""" = 
"EQ.ABC" = EQ.ABC
" ~" =  ~
"a\"b" = a"b
"\\" = \
"\\\"" = \"
"a\n"
"\"
"a
"

a"b"
"a" 
"a"b""#;

fn is_quoted(alloc: Global, row: &str) -> Result<bool, Fail> {
    match row.split_once(" = ") {
        None => Ok(read_quoted(alloc, row.as_bytes())?.is_none()),
        Some((spelling, text)) => {
            let read = read_quoted(alloc, spelling.as_bytes())?.ok_or("a text")?;
            let mut out = Vec::new(alloc);
            print_quoted(&read, &mut out)?;
            Ok(read.as_slice() == text.as_bytes() && out.as_slice() == spelling.as_bytes())
        }
    }
}

#[test]
fn quoted_texts_are_read_and_printed(rt: HostRuntime) -> Result<(), Fail> {
    for row in QUOTED.lines() {
        assert!(rt; is_quoted(rt.alloc(), row)?, "{row}");
    }
    for text in [&b"\"\x1f\""[..], b"\"\x7f\"", b"\"\xc3\xa9\"", b"\"a\nb\""] {
        assert!(rt; read_quoted(rt.alloc(), text)?.is_none());
    }
    let mut out = Vec::from_slice(rt.alloc(), b"topic ")?;
    print_quoted(br#"a\"b "#, &mut out)?;
    assert_eq!(rt; out.as_slice(), br#"topic "a\\\"b ""#.as_slice());
    Ok(())
}
