//! Readers and writers that no shell gives: of few bytes at a time, interrupted, or failing on the way.
ghost use Rattle.std.specs.Prelude.{◌<◌};

use command_line::FAILED;
use config::Plans;
use fixtures::ONE_CIRCUIT;
use lab_engine::*;
use std::alloc::{AllocError, Global};
use std::io::{self, ErrorKind, Read, Write};

/// How many calls a stream takes before it fails, how often each is interrupted before it, and how often the
/// next one still is.
#[derive(Clone, Copy)]
struct Calls {
    left: usize,
    interrupts: usize,
    due: usize,
}

impl Calls {
    fn take(&mut self) -> io::Result<()> {
        if self.due > 0 {
            self.due -= 1;
            return Err(io::Error::from(ErrorKind::Interrupted));
        }
        self.due = self.interrupts;
        if self.left == 0 {
            return Err(io::Error::from(ErrorKind::WouldBlock));
        }
        self.left -= 1;
        Ok(())
    }
}

/// A reader that gives at most `most` bytes at a time.
#[derive(Drop)]
struct Reader<'a> {
    rest: &'a [u8],
    most: usize,
    calls: Calls,
    ghost some: { 0 < most },
}

impl<'a> Read for Reader<'a> {
    fn read(&mut self, buf: &mut [u8]) -> io::Result<usize> {
        self.calls.take()?;
        let count = self.most.min(buf.len()).min(self.rest.len());
        let (front, rest) = self.rest.split_at(count);
        buf[..count].copy_from_slice(front);
        self.rest = rest;
        Ok(count)
    }
}

/// A writer that takes at most `most` bytes at a time.
#[derive(Drop)]
struct Writer {
    taken: Vec<u8>,
    most: usize,
    calls: Calls,
}

impl Write for Writer {
    fn write(&mut self, buf: &[u8]) -> io::Result<usize> {
        self.calls.take()?;
        self.taken.write(&buf[..buf.len().min(self.most)])
    }

    fn flush(&mut self) -> io::Result<()> {
        self.calls.take()
    }
}

/// A run: how many bytes a read gives and how many reads there are before one fails, the same for writes, how often
/// each call is interrupted before it, the status that it ends with and the lines that it writes.
#[derive(Clone, Copy)]
struct Row {
    reads: (usize, usize),
    writes: (usize, usize),
    interrupts: usize,
    status: u8,
    lines: &'static str,
}

fn so_many(left: usize, interrupts: usize) -> Calls {
    Calls {
        left,
        interrupts,
        due: interrupts,
    }
}

/// Whether a run over a text writes the lines and ends with the status of a row.
fn gives(alloc: Global, text: &str, row: Row) -> bool {
    let Ok(plans) = Plans::read(alloc, &[ONE_CIRCUIT]) else {
        return false;
    };
    let mut reader = StdReader::new(Reader {
        rest: text.as_bytes(),
        most: row.reads.0.max(1),
        calls: so_many(row.reads.1, row.interrupts),
    });
    let mut writer = StdWriter::new(Writer {
        taken: Vec::new(alloc),
        most: row.writes.0,
        calls: so_many(row.writes.1, row.interrupts),
    });
    let ended = run(alloc, &plans, 16, &mut reader, &mut writer);
    ended == row.status && writer.into_inner().taken.as_slice() == row.lines.as_bytes()
}

/// Whether the runs over a text do so, row by row.
fn all_give(alloc: Global, text: &str, rows: &[Row]) -> bool {
    for row in rows {
        if !gives(alloc, text, *row) {
            return false;
        }
    }
    true
}

/// The text is 17 bytes long, and a read after them finds its end. Nothing is written before the first
/// event; then each line is, and the writer is flushed before a read.
#[rattlefmt::skip]
const FAILING: [Row; 17] = [
    Row { reads: (1, 0),   writes: (100, 0), interrupts: 0, status: FAILED, lines: "" },
    Row { reads: (1, 9),   writes: (100, 0), interrupts: 0, status: FAILED, lines: "" },
    Row { reads: (1, 16),  writes: (100, 0), interrupts: 0, status: FAILED, lines: "" },
    Row { reads: (1, 17),  writes: (100, 0), interrupts: 0, status: FAILED, lines: "" },
    Row { reads: (1, 17),  writes: (100, 1), interrupts: 0, status: FAILED, lines: "ok\n" },
    Row { reads: (1, 17),  writes: (100, 2), interrupts: 0, status: FAILED, lines: "ok\n" },
    Row { reads: (1, 18),  writes: (100, 2), interrupts: 0, status: DONE,   lines: "ok\n" },
    Row { reads: (100, 0), writes: (100, 2), interrupts: 0, status: FAILED, lines: "" },
    Row { reads: (100, 1), writes: (100, 2), interrupts: 0, status: FAILED, lines: "ok\n" },
    Row { reads: (100, 2), writes: (100, 0), interrupts: 0, status: FAILED, lines: "" },
    Row { reads: (100, 2), writes: (100, 1), interrupts: 0, status: FAILED, lines: "ok\n" },
    Row { reads: (100, 2), writes: (100, 2), interrupts: 0, status: DONE,   lines: "ok\n" },
    // a writer that takes one byte at a time, or none
    Row { reads: (100, 2), writes: (1, 1),   interrupts: 0, status: FAILED, lines: "o" },
    Row { reads: (100, 2), writes: (1, 2),   interrupts: 0, status: FAILED, lines: "ok" },
    Row { reads: (100, 2), writes: (1, 3),   interrupts: 0, status: FAILED, lines: "ok\n" },
    Row { reads: (100, 2), writes: (1, 4),   interrupts: 0, status: DONE,   lines: "ok\n" },
    Row { reads: (100, 2), writes: (0, 100), interrupts: 0, status: FAILED, lines: "" },
];

#[test]
fn streams_that_fail(rt: HostRuntime) {
    assert!(rt; all_give(rt.alloc(), "fill a 5a\ntick 1\n", &FAILING));
}

const PIECES: &str =
    "# c\nfill a 5a\ntick 1\n\nframe a 4 00\nup a 0 100 0\ndown a 0\ntick 2\ntick 03\n";

const ANSWERED: &str = "ok\ndrop 2\ngone\ngone\nok\nline 9 bad\n";

/// Neither pieces of any size nor interruptions make a difference.
#[rattlefmt::skip]
const IN_PIECES: [Row; 5] = [
    Row { reads: (1, 1000),    writes: (1, 1000),    interrupts: 0,       status: BAD_LINE, lines: ANSWERED },
    Row { reads: (2, 1000),    writes: (2, 1000),    interrupts: 0,       status: BAD_LINE, lines: ANSWERED },
    Row { reads: (7, 1000),    writes: (7, 1000),    interrupts: 1,       status: BAD_LINE, lines: ANSWERED },
    Row { reads: (8192, 1000), writes: (8192, 1000), interrupts: 1,       status: BAD_LINE, lines: ANSWERED },
    Row { reads: (8192, 1000), writes: (8192, 1000), interrupts: 100_000, status: BAD_LINE, lines: ANSWERED },
];

#[test]
fn pieces_and_interruptions(rt: HostRuntime) {
    assert!(rt; all_give(rt.alloc(), PIECES, &IN_PIECES));
}

/// A comment of 8192 bytes, the longest line that is none too many, or of one more; and a tick.
fn long_line(alloc: Global, length: usize) -> Result<String, AllocError> {
    let mut text = String::new(alloc);
    text.push_str("#")?;
    for _ in 1..length {
        text.push_str("x")?;
    }
    text.push_str("\ntick 1\n")?;
    Ok(text)
}

/// Whether a run over a long line that comes byte by byte, each after interruptions, some 100,000 in all, does so.
fn a_long_line_gives(alloc: Global, length: usize, status: u8, lines: &'static str) -> bool {
    let row = Row {
        reads: (1, 10_000),
        writes: (1, 100),
        interrupts: 12,
        status,
        lines,
    };
    match long_line(alloc, length) {
        Ok(text) => gives(alloc, text.as_str(), row),
        Err(_) => false,
    }
}

#[test]
fn a_long_line_in_pieces(rt: HostRuntime) {
    assert!(rt; a_long_line_gives(rt.alloc(), 8192, DONE, "ok\n"));
    assert!(rt; a_long_line_gives(rt.alloc(), 8193, BAD_LINE, "line 1 bad\n"));
}
