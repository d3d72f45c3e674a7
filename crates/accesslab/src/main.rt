//! Reads events from standard input, one per line, and writes their outcomes to standard output.
#![tactic(auto)]

ghost use Rattle.std.specs.Prelude.{◌≡◌, ◌≤◌, ◌⊎◌, ℕ, List, Some, length, IfSome, IsNone};
ghost use Rattle.std.specs.Io.Buffered.{writer_contents};
ghost use Rattle.std.specs.Io.KnownBytes.{Appends, Keeps};
ghost use Rattle.accesslab.specs.Status.{IsExitStatus};
ghost use Rattle.lab_engine.specs.Lab.{lab_output};

mod words;

use crate::words::LabWords;
use command_line::{FAILED, StandardStreams, UNOPENED, complain, given_words, read_plans};
use config::Plans;
use lab_engine::{BAD_LINE, BadLine, StdReader, StdWriter};
use std::alloc::Global;
use std::io::{self, BufWriter, Read, Write};
use std::process::ExitCode;

/// The writer inside, once it has all that was written. None where it fails.
fn flushed<W: Write + Drop>(writer: BufWriter<W>) -> Option<W>
    ensures { IfSome result (λ inner. Keeps (writer_contents W.contents writer) (W.contents inner)) }
{
    let mut inner = writer.into_inner().ok()?;
    inner.flush().ok()?;
    Some(inner)
}

/// Runs over a reader and a writer as the words say. Returns the status and the writer, which has the whole output,
/// or none where memory ran out or one of the two failed; `bad` has the bad line that has ended it.
fn run_over<R: Read + Drop, W: Write + Drop>(
    alloc: Global,
    plans: &Plans,
    values: &LabWords<'_>,
    reader: R,
    writer: W,
    bad: &mut BadLine,
) -> (u8, Option<W>)
    requires least { 1 ≤ values.now.quota }
    requires most { values.now.quota ≤ 256 }
    ensures written { (text : List ℕ) → R.remaining reader ≡ Some text
        → IfSome result.1 (λ done.
        Appends (W.contents writer) (W.contents done) (lab_output plans.now values.now.quota text).text) }
    ensures exact { (text : List ℕ) → R.remaining reader ≡ Some text
        → IfSome result.1 (λ _. result.0 ≡ (lab_output plans.now values.now.quota text).status) }
    ensures none { IsNone result.1 → (result.0 ≡ 4) ⊎ (result.0 ≡ 6) }
    ensures status { IsExitStatus result.0 }
{
    let Ok(writer) = BufWriter::new(alloc, writer) else {
        return (UNOPENED, None);
    };
    let mut reader = StdReader::new(reader);
    let mut writer = StdWriter::new(writer);
    let status = lab_engine::run_explained(
        alloc,
        plans,
        values.quota,
        &mut reader,
        &mut writer,
        bad,
    );
    if status == UNOPENED || status == FAILED {
        return (status, None);
    }
    match flushed(writer.into_inner()) {
        Some(writer) => (status, Some(writer)),
        None => (FAILED, None),
    }
}

/// Runs over standard input and output, and returns the status.
fn run(rt: &HostRuntime, values: LabWords<'_>) -> u8
    requires least { 1 ≤ values.quota }
    requires most { values.quota ≤ 256 }
    requires some { 1 ≤ length values.configs.items }
    requires few { length values.configs.items ≤ 8 }
    ensures { IsExitStatus result }
{
    let plans = match read_plans(rt, &values.configs) {
        Ok(plans) => plans,
        Err(status) => return status,
    };
    let mut bad = BadLine::new();
    let (reader, writer) = (rt.reader(), io::writer(rt));
    let (status, _) = run_over(rt.alloc(), &plans, &values, reader, writer, &mut bad);
    if status == BAD_LINE {
        let (number, why) = (bad.number(), bad.why(&plans));
        let _ = eprintln!(rt; "line {number}: {why}");
    }
    if status == UNOPENED {
        return complain(rt, "open memory", UNOPENED);
    }
    status
}

fn status(rt: &HostRuntime) -> u8
    ensures { IsExitStatus result }
{
    let _streams = match StandardStreams::open(rt) {
        Ok(streams) => streams,
        Err(status) => return status,
    };
    let given = match given_words(rt) {
        Ok(given) => given,
        Err(status) => return status,
    };
    match words::words(rt.alloc(), &given) {
        Ok(values) => run(rt, values),
        Err(refusal) => refusal.show(rt),
    }
}

fn main(rt: HostRuntime) -> ExitCode {
    ExitCode::from(status(&rt))
}
