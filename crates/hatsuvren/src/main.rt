// The program: runs logs with short messages and prints each mark with its stamp and its direct predecessors. It reads the files
// that its arguments name, one after the other, or standard input where there is none. Names are UTF-8.
#![tactic(auto)]

ghost use Rattle.std.specs.Prelude.{ℕ, ◌≤◌, length, take, IfOk, OnErr};
ghost use Rattle.std.specs.Io.KnownBytes.{Consumes};
ghost use Rattle.input.specs.Filled.{Filled};

use passes::Tally;
use report::Answer;
use room::Mode;
use std::fs::File;
use std::io::Read;
use std::rt::Files;
use std::{env, io};

// Prints the line of the mark at a place of the report, if a group stands there. The place past the group comes back.
fn print_mark(
    rt: &impl Print,
    report: &[u8],
    at: usize,
    nodes: usize,
) -> io::Result<Option<usize>> {
    let mut line = [0u8; 4096];
    let Ok(Some(laid)) = text::mark_line(report, at, nodes, &mut line) else {
        return Ok(None);
    };
    rt.write_all(&line[..laid.size.min(line.len())])?;
    Ok(Some(laid.past))
}

// Prints the lines of a report. A group has some bytes, so as many turns as the report has bytes are enough.
fn print_marks(rt: &impl Print, report: &[u8], nodes: usize) -> io::Result<()> {
    let mut at = 0;
    for _ in 0..report.len() {
        let Some(past) = print_mark(rt, report, at, nodes)? else {
            break;
        };
        at = past;
    }
    Ok(())
}

// Prints the last line of an accepted log.
fn print_totals(rt: &impl Print, tally: Tally) -> io::Result<()> {
    let mut line = [0u8; 4096];
    let size = closing::totals(
        tally.events,
        tally.marks,
        tally.sends,
        tally.carried,
        &mut line,
    );
    rt.write_all(&line[..size])
}

// Prints a refusal.
// kept: a number and no `Reason`, since 1 and 13 are printed too.
fn print_refusal(rt: &impl Print, number: u8, place: usize) -> io::Result<()> {
    let mut line = [0u8; 4096];
    let size = closing::refusal(number, place, &mut line);
    rt.write_all(&line[..size])
}

// Runs a log and prints what the report says, or the refusal.
fn print_log(rt: &impl Print, log: &[u8]) -> io::Result<()> {
    let mut counts = [0u16; 1024];
    let mut words = [0u32; 1056];
    let mut mail = [0u16; 4480];
    let mut report = [0u8; 16384];
    let answer = report::run(
        Mode::Short,
        log,
        &mut counts,
        &mut words,
        &mut mail,
        &mut report,
    );
    if let (Answer::Accepted(_, tally), Ok((nodes, _))) = (answer, logs::open(log)) {
        print_marks(rt, &report[..tally.bytes.min(16384)], nodes as usize)?;
        return print_totals(rt, tally);
    }
    print_refusal(rt, answer.number(), answer.place())
}

// Reads into a buffer until it is full or the input ends, and answers how many bytes it put at the front. Of what stands behind
// them in the buffer nothing is said, since a reader may write there too. Where a read fails, no byte is lost: the front of the
// buffer has what was read before.
// kept: here and in the probe. `input::read_full` is the same for other programs, and is not called here: it is the one public function
// of which no contract fixes the result, and no program of ours stands on it (docs/PROMISES.md, E). The buffer is lent and may be
// longer, so how much of it was read is told beside it.
fn read_full<R: Read>(input: &mut R, buffer: &mut [u8]) -> io::Result<usize>
    ensures filled { IfOk result (λ size. Filled (R.remaining input.old) (R.remaining input.new) buffer.new size) }
    ensures none_lost { OnErr result ((size : ℕ) × (size ≤ length buffer.new)
        × Consumes (R.remaining input.old) (R.remaining input.new) (take size buffer.new)) }
{
    let mut done = 0;
    // kept: a turn goes on by as many bytes as were read, so there is no index that counts up
    while done < buffer.len() {
        let size = input.read(&mut buffer[done..])?;
        if size == 0 {
            break;
        }
        done += size;
    }
    Ok(done)
}

// Reads a log, one byte more than the longest that can be accepted, and prints what a run makes of it.
fn print_input(rt: &impl Print, input: &mut impl Read) -> io::Result<()> {
    let mut log = [0u8; 20483];
    let size = read_full(input, &mut log)?;
    if size > 20482 {
        let mut line = [0u8; 4096];
        let size = closing::too_long(&mut line);
        return rt.write_all(&line[..size]);
    }
    print_log(rt, &log[..size])
}

// Prints the log of the file of this name, or says why it cannot be opened.
fn print_file(rt: &(impl Print + Eprint + Files), path: &str) -> io::Result<()> {
    match File::open(rt, path) {
        Ok(mut input) => print_input(rt, &mut input),
        Err(error) => eprintln!(rt; "{path}: {error}"),
    }
}

// Prints the log of each file, or of standard input.
fn main(rt: HostRuntime) -> io::Result<()> {
    let mut arguments = env::args(&rt)?;
    // the first is the program's own name
    arguments.next();
    if arguments.len() == 0 {
        return print_input(&rt, &mut rt.reader());
    }
    for path in arguments {
        print_file(&rt, path.as_str())?;
    }
    Ok(())
}
