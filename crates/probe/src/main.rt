// Answers framed questions on standard input until it ends, one line each, so that any tool can ask what a run does, or how two
// marks of a report stand to each other.
//
// A frame to run a log is a byte (0: full, 1: short), the lengths of counts, words and mail in elements (two bytes each), of
// the report room and of the log (four bytes each), and the log. The answer is the run's number, place and totals, then the
// digests of the report, counts, words and mail rooms, which were filled with 0xA5 bytes before.
//
// A frame to compare two marks is the byte 2, node and number of each mark (one byte and two), the length of the report (four
// bytes), and the report. The answer is before, after or apart, or 01's number and place. Numbers are low byte first.
#![tactic(auto)]

mod digest;
mod frame;
mod rooms;

ghost use Rattle.std.specs.Prelude.{ℕ, ◌≤◌, length, take, IfOk, OnErr};
ghost use Rattle.std.specs.Io.KnownBytes.{Consumes};
ghost use Rattle.input.specs.Filled.{Filled};

use comparing::{Incomparable, Standing};
use frame::{Compare, Run};
use report::Answer;
use room::Mode;
use rooms::Rooms;
use std::io;
use std::io::Read;

// Why no more questions are answered.
#[derive(Drop)]
enum Stop {
    // The input has ended.
    Ended,
    // A frame is too large, unknown or cut short.
    BadFrame,
    // A read or a write has failed.
    Failed(io::Error),
}

// A failed read or write ends the answers.
impl From<io::Error> for Stop {
    fn from(error: io::Error) -> Stop {
        Stop::Failed(error)
    }
}

// Reads into a buffer until it is full or the input ends, and answers how many bytes it put at the front. Of what stands behind
// them in the buffer nothing is said, since a reader may write there too. Where a read fails, no byte is lost: the front of the
// buffer has what was read before.
// kept: here and in hatsuvren. `input::read_full` is the same for other programs, and is not called here: it is the one public function
// of which no contract fixes the result, and no program of ours stands on it (docs/PROMISES.md, E). The buffer is lent and may be
// longer, so how much of it was read is told beside it.
fn read_full<R: Read>(input: &mut R, buffer: &mut [u8]) -> io::Result<usize>
    ensures filled { IfOk result (λ size. Filled (R.remaining input.old) (R.remaining input.new) buffer.new size) }
    ensures none_lost { OnErr result ((size : ℕ) × (size ≤ length buffer.new)
        × Consumes (R.remaining input.old) (R.remaining input.new) (take size buffer.new)) }
{
    let mut done = 0;
    // kept: a turn goes on by as many bytes as were read, so there is no index that counts up
    while done < buffer.len() {
        let size = input.read(&mut buffer[done..])?;
        if size == 0 {
            break;
        }
        done += size;
    }
    Ok(done)
}

// Reads a part of a frame; the frame is bad where the input ends before.
fn read_part(input: &mut impl Read, part: &mut [u8]) -> Result<(), Stop> {
    if read_full(input, part)? < part.len() {
        return Err(Stop::BadFrame);
    }
    Ok(())
}

// Reads a header of so many bytes.
fn read_header<const N: usize>(input: &mut impl Read) -> Result<[u8; N], Stop> {
    let mut header = [0u8; N];
    read_part(input, &mut header)?;
    Ok(header)
}

// Writes the line of a run: its number, place and totals, and the digests of its rooms.
// kept: vectors prints number, place and totals too; a Display of `Answer` would put printing into crates/report, where nothing prints.
fn print_run(rt: &impl Print, answer: Answer, rooms: &Rooms) -> io::Result<()> {
    let (number, place, totals) = (answer.number(), answer.place(), answer.totals());
    println!(rt;
        "{number} {place} {} {} {} {} {} {rooms}",
        totals.events, totals.marks, totals.sends, totals.carried, totals.bytes
    )
}

// Answers a question to run, in rooms of the most that one may ask for.
fn answer_run(rt: &impl Print, input: &mut impl Read, mode: Mode) -> Result<(), Stop> {
    let asked = Run::read(&read_header(input)?).ok_or(Stop::BadFrame)?;
    let mut log = [0u8; 24576];
    let log = &mut log[..asked.log];
    read_part(input, log)?;
    let mut counts = [0u16; 2048];
    let mut words = [0u32; 2048];
    let mut mail = [0u16; 8192];
    let mut report = [0u8; 131072];
    let mut rooms = Rooms {
        counts: &mut counts[..asked.counts],
        words: &mut words[..asked.words],
        mail: &mut mail[..asked.mail],
        report: &mut report[..asked.report],
    };
    rooms.fill();
    let answer = rooms.run(mode, log);
    print_run(rt, answer, &rooms)?;
    Ok(())
}

// Writes how two marks stand to each other, or 01's number and place.
fn print_compared(rt: &impl Print, compared: Result<Standing, Incomparable>) -> io::Result<()> {
    match compared {
        Ok(Standing::Before) => rt.println("before"),
        Ok(Standing::After) => rt.println("after"),
        Ok(Standing::Apart) => rt.println("apart"),
        Err(refused) => println!(rt; "{} {}", refused.number(), refused.place()),
    }
}

// Answers a question to compare, with room for the longest report that one may bring.
fn answer_compare(rt: &impl Print, input: &mut impl Read) -> Result<(), Stop> {
    let asked = Compare::read(&read_header(input)?).ok_or(Stop::BadFrame)?;
    let mut report = [0u8; 40960];
    let report = &mut report[..asked.report];
    read_part(input, report)?;
    print_compared(rt, comparing::compare(report, asked.first, asked.second))?;
    Ok(())
}

// Reads and answers the next question.
fn answer_next(rt: &impl Print, input: &mut impl Read) -> Result<(), Stop> {
    let mut kind = [0u8; 1];
    if read_full(input, &mut kind)? == 0 {
        return Err(Stop::Ended);
    }
    // kept: numbers, as the first byte of a frame has them
    match kind[0] {
        0 => answer_run(rt, input, Mode::Full),
        1 => answer_run(rt, input, Mode::Short),
        2 => answer_compare(rt, input),
        _ => Err(Stop::BadFrame),
    }
}

// A proved loop has to end, and nothing says that the input does, so the turns are counted, up to a number that no run
// uses up.
fn main(rt: HostRuntime) -> io::Result<()> {
    let mut input = rt.reader();
    for _ in 0..u64::MAX {
        match answer_next(&rt, &mut input) {
            Ok(()) => {}
            Err(Stop::Ended) => break,
            Err(Stop::BadFrame) => return println!(rt; "bad frame"),
            Err(Stop::Failed(error)) => return Err(error),
        }
    }
    Ok(())
}
