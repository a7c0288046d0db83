// The run: from a log's bytes to the report, with full or short messages.
#![tactic(auto)]

ghost use Rattle.std.specs.Prelude.{◌≡◌, Ok};
ghost use Rattle.logs.specs.Record.{number_of as reason_number};
ghost use Rattle.room.specs.Work.{Same};
ghost use Rattle.passes.specs.Report.{bytes_alone};
ghost use Rattle.report.specs.declared.Answer.TheVariants.{Refused};
ghost use Rattle.report.specs.Run.{number_of, place_of, totals_of, Ran};
ghost use Rattle.report.specs.Settling.{Looked, Zero, Settles};

use logs::Refusal;
use passes::{Course, Tally};
use room::{Mode, WorkRoom};

// The answer of a run.
// kept: an enum of its own and not a Result, since number, place and totals are promised of all four; and a number in `Refused` and no
// `Reason`, since `answer_of` makes an answer of any number that a verdict may have.
#[derive(Clone, Copy)]
pub enum Answer {
    // 0: accepted, with the log's length and the totals.
    Accepted(usize, Tally),
    // 1: a slice of the work room is too small.
    SmallRooms,
    // 2 to 12: refused with this number at this place.
    Refused(u8, usize),
    // 13: the report room is too small; the log's length, and the bytes that are needed.
    SmallReport(usize, usize),
}

impl Answer {
    // Its number in 01's table.
    pub fn number(self) -> u8
        ensures { result ≡ number_of self }
    {
        match self {
            Answer::Accepted(_, _) => 0,
            Answer::SmallRooms => 1,
            Answer::Refused(number, _) => number,
            Answer::SmallReport(_, _) => 13,
        }
    }

    // Its place in the log.
    pub fn place(self) -> usize
        ensures { result ≡ place_of self }
    {
        match self {
            Answer::Accepted(end, _) => end,
            Answer::SmallRooms => 0,
            Answer::Refused(_, place) => place,
            Answer::SmallReport(end, _) => end,
        }
    }

    // The totals: all zero on a refusal, but for the bytes that the report needs where its room is too small.
    pub fn totals(self) -> Tally
        ensures { result ≡ totals_of self }
    {
        match self {
            Answer::Accepted(_, tally) => tally,
            Answer::SmallRooms => bytes_alone(0),
            Answer::Refused(_, _) => bytes_alone(0),
            Answer::SmallReport(_, bytes) => bytes_alone(bytes),
        }
    }
}

// A refused log is answered with the number of the reason, at its place.
impl From<Refusal> for Answer {
    ghost from_gives = { λ refusal answer. answer ≡ Refused (reason_number refusal.reason) refusal.place };

    fn from(refusal: Refusal) -> Answer {
        Answer::Refused(refusal.reason.number(), refusal.place)
    }
}

// No totals, but for these bytes.
fn bytes_alone(bytes: usize) -> Tally
    ensures { result ≡ bytes_alone bytes }
{
    Tally {
        bytes,
        ..Tally::default()
    }
}

// Runs a log with full or short messages. The report goes to the front of its room only if the whole log is accepted and the
// report fits. What the work room held before does not matter, and nothing behind its fixed sizes is touched.
// kept: three slices and no WorkRoom, since slices of any size may be lent.
pub fn run(
    mode: Mode,
    log: &[u8],
    counts: &mut [u16],
    words: &mut [u32],
    mail: &mut [u16],
    report: &mut [u8],
) -> Answer
    ensures { Ran mode log.now
        counts.old words.old mail.old report.old
        counts.new words.new mail.new report.new result }
{
    if !room::clear(counts, words, mail) {
        return Answer::SmallRooms;
    }
    match logs::open(log) {
        Err(refusal) => Answer::from(refusal),
        Ok((nodes, first)) => settle_in(
            &Course {
                mode,
                log,
                nodes: nodes as usize,
                first,
            },
            &mut counts[..1024],
            &mut words[..1056],
            &mut mail[..4480],
            report,
        ),
    }
}

// kept: course, room and report go through the four functions below as they are, as through those of `passes`. That all is zero is
// asked for at each, since a pass between them changes it, so that no type can say it.

// Lends cleared slices of just the fixed sizes as one work room, and runs the records of a log in it.
fn settle_in(
    course: &Course<'_>,
    counts: &mut [u16],
    words: &mut [u32],
    mail: &mut [u16],
    report: &mut [u8],
) -> Answer
    requires { Zero counts.old words.old mail.old }
    ensures { Settles course.now.mode course.now.log.now report.old
        counts.new words.new mail.new report.new result }
{
    let mut room = WorkRoom {
        counts,
        words,
        mail,
    };
    settle(course, &mut room, report)
}

// Runs the records of a log in a cleared work room: first to see whether all is well and how long the report is, then, where it
// fits, to write it.
fn settle(course: &Course<'_>, room: &mut WorkRoom<'_>, report: &mut [u8]) -> Answer
    requires { Zero room.old.counts.now room.old.words.now room.old.mail.now }
    ensures same { Same room.old room.new }
    ensures settles { Settles course.now.mode course.now.log.now report.old
        room.new.counts.now room.new.words.now room.new.mail.now report.new result }
{
    match look(course, room, report) {
        Err(refused) => Answer::from(refused),
        Ok(tally) => finish(course, tally, room, report),
    }
}

// A pass that is lent no byte of the report room, and leaves the work room as it came, all zero.
fn look(course: &Course<'_>, room: &mut WorkRoom<'_>, report: &mut [u8]) -> Result<Tally, Refusal>
    requires { Zero room.old.counts.now room.old.words.now room.old.mail.now }
    ensures same { Same room.old room.new }
    ensures looked { Looked course.now.mode course.now.log.now course.now.nodes result }
    ensures zero_again { Zero room.new.counts.now room.new.words.now room.new.mail.now }
    ensures report_unchanged { report.new ≡ report.old }
{
    let passed = passes::pass(course, room, &mut report[..0]);
    room::clear(room.counts, room.words, room.mail);
    passed
}

// The end of a run over a log that is accepted, with its totals: the report is written if its room has space for it.
fn finish(course: &Course<'_>, tally: Tally, room: &mut WorkRoom<'_>, report: &mut [u8]) -> Answer
    requires zero { Zero room.old.counts.now room.old.words.now room.old.mail.now }
    requires looked { Looked course.now.mode course.now.log.now course.now.nodes (Ok tally) }
    ensures same { Same room.old room.new }
    ensures settles { Settles course.now.mode course.now.log.now report.old
        room.new.counts.now room.new.words.now room.new.mail.now report.new result }
{
    let end = course.log.len();
    let bytes = tally.bytes;
    if report.len() < bytes {
        return Answer::SmallReport(end, bytes);
    }
    let _ = passes::pass(course, room, report);
    Answer::Accepted(end, tally)
}
