// One trial: rooms filled with a pattern, a run in them, and the line that says what it answered and what it left.
ghost use Rattle.std.specs.Prelude.{◌≤◌};

use crate::left::{Report, State};
use report::Answer;
use room::Mode;
use std::fmt::Display;
use std::{fmt, io};

// How many elements of each room are lent to a run.
#[derive(Clone, Copy)]
pub struct Sizes {
    counts: usize,
    words: usize,
    mail: usize,
    report: usize,
    ghost within: { (counts ≤ 1040) × (words ≤ 1072) × (mail ≤ 4496) × (report ≤ 16400) },
}

impl Sizes {
    // Work rooms with something behind their fixed sizes, and the report room of the program.
    pub const USUAL: Sizes = Sizes {
        counts: 1040,
        words: 1072,
        mail: 4496,
        report: 16384,
    };

    // These sizes.
    pub fn new(counts: usize, words: usize, mail: usize, report: usize) -> Sizes
        requires { (counts ≤ 1040) × (words ≤ 1072) × (mail ≤ 4496) × (report ≤ 16400) }
    {
        Sizes {
            counts,
            words,
            mail,
            report,
        }
    }
}

// The four numbers.
impl Display for Sizes {
    fn fmt<W: fmt::Write>(&self, f: &mut fmt::Formatter<W>) -> fmt::Result {
        write!(
            f,
            "{} {} {} {}",
            self.counts, self.words, self.mail, self.report
        )
    }
}

// Where trials are printed, and the mode of their runs.
#[derive(Clone, Copy)]
pub struct Trials<'a, R: Print> {
    pub rt: &'a R,
    pub mode: Mode,
}

impl<R: Print> Trials<'_, R> {
    // Runs a log in the usual rooms.
    pub fn usual(&self, name: impl Display + Drop, log: &[u8]) -> io::Result<()> {
        self.run(name, log, Sizes::USUAL)
    }

    // Runs a log in rooms of these sizes, and prints the line of the case.
    pub fn run(&self, name: impl Display + Drop, log: &[u8], sizes: Sizes) -> io::Result<()> {
        let mut counts = [0xA5A5u16; 1040];
        let mut words = [0xA5A5A5A5u32; 1072];
        let mut mail = [0xA5A5u16; 4496];
        let mut report = [0xA5u8; 16400];
        let answer = report::run(
            self.mode,
            log,
            &mut counts[..sizes.counts],
            &mut words[..sizes.words],
            &mut mail[..sizes.mail],
            &mut report[..sizes.report],
        );
        print!(self.rt; "{name}, ")?;
        self.print_answer(answer)?;
        self.print_left(&counts, &words, &mail, &report)
    }

    // The mode of a run and its answer: number, place, events, marks, sends, carried entries and report bytes.
    fn print_answer(&self, answer: Answer) -> io::Result<()> {
        let mode = match self.mode {
            Mode::Full => "full",
            Mode::Short => "short",
        };
        let (number, place, totals) = (answer.number(), answer.place(), answer.totals());
        print!(self.rt;
            "{mode}: {number} {place} {} {} {} {} {};",
            totals.events, totals.marks, totals.sends, totals.carried, totals.bytes
        )
    }

    // The end of the line: what the run left in the front of each work room and behind it, and the report.
    fn print_left(
        &self,
        counts: &[u16; 1040],
        words: &[u32; 1072],
        mail: &[u16; 4496],
        report: &[u8],
    ) -> io::Result<()> {
        println!(self.rt;
            " {} {}, {} {}, {} {};{}",
            State::of(&counts[..1024], 0xA5A5),
            State::of(&counts[1024..], 0xA5A5),
            State::of(&words[..1056], 0xA5A5A5A5),
            State::of(&words[1056..], 0xA5A5A5A5),
            State::of(&mail[..4480], 0xA5A5),
            State::of(&mail[4480..], 0xA5A5),
            Report(report)
        )
    }
}
