// Comparing two marks of a report. Any bytes and any marks are taken, and nothing is written.
#![tactic(auto)]

ghost use Rattle.std.specs.Prelude.{◌≡◌, ◌≤◌, length, Err};
ghost use Rattle.reading.specs.Reading.{stamp_at};
ghost use Rattle.comparing.specs.declared.Incomparable.TheVariants.{NotWellFormed};
ghost use Rattle.comparing.specs.Compare.{number_of, place_of, compared, ordered};
ghost use Rattle.comparing.specs.Judged.{judged};

use shape::{BadGroup, Mark};

// How one mark stands to another, by their stamps. In the report of an accepted log, before says that the first mark led to the second.
#[derive(Clone, Copy, Drop, PartialEq, Eq)]
pub enum Standing {
    // No count of the first stamp exceeds the second's, and some count differs.
    Before,
    // The other way round.
    After,
    // Neither.
    Apart,
}

// Why two marks of a report cannot be compared.
#[derive(Clone, Copy, Drop, PartialEq, Eq)]
pub enum Incomparable {
    // The report is not well formed; the place of its first bad group.
    NotWellFormed(usize),
    // The report has no group of the first mark.
    FirstAbsent,
    // The report has no group of the second mark.
    SecondAbsent,
}

impl Incomparable {
    // Its number in 01's table.
    pub fn number(self) -> u8
        ensures { result ≡ number_of (Err self) }
    {
        match self {
            Incomparable::NotWellFormed(_) => 14,
            Incomparable::FirstAbsent => 15,
            Incomparable::SecondAbsent => 16,
        }
    }

    // Its place in the report; an absent mark has none, which is 0.
    pub fn place(self) -> usize
        ensures { result ≡ place_of (Err self) }
    {
        match self {
            Incomparable::NotWellFormed(place) => place,
            Incomparable::FirstAbsent | Incomparable::SecondAbsent => 0,
        }
    }
}

impl From<BadGroup> for Incomparable {
    ghost from_gives = { λ bad e. e ≡ NotWellFormed bad.place };

    // A report with a bad group is not well formed.
    fn from(bad: BadGroup) -> Incomparable {
        Incomparable::NotWellFormed(bad.place)
    }
}

// Compares two marks of a report.
// kept: a report and two marks, as `compared` takes them.
#[tactic(auto, using(crate::proofs::Answering::answering))]
pub fn compare(report: &[u8], first: Mark, second: Mark) -> Result<Standing, Incomparable>
    ensures { result ≡ compared report.now first second }
{
    let survey = checking::find(report, first, second)?;
    let first_at = survey.first.ok_or(Incomparable::FirstAbsent)?;
    let second_at = survey.second.ok_or(Incomparable::SecondAbsent)?;
    Ok(weigh(report, first_at + 5, second_at + 5))
}

// Compares the stamps that start at two places, count by count.
fn weigh(report: &[u8], first: usize, second: usize) -> Standing
    requires { (first ≤ length report.now) × (second ≤ length report.now) }
    ensures { result ≡ ordered (stamp_at report.now first) (stamp_at report.now second) }
{
    let mut one = first;
    let mut other = second;
    let mut more = false;
    let mut less = false;
    for k in 0..32 {
        let a = reading::count_at(report, one, k);
        let b = reading::count_at(report, other, k);
        more |= a.count > b.count;
        less |= a.count < b.count;
        one = a.past;
        other = b.past;
    }
    judge(more, less)
}

// The answer for two stamps: whether some count of the first is the greater one, and whether some is the lesser one.
fn judge(more: bool, less: bool) -> Standing
    ensures { result ≡ judged more less }
{
    match (more, less) {
        (true, false) => Standing::After,
        (false, true) => Standing::Before,
        _ => Standing::Apart,
    }
}
