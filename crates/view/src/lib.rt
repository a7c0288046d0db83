// The view of a report: the lent report and the place reached in it. Its functions take it apart and leave the work to
// `shape::look` and `reading::count_at`, which take a slice and a place.
#![tactic(auto)]

ghost use Rattle.std.specs.Prelude.{◌≡◌};
ghost use Rattle.std.specs.Prelude.{◌≤◌, length};
ghost use Rattle.reading.specs.Reading.{count_at, past_count};
ghost use Rattle.shape.specs.Shape.{group_seen};

use reading::Count;
use shape::{BadGroup, Mark};

// A report, and the place that is reached in it.
#[derive(Clone, Copy)]
pub struct View<'a> {
    pub report: &'a [u8],
    pub at: usize,
}

impl<'a> View<'a> {
    // The view of a report at a place.
    pub fn over(report: &'a [u8], at: usize) -> View<'a>
        ensures { (result.report ≡ report.entry) × (result.at ≡ at) }
    {
        View { report, at }
    }

    // What stands at the place that the view has reached, as shape's look answers.
    pub fn read(self) -> Result<Option<(Mark, usize)>, BadGroup>
        ensures { result ≡ group_seen self.entry.report.now self.entry.at }
    {
        shape::look(self.report, self.at)
    }

    // The count of a node in a stamp, where it would stand at the place that the view has reached, and the place past it.
    pub fn count(self, node: usize) -> Count
        requires { self.at ≤ length self.report.now }
        ensures { (result.count ≡ count_at self.entry.report.now self.entry.at node) × (result.past ≡ past_count self.entry.report.now self.entry.at node) }
    {
        reading::count_at(self.report, self.at, node)
    }

    // The view handed back at another place.
    pub fn moved(self, at: usize) -> View<'a>
        ensures { (result.report ≡ self.entry.report) × (result.at ≡ at) }
    {
        View {
            report: self.report,
            at,
        }
    }
}

// What stands at a place of a report, as shape's look answers, through a view.
// kept: this and `count` say what the methods say, for whoever has a slice and a place; both are promised (docs/PROMISES.md, E).
pub fn group(report: &[u8], at: usize) -> Result<Option<(Mark, usize)>, BadGroup>
    ensures { result ≡ group_seen report.now at }
{
    View::over(report, at).read()
}

// The count of a node in a stamp, where it would stand at a place of a report, and the place past it, through a view.
pub fn count(report: &[u8], at: usize, node: usize) -> Count
    requires { at ≤ length report.now }
    ensures { (result.count ≡ count_at report.now at node) × (result.past ≡ past_count report.now at node) }
{
    View::over(report, at).count(node)
}
