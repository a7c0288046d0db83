// The shape of one group of a report: which mark it is of and where it ends, or that it breaks a rule. Any bytes are taken.
#![tactic(auto)]

ghost use Rattle.std.specs.Prelude.{◌≡◌, cond, ◌&&◌, ◌+◌, ◌*◌, ◌≤◌, ◌<◌, eqb, length};
ghost use Rattle.groups.specs.Groups.{byte_of};
ghost use Rattle.reading.specs.Reading.{whole_at, stamp_place, stamp_at};
ghost use Rattle.shape.specs.Shape.{in_range, entry_fits, stamp_fits, stamp_ends, causes_fit, mark_fits, group_fits, mark_here, past_group, group_seen};

use groups::Kind;
use logs::{MarkNumber, Node};

// A mark: its node, and its number among the marks of that node.
#[derive(Clone, Copy, Drop, PartialEq, Eq)]
pub struct Mark {
    pub node: Node,
    pub number: MarkNumber,
}

// A group that breaks a rule.
#[derive(Clone, Copy, Drop, PartialEq, Eq)]
pub struct BadGroup {
    // The place where it starts.
    pub place: usize,
}

// What stands at a place of the report: none where the report has ended, else a group's mark and the place past it, or a bad group.
#[tactic(auto, unfolding(crate::specs::Shape::group_seen))]
pub fn look(report: &[u8], at: usize) -> Result<Option<(Mark, usize)>, BadGroup>
    ensures { result ≡ group_seen report.now at }
{
    if report.len() <= at {
        return Ok(None);
    }
    let seen = fitting(report, at).ok_or(BadGroup { place: at })?;
    Ok(Some(seen))
}

// The mark of the group at a place and the place past it, if the group keeps the rules.
// kept: here and below the report and the place are two parameters, as those of `reading` are that these call; a struct of both would
// be made anew for every four bytes.
#[tactic(auto, using(crate::proofs::Reaching::group_tests))]
fn fitting(report: &[u8], at: usize) -> Option<(Mark, usize)>
    requires { at ≤ length report.now }
    ensures { result ≡ cond (group_fits report.now at) (Some (mark_here report.now at, past_group report.now at)) None }
{
    let mark = named(Kind::Mark, 5, report, at)?;
    let place = stamp(report, at + 5, mark)?;
    let past = causes(report, place, report[at + 4])?;
    Some((mark, past))
}

// The place past a stamp, if the stamp keeps the rules and has the mark's number at the mark's node.
fn stamp(report: &[u8], at: usize, mark: Mark) -> Option<usize>
    requires { (at ≤ length report.now) × (mark.node.0 < 32) }
    ensures { result ≡ cond (stamp_fits report.now at 32
        && stamp_ends report.now (stamp_place report.now at 32)
        && eqb (stamp_at report.now at mark.node.0) mark.number.0)
        (Some (stamp_place report.now at 32)) None }
{
    let mut place = at;
    let mut low = 0;
    let mut own = MarkNumber(0);
    // kept: a `while`, since nothing counts the records of a stamp; the one at the place reached says whether it goes on
    while reading::whole(Kind::Count as u8, 1, report, place) {
        let count = entry(Kind::Count, report, place, low)?;
        if count.node == mark.node {
            own = count.number;
        }
        low = count.node.0 + 1;
        place += 4;
    }
    (own == mark.number).then_some(place)
}

// The place past so many direct predecessors, if they keep the rules.
fn causes(report: &[u8], at: usize, count: u8) -> Option<usize>
    requires { at ≤ length report.now }
    ensures { result ≡ cond (causes_fit report.now at 0 count) (Some (at + 4 * count)) None }
{
    let mut place = at;
    let mut low = 0;
    for _ in 0..count {
        let cause = entry(Kind::Cause, report, place, low)?;
        low = cause.node.0 + 1;
        place += 4;
    }
    Some(place)
}

// What a whole record of this kind at a place names, if that is of a node from `low` on and keeps the rules.
#[tactic(auto, unfolding(crate::specs::Shape::entry_fits, crate::specs::Shape::mark_here, crate::specs::Shape::mark_fits))]
fn entry(kind: Kind, report: &[u8], at: usize, low: u8) -> Option<Mark>
    requires { at ≤ length report.now }
    ensures { result ≡ cond (entry_fits (byte_of kind) report.now at low) (Some (mark_here report.now at)) None }
{
    named(kind, 4, report, at).filter(|mark| low <= mark.node.0)
}

// The node and the number that a whole record of this kind and so many bytes names at a place, if they keep the rules.
#[tactic(auto, using(reading::proofs::Standing::whole_fits), unfolding(crate::specs::Shape::mark_here))]
fn named(kind: Kind, size: usize, report: &[u8], at: usize) -> Option<Mark>
    requires { (at ≤ length report.now) × (4 ≤ size) }
    ensures { result ≡ cond (whole_at (byte_of kind) size report.now at && mark_fits (mark_here report.now at)) (Some (mark_here report.now at)) None }
{
    if !reading::whole(kind as u8, size, report, at) {
        return None;
    }
    let mark = Mark {
        node: Node(report[at + 1]),
        number: MarkNumber(reading::number_at(report, at + 2)),
    };
    // an `if`: of `then_some` the compiler makes code that packs each mark before it is known to fit
    if !mark_fits(mark) {
        return None;
    }
    Some(mark)
}

// Whether a mark's node is below 32, and its number in range.
#[tactic(auto, unfolding(crate::specs::Shape::mark_fits))]
fn mark_fits(mark: Mark) -> bool
    ensures { result ≡ mark_fits mark }
{
    mark.node.0 < 32 && in_range(mark.number.0)
}

// Whether a number is from 1 to 4,096.
#[tactic(auto, unfolding(crate::specs::Shape::in_range))]
fn in_range(number: u16) -> bool
    ensures { result ≡ in_range number }
{
    (1..=4096).contains(&number)
}
