// Whether a report is well formed, and where the groups of two marks stand in it. Any bytes are taken.
#![tactic(auto)]

ghost use Rattle.std.specs.Prelude.{◌≡◌, true, suc, ltb, length};
ghost use Rattle.shape.specs.Shape.{group_fits, mark_here};
ghost use Rattle.checking.specs.WellFormed.{group_place, place_among, AllGood};
ghost use Rattle.checking.specs.Surveyed.{checked, surveyed};
ghost use Rattle.checking.specs.Greatest.{Greatest};

use logs::{MarkNumber, Node};
use shape::{BadGroup, Mark};

// What was found in a well-formed report that was checked for two marks.
#[derive(Clone, Copy, Drop, PartialEq, Eq)]
pub struct Survey {
    // How many groups it has.
    pub groups: usize,
    // The place of the first mark's group, if it has one.
    pub first: Option<usize>,
    // The place of the second mark's group, if it has one.
    pub second: Option<usize>,
}

// How many groups a report may have.
const MOST_GROUPS: usize = 4096;

// Checks a report, and counts its groups. No group is of the mark that it looks for on the way.
// kept: a mark that no group has, and no Option, since what `find` promises (`surveyed`) is of two marks.
#[tactic(auto, unfolding(crate::specs::Surveyed::survey_of))]
pub fn check(report: &[u8]) -> Result<usize, BadGroup>
    ensures { result ≡ checked report.now }
{
    let nobody = Mark {
        node: Node(255),
        number: MarkNumber(0),
    };
    find(report, nobody, nobody).map(|survey| survey.groups)
}

// Checks a report in one pass and finds the groups of two marks on the way.
#[tactic(auto, using(crate::proofs::Walking::walking))]
pub fn find(report: &[u8], first: Mark, second: Mark) -> Result<Survey, BadGroup>
    ensures { result ≡ surveyed report.now first second }
{
    let mut greatest = [0; 32];
    let mut survey = Survey {
        groups: 0,
        first: None,
        second: None,
    };
    let mut at = 0;
    while let Some((mark, past)) = view::group(report, at)? {
        if survey.groups == MOST_GROUPS || repeated(report, survey.groups, mark, &mut greatest) {
            return Err(BadGroup { place: at });
        }
        survey = Survey {
            groups: survey.groups + 1,
            first: (mark == first).then_some(at).or(survey.first),
            second: (mark == second).then_some(at).or(survey.second),
        };
        at = past;
    }
    Ok(survey)
}

// Whether one of the first groups is of this mark, the one of the group behind them. Only a number that is not above all of its
// node so far costs a search.
#[tactic(auto, using(crate::proofs::Marks::next_mark))]
fn repeated(report: &[u8], groups: usize, mark: Mark, greatest: &mut [u16]) -> bool
    requires all_good { AllGood report.now groups }
    requires greatest { Greatest report.now groups greatest.old }
    requires group_fits { group_fits report.now (group_place report.now groups) ≡ true }
    requires mark_is { mark ≡ mark_here report.now (group_place report.now groups) }
    ensures found { result ≡ ltb (place_among report.now groups mark) (length report.now) }
    ensures greatest { Greatest report.now (suc groups) greatest.new }
{
    let node = mark.node.0 as usize;
    if greatest[node] < mark.number.0 {
        greatest[node] = mark.number.0;
        return false;
    }
    search(report, groups, mark)
}

// Whether one of the first groups is of this mark.
fn search(report: &[u8], groups: usize, mark: Mark) -> bool
    requires { AllGood report.now groups }
    ensures { result ≡ ltb (place_among report.now groups mark) (length report.now) }
{
    let mut at = 0;
    for _ in 0..groups {
        let Ok(Some((other, past))) = view::group(report, at) else {
            return false;
        };
        if other == mark {
            return true;
        }
        at = past;
    }
    false
}
