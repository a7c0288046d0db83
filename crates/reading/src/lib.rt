// The reader of a report, record by record: what stands at a place. Every function takes any bytes.
// kept: the report and the place are two parameters, since what these functions promise names both; crates/view holds them as one.
#![tactic(auto)]

ghost use Rattle.std.specs.Prelude.{◌≡◌, ◌+◌, ◌≤◌, ◌<◌, length};
ghost use Rattle.reading.specs.Reading.{number_at, whole_at, stamp_here, count_at, past_count};

use groups::Kind;

// A node's count in a stamp, and the place past it.
// kept: 0 for a missing count and no Option, since `count_at` and 01 count it so.
#[derive(Clone, Copy)]
pub struct Count {
    pub count: u16,
    pub past: usize,
}

// Whether a whole record of this kind and so many bytes stands at a place.
// kept: the kind is any byte and no `Kind`, which would ask more of whoever calls.
#[tactic(auto, unfolding(crate::specs::Reading::whole_at))]
pub fn whole(kind: u8, size: usize, report: &[u8], at: usize) -> bool
    requires { (at ≤ length report.now) × (0 < size) }
    ensures { result ≡ whole_at kind size report.now at }
{
    size <= report.len() - at && report[at] == kind
}

// Whether the count of a node stands at a place.
#[tactic(auto, using(crate::proofs::Standing::whole_fits), unfolding(crate::specs::Reading::stamp_here))]
fn stamp_here(report: &[u8], at: usize, node: usize) -> bool
    requires { at ≤ length report.now }
    ensures { result ≡ stamp_here report.now at node }
{
    whole(Kind::Count as u8, 4, report, at) && report[at + 1] as usize == node
}

// The number at a place, low byte first.
pub fn number_at(report: &[u8], at: usize) -> u16
    requires { at + 1 < length report.now }
    ensures { result ≡ number_at report.now at }
{
    u16::from_le_bytes([report[at], report[at + 1]])
}

// The count of a node, where it would stand at a place, and the place past it. A missing count is 0 and takes no bytes.
#[tactic(auto, using(crate::proofs::Standing::stamp_fits_lem), unfolding(crate::specs::Reading::count_at, crate::specs::Reading::past_count))]
pub fn count_at(report: &[u8], at: usize, node: usize) -> Count
    requires { at ≤ length report.now }
    ensures { (result.count ≡ count_at report.now at node) × (result.past ≡ past_count report.now at node) }
{
    if stamp_here(report, at, node) {
        Count {
            count: number_at(report, at + 2),
            past: at + 4,
        }
    } else {
        Count { count: 0, past: at }
    }
}
