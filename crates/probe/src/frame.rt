// The header of a question, behind its first byte.
ghost use Rattle.std.specs.Prelude.{◌+◌, ◌≤◌, length};

use logs::{MarkNumber, Node};
use shape::Mark;

// A question to run a log: the lengths of the rooms and of the log that follows, none more than there is room for.
#[derive(Clone, Copy)]
pub struct Run {
    pub counts: usize,
    pub words: usize,
    pub mail: usize,
    pub report: usize,
    pub log: usize,
    ghost in_bounds: { (counts ≤ 2048) × (words ≤ 2048) × (mail ≤ 8192) × (report ≤ 131072) × (log ≤ 24576) },
}

// A question to compare two marks, and the length of the report that follows, no more than there is room for.
#[derive(Clone, Copy)]
pub struct Compare {
    pub first: Mark,
    pub second: Mark,
    pub report: usize,
    ghost in_bounds: { report ≤ 40960 },
}

impl Run {
    // Reads the header of a run; none where it asks for more than there is room for.
    pub fn read(header: &[u8; 14]) -> Option<Run> {
        let counts = reading::number_at(header, 0) as usize;
        let words = reading::number_at(header, 2) as usize;
        let mail = reading::number_at(header, 4) as usize;
        let report = four_bytes(header, 6) as usize;
        let log = four_bytes(header, 10) as usize;
        if counts > 2048 || words > 2048 || mail > 8192 || report > 131072 || log > 24576 {
            return None;
        }
        Some(Run {
            counts,
            words,
            mail,
            report,
            log,
        })
    }
}

impl Compare {
    // Reads the header of a comparison; none where it asks for more than there is room for.
    pub fn read(header: &[u8; 10]) -> Option<Compare> {
        let first = mark(header, 0);
        let second = mark(header, 3);
        let report = four_bytes(header, 6) as usize;
        if report > 40960 {
            return None;
        }
        Some(Compare {
            first,
            second,
            report,
        })
    }
}

// The number of four bytes, low byte first.
fn four_bytes(header: &[u8], at: usize) -> u32
    requires { at + 4 ≤ length header.now }
{
    u32::from_le_bytes([header[at], header[at + 1], header[at + 2], header[at + 3]])
}

// The mark of three bytes: its node, and its number low byte first.
fn mark(header: &[u8], at: usize) -> Mark
    requires { at + 3 ≤ length header.now }
{
    Mark {
        node: Node(header[at]),
        number: MarkNumber(reading::number_at(header, at + 1)),
    }
}
