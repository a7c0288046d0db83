// The program's text: a line for each mark of a report.
// kept: a report and a place are two parameters of what lays a stamp, as `stamp_at` takes them, which the lines promise.
#![tactic(auto)]

ghost use Rattle.std.specs.Prelude.{◌≡◌, true, ◌∷◌, ◌++◌, ◌+◌, ◌*◌, ◌≤◌, length};
ghost use Rattle.groups.specs.Groups.{Laid};
ghost use Rattle.groups.specs.Pen.{Same};
ghost use Rattle.words.specs.Words.{decimal};
ghost use Rattle.reading.specs.Reading.{stamp_at, answer_at};
ghost use Rattle.shape.specs.Shape.{group_fits, past_group};
ghost use Rattle.text.specs.Text.{named, name_text, stamp_text, causes_text, nearest_text, stamp_part, from_part, line_of, line_at};

use groups::Pen;
use shape::BadGroup;

// A line that lies over the front of a room.
// kept: the room is lent and may be longer, so how much of it was written is told beside it.
#[derive(Clone, Copy, Drop, PartialEq, Eq)]
pub struct Line {
    // How many bytes it has.
    pub size: usize,
    // The place past its group.
    pub past: usize,
}

// No line: no group that keeps the rules stands at the place, or the nodes are more than 32.
#[derive(Clone, Copy, Drop, PartialEq, Eq)]
pub struct NoLine;

impl From<BadGroup> for NoLine {
    ghost from_gives = { λ _ none. none ≡ record {} };

    fn from(_bad: BadGroup) -> NoLine {
        NoLine
    }
}

// Lays the line of the mark whose group stands at a place of the report over the front of the room. None where the report ends.
// kept: that the room keeps its length is promised here, as in `closing`.
#[tactic(auto, using(crate::proofs::Answered::parts_inside), unfolding(shape::specs::Shape::group_seen, crate::specs::Text::written_line, crate::specs::Text::line_at))]
pub fn mark_line(
    report: &[u8],
    place: usize,
    nodes: usize,
    room: &mut [u8; 4096],
) -> Result<Option<Line>, NoLine>
    ensures room_after { (result, room.new) ≡ line_at nodes report.now place room.old }
    ensures length_kept { 4096 ≡ length room.new }
{
    let Some((_, past)) = view::group(report, place)? else {
        return Ok(None);
    };
    if nodes > 32 {
        return Err(NoLine);
    }
    let mut pen = Pen { room, at: 0 };
    lay_mark(report, place, past, nodes, &mut pen);
    Ok(Some(Line { size: pen.at, past }))
}

// Lays the line of the mark whose group stands at a place and ends at `past`.
#[tactic(auto, using(crate::proofs::Answered::parts_inside))]
fn lay_mark(report: &[u8], place: usize, past: usize, nodes: usize, pen: &mut Pen<'_>)
    requires group_there { (group_fits report.now place ≡ true) × (past ≡ past_group report.now place) }
    requires space { (nodes ≤ 32) × (pen.old.at + 4096 ≤ length pen.old.room.now) }
    ensures same { Same pen.old pen.new }
    ensures laid { Laid pen.old.at (line_of nodes (answer_at report.now place)) pen.old.room.now pen.new.room.now pen.new.at }
{
    let count = report[place + 4] as usize;
    let (records, _) = report[past - 4 * count..past].as_chunks();
    name(
        b"mark ",
        report[place + 1],
        reading::number_at(report, place + 2),
        pen,
    );
    stamp(report, place + 5, nodes, pen);
    ending(records, pen);
}

// Lays the word and the counts of a stamp.
fn stamp(report: &[u8], place: usize, nodes: usize, pen: &mut Pen<'_>)
    requires { (place ≤ length report.now) × (nodes ≤ 32) × (pen.old.at + 6 + 6 * nodes ≤ length pen.old.room.now) }
    ensures same { Same pen.old pen.new }
    ensures laid { Laid pen.old.at (stamp_part nodes (stamp_at report.now place)) pen.old.room.now pen.new.room.now pen.new.at }
    ensures ends_by { pen.new.at ≤ pen.old.at + 6 + 6 * nodes }
{
    words::word(b" stamp", pen);
    counts(report, place, nodes, pen);
}

// Lays the word, the direct predecessors that records name, and the line's end.
fn ending(records: &[[u8; 4]], pen: &mut Pen<'_>)
    requires { pen.old.at + 8 + 12 * length records.now ≤ length pen.old.room.now }
    ensures same { Same pen.old pen.new }
    ensures laid { Laid pen.old.at (from_part (named records.now)) pen.old.room.now pen.new.room.now pen.new.at }
{
    words::word(b" from", pen);
    nearest(records, pen);
    words::word(b"\n", pen);
}

// Lays a word and the name of a mark: node, dot, number.
#[tactic(auto, using(words::proofs::Decimals::short_decimal))]
fn name(before: &[u8], node: u8, number: u16, pen: &mut Pen<'_>)
    requires { pen.old.at + length before.now + 11 ≤ length pen.old.room.now }
    ensures same { Same pen.old pen.new }
    ensures laid { Laid pen.old.at (before.now ++ name_text node number) pen.old.room.now pen.new.room.now pen.new.at }
    ensures ends_by { pen.new.at ≤ pen.old.at + length before.now + 11 }
{
    words::word(before, pen);
    words::number(node as usize, pen);
    words::word(b".", pen);
    words::number(number as usize, pen);
}

// Lays a space and a count.
#[tactic(auto, using(words::proofs::Decimals::short_decimal))]
fn count(number: u16, pen: &mut Pen<'_>)
    requires { pen.old.at + 6 ≤ length pen.old.room.now }
    ensures same { Same pen.old pen.new }
    ensures laid { Laid pen.old.at (32 ∷ decimal number) pen.old.room.now pen.new.room.now pen.new.at }
    ensures ends_by { pen.new.at ≤ pen.old.at + 6 }
{
    words::word(b" ", pen);
    words::number(number as usize, pen);
}

// Lays the counts of the stamp that stands at a place, one for each node.
#[tactic(auto, using(reading::proofs::Standing::stamp_inside))]
fn counts(report: &[u8], place: usize, nodes: usize, pen: &mut Pen<'_>)
    requires { (place ≤ length report.now) × (nodes ≤ 32) × (pen.old.at + 6 * nodes ≤ length pen.old.room.now) }
    ensures same { Same pen.old pen.new }
    ensures laid { Laid pen.old.at (stamp_text nodes (stamp_at report.now place)) pen.old.room.now pen.new.room.now pen.new.at }
    ensures ends_by { pen.new.at ≤ pen.old.at + 6 * nodes }
{
    let mut read = place;
    for k in 0..nodes {
        let found = reading::count_at(report, read, k);
        count(found.count, pen);
        read = found.past;
    }
}

// Lays the direct predecessors that records name.
fn causes(records: &[[u8; 4]], pen: &mut Pen<'_>)
    requires { pen.old.at + 12 * length records.now ≤ length pen.old.room.now }
    ensures same { Same pen.old pen.new }
    ensures laid { Laid pen.old.at (causes_text (named records.now)) pen.old.room.now pen.new.room.now pen.new.at }
    ensures ends_by { pen.new.at ≤ pen.old.at + 12 * length records.now }
{
    for &[_, node, low, high] in records {
        name(b" ", node, u16::from_le_bytes([low, high]), pen);
    }
}

// Lays the direct predecessors, or a dash where there is none.
#[tactic(auto, using(crate::proofs::Turns::nearest_none, crate::proofs::Turns::nearest_some))]
fn nearest(records: &[[u8; 4]], pen: &mut Pen<'_>)
    requires { pen.old.at + 2 + 12 * length records.now ≤ length pen.old.room.now }
    ensures same { Same pen.old pen.new }
    ensures laid { Laid pen.old.at (nearest_text (named records.now)) pen.old.room.now pen.new.room.now pen.new.at }
    ensures ends_by { pen.new.at ≤ pen.old.at + 2 + 12 * length records.now }
{
    if records.is_empty() {
        words::word(b" -", pen);
    } else {
        causes(records, pen);
    }
}
