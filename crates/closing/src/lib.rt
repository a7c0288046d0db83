// The line that ends the program's text: the totals, a refusal, or that the input is too long. Each is laid over the front of a
// room; the number of its bytes comes back.
// kept: the room is lent and may be longer, so how much of it was written is told beside it; that it keeps its length is promised of each.
#![tactic(auto)]

ghost use Rattle.std.specs.Prelude.{◌≡◌, length};
ghost use Rattle.groups.specs.Groups.{Laid};
ghost use Rattle.closing.specs.Closing.{ok_line, refused_line, too_long};

use groups::Pen;

// The last line of an accepted log.
pub fn totals(
    events: usize,
    marks: usize,
    sends: usize,
    carried: usize,
    room: &mut [u8; 4096],
) -> usize
    ensures laid { Laid 0 (ok_line events marks sends carried) room.old room.new result }
    ensures length_kept { 4096 ≡ length room.new }
{
    let mut pen = Pen { room, at: 0 };
    words::word(b"ok ", &mut pen);
    words::counted(events, b" events ", &mut pen);
    words::counted(marks, b" marks ", &mut pen);
    words::counted(sends, b" sends ", &mut pen);
    words::counted(carried, b" carried\n", &mut pen);
    pen.at
}

// The line of a refusal.
// kept: a number and no `Reason`, since 1 and 13 are printed too.
pub fn refusal(number: u8, place: usize, room: &mut [u8; 4096]) -> usize
    ensures laid { Laid 0 (refused_line number place) room.old room.new result }
    ensures length_kept { 4096 ≡ length room.new }
{
    let mut pen = Pen { room, at: 0 };
    words::word(b"refused ", &mut pen);
    words::counted(number as usize, b" at ", &mut pen);
    words::counted(place, b"\n", &mut pen);
    pen.at
}

// The line for an input past its bound.
pub fn too_long(room: &mut [u8; 4096]) -> usize
    ensures laid { Laid 0 too_long room.old room.new result }
    ensures length_kept { 4096 ≡ length room.new }
{
    let mut pen = Pen { room, at: 0 };
    words::word(b"too long\n", &mut pen);
    pen.at
}
