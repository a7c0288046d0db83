// One pass over the records of a log: the work room follows them, the report is written where its room has space for it.
#![tactic(auto)]

ghost use Rattle.std.specs.Prelude.{◌≡◌, List, [], ◌∷◌, ℕ, ◌+◌, ◌^◌, ◌<◌, length, Ok};
ghost use Rattle.order.specs.Order.{Event};
ghost use Rattle.logs.specs.Record.{opening_of};
ghost use Rattle.verdict.specs.Verdict.{event_of};
ghost use Rattle.room.specs.Room.{barn, Holds};
ghost use Rattle.room.specs.Finding.{Mailed};
ghost use Rattle.room.specs.Work.{Same};
ghost use Rattle.protocol.specs.Admission.{Judges};
ghost use Rattle.steps.specs.Steps.{Ready};
ghost use Rattle.groups.specs.Groups.{Written};
ghost use Rattle.passes.specs.Pass.{Noted, Stands, Turned, Passing, group_by, counted, Small};

use logs::{Cursor, Record, Refusal};
use room::{Mode, WorkRoom};

// What a run counts.
#[derive(Clone, Copy, Default, PartialEq, Eq)]
pub struct Tally {
    pub events: usize,
    pub marks: usize,
    pub sends: usize,
    // Entries that the messages carry.
    pub carried: usize,
    // Bytes of the report.
    pub bytes: usize,
}

// What a pass goes over: how messages go, a log, and what its first record says: the node count and where the events begin.
#[derive(Clone, Copy)]
pub struct Course<'a> {
    pub mode: Mode,
    pub log: &'a [u8],
    pub nodes: usize,
    pub first: Cursor,
    ghost opened: { opening_of log.now ≡ Ok (nodes, first) },
}

// Runs the records of the log from the place past the first record on.
pub fn pass(
    course: &Course<'_>,
    room: &mut WorkRoom<'_>,
    report: &mut [u8],
) -> Result<Tally, Refusal>
    requires { Holds course.now.nodes (barn course.now.mode [])
        room.old.counts.now room.old.words.now room.old.mail.now }
    ensures same { Same room.old room.new }
    ensures passing { Passing course.now.mode course.now.log.now course.now.nodes report.old
        room.new.counts.now room.new.words.now room.new.mail.now report.new result }
{
    let mut cursor = course.first;
    let mut tally = Tally::default();
    while let Some((next, sum)) = take_turn(course, cursor, tally, room, report)? {
        cursor = next;
        tally = sum;
    }
    Ok(tally)
}

// kept: course, tally, room and report go from `pass` to each of its parts as they are; of a struct that lends them on each part would
// have to say that the rest of it stays. That the room stands at a cut is asked of each, since each record makes it another cut.

// Reads, judges and applies the record at a place. The place past it and the totals up to there come back; nothing if no record is
// left.
fn take_turn(
    course: &Course<'_>,
    cursor: Cursor,
    tally: Tally,
    room: &mut WorkRoom<'_>,
    report: &mut [u8],
) -> Result<Option<(Cursor, Tally)>, Refusal>
    requires { (cut : List Event) × (blank : List ℕ)
        × Stands course.now.mode course.now.log.now course.now.nodes cursor.at cut blank
        room.old.counts.now room.old.words.now room.old.mail.now report.old tally }
    ensures same { Same room.old room.new }
    ensures turned { (cut : List Event) (blank : List ℕ)
        → Stands course.now.mode course.now.log.now course.now.nodes cursor.at cut blank
        room.old.counts.now room.old.words.now room.old.mail.now report.old tally
        → Turned course.now.mode course.now.log.now course.now.nodes cursor.at cut blank
        room.new.counts.now room.new.words.now room.new.mail.now report.new tally result }
{
    let Some((event, next)) = cursor.step(course.log)? else {
        return Ok(None);
    };
    let slot = judge(course, event, cursor, tally, room)?;
    let sum = advance(course, event, slot, tally, room, report);
    Ok(Some((next, sum)))
}

// The slot of a record's message, if the record may go. The room is only looked at.
fn judge(
    course: &Course<'_>,
    event: Record,
    cursor: Cursor,
    tally: Tally,
    room: &WorkRoom<'_>,
) -> Result<usize, Refusal>
    requires at_bound { cursor.at + 3 < 2 ^ 64 }
    requires cut_mailed { (cut : List Event) × (length cut ≡ tally.events) × Mailed course.now.nodes cut room.now.mail.now }
    ensures { (cut : List Event) → length cut ≡ tally.events → Mailed course.now.nodes cut room.now.mail.now
        → Judges course.now.nodes cut cursor.at event result }
{
    protocol::admit(event, cursor.at, tally.events, course.nodes, room.mail)
}

// Writes the group of a mark, applies a record that was admitted, and counts it.
fn advance(
    course: &Course<'_>,
    event: Record,
    slot: usize,
    tally: Tally,
    room: &mut WorkRoom<'_>,
    report: &mut [u8],
) -> Tally
    requires { (cut : List Event) × (blank : List ℕ)
        × Ready course.now.mode course.now.nodes cut (event_of event) slot
        room.old.counts.now room.old.words.now room.old.mail.now
        × Noted course.now.mode course.now.nodes cut blank
        room.old.counts.now room.old.words.now room.old.mail.now report.old tally }
    ensures same { Same room.old room.new }
    ensures noted { (cut : List Event) (blank : List ℕ)
        → Ready course.now.mode course.now.nodes cut (event_of event) slot
        room.old.counts.now room.old.words.now room.old.mail.now
        → Noted course.now.mode course.now.nodes cut blank
        room.old.counts.now room.old.words.now room.old.mail.now report.old tally
        → Noted course.now.mode course.now.nodes (event_of event ∷ cut) blank
        room.new.counts.now room.new.words.now room.new.mail.now report.new result }
{
    let bytes = show(event, course.nodes, tally.bytes, room, report);
    let carried = protocol::apply(course.mode, event, slot, course.nodes, room);
    count(event, carried, bytes, tally)
}

// Writes the group of a record that is a mark at a place of the report, where there is space. How many bytes it has comes back.
fn show(event: Record, nodes: usize, at: usize, room: &WorkRoom<'_>, report: &mut [u8]) -> usize
    requires { (mode : Mode) × (cut : List Event) × (slot : ℕ) × (mail : List ℕ)
        × Ready mode nodes cut (event_of event) slot room.now.counts.now room.now.words.now mail }
    ensures { (mode : Mode) (cut : List Event) (slot : ℕ) (mail : List ℕ)
        → Ready mode nodes cut (event_of event) slot room.now.counts.now room.now.words.now mail
        → Written at (group_by nodes cut (event_of event)) report.old report.new result }
{
    let Record::Mark(node) = event else {
        return 0;
    };
    let i = node.0 as usize;
    let row = nodes * i;
    let row_end = row + nodes;
    let flags = room.words[i];
    let from = room::within(at, report.len());
    groups::group(node, &room.counts[row..row_end], flags, &mut report[from..])
}

// The totals with a record more.
#[tactic(auto, unfolding(crate::specs::Pass::counted))]
fn count(event: Record, carried: usize, bytes: usize, tally: Tally) -> Tally
    requires { Small tally × (carried < 2 ^ 32) × (bytes < 2 ^ 32) }
    ensures { result ≡ counted (event_of event) carried bytes tally }
{
    let (marks, sends) = match event {
        Record::Mark(_) => (1, 0),
        Record::Send(_, _, _) => (0, 1),
        Record::Idle(_) | Record::Receipt(_, _) => (0, 0),
    };
    Tally {
        events: tally.events + 1,
        marks: tally.marks + marks,
        sends: tally.sends + sends,
        carried: tally.carried + carried,
        bytes: tally.bytes + bytes,
    }
}
