// The protocol, record by record: whether a record may go, and what it does to the work room.
// kept: place, node count and mail go from `admit` to each of its parts with what it asks of them; a struct would be made for that
// one call.
#![tactic(auto)]

ghost use Rattle.std.specs.Prelude.{◌≡◌, List, ◌+◌, ◌^◌, ◌<◌, ◌≤◌, length, MatchResult};
ghost use Rattle.order.specs.Order.{Event, send};
ghost use Rattle.logs.specs.declared.Record.TheVariants.{Idle, Mark, Send, Receipt};
ghost use Rattle.logs.specs.Record.{refusal};
ghost use Rattle.verdict.specs.Verdict.{event_of};
ghost use Rattle.steps.specs.Steps.{Ready, Follows};
ghost use Rattle.room.specs.Finding.{Mailed};
ghost use Rattle.room.specs.Work.{Same};
ghost use Rattle.protocol.specs.Admission.{Judges};

use logs::{MessageNumber, Node, Reason, Record, Refusal};
use room::{Mode, WorkRoom, mail};
use sends::Letter;

// Whether the record at this place of the log may go after so many events. If so, the slot where its message lies, or is to lie,
// comes back.
pub fn admit(
    event: Record,
    at: usize,
    events: usize,
    nodes: usize,
    mail: &[u16],
) -> Result<usize, Refusal>
    requires at_bound { at + 3 < 2 ^ 64 }
    requires cut_mailed { (cut : List Event) × (length cut ≡ events) × Mailed nodes cut mail.now }
    ensures { (cut : List Event) → length cut ≡ events → Mailed nodes cut mail.now
        → Judges nodes cut at event result }
{
    if 4096 <= events {
        return Err(Reason::TooManyEvents.at(at));
    }
    match event {
        Record::Idle(node) | Record::Mark(node) => admit_node(node, at, nodes),
        Record::Send(from, to, number) => admit_send(from, to, number, at, nodes, mail),
        Record::Receipt(node, number) => admit_receipt(node, number, at, nodes, mail),
    }
}

// An idle event or a mark: the node has to be one of the barn's.
fn admit_node(node: Node, at: usize, nodes: usize) -> Result<usize, Refusal>
    requires { at + 3 < 2 ^ 64 }
    ensures { (cut : List Event) → length cut < 4096
        → Judges nodes cut at (Idle node) result × Judges nodes cut at (Mark node) result }
{
    row_of(node, nodes, at + 1)?;
    Ok(0)
}

// The row of a node that is named at a place of the log, if it is one of the barn's.
fn row_of(node: Node, nodes: usize, place: usize) -> Result<usize, Refusal>
    ensures { MatchResult result
        (λ i. (i ≡ node.0) × (node.0 < nodes))
        (λ f. (f ≡ refusal Reason.NoSuchNode place) × (nodes ≤ node.0)) }
{
    let row = node.0 as usize;
    if nodes <= row {
        return Err(Reason::NoSuchNode.at(place));
    }
    Ok(row)
}

// A send: two nodes of the barn, a number that is not in flight, and a free slot.
fn admit_send(
    from: Node,
    to: Node,
    number: MessageNumber,
    at: usize,
    nodes: usize,
    mail: &[u16],
) -> Result<usize, Refusal>
    requires { (length mail.now ≡ 4480) × (at + 3 < 2 ^ 64) }
    ensures { (cut : List Event) → length cut < 4096 → Mailed nodes cut mail.now
        → Judges nodes cut at (Send from to number) result }
{
    let i = row_of(from, nodes, at + 1)?;
    let j = row_of(to, nodes, at + 2)?;
    if i == j {
        return Err(Reason::ToItself.at(at + 2));
    }
    let seen = mail::survey(mail, number);
    if seen.repeated {
        return Err(Reason::NumberTaken.at(at + 3));
    }
    match seen.free {
        Some(slot) => Ok(slot),
        None => Err(Reason::MailFull.at(at)),
    }
}

// A receipt: a node of the barn, and a message in flight to it.
fn admit_receipt(
    node: Node,
    number: MessageNumber,
    at: usize,
    nodes: usize,
    mail: &[u16],
) -> Result<usize, Refusal>
    requires { (length mail.now ≡ 4480) × (at + 3 < 2 ^ 64) }
    ensures { (cut : List Event) → length cut < 4096 → Mailed nodes cut mail.now
        → Judges nodes cut at (Receipt node number) result }
{
    row_of(node, nodes, at + 1)?;
    match mail::find(mail, number) {
        Some(slot) if mail[35 * slot + 1] == node.0 as u16 => Ok(slot),
        Some(_) => Err(Reason::ToAnother.at(at + 2)),
        None => Err(Reason::NotInFlight.at(at + 2)),
    }
}

// Applies an admitted record, with its slot, to the work room. How many entries it carries comes back.
pub fn apply(mode: Mode, event: Record, slot: usize, nodes: usize, room: &mut WorkRoom<'_>) -> usize
    requires { (cut : List Event) × Ready mode nodes cut (event_of event) slot
        room.old.counts.now room.old.words.now room.old.mail.now }
    ensures same { Same room.old room.new }
    ensures follows { Follows mode nodes (event_of event) slot
        room.old.counts.now room.old.words.now room.old.mail.now
        room.new.counts.now room.new.words.now room.new.mail.now result }
{
    match event {
        Record::Idle(_) => 0,
        Record::Mark(node) => {
            marks::mark(node, nodes, room.counts, room.words);
            0
        }
        Record::Send(from, to, number) => {
            let letter = Letter {
                from,
                to,
                number,
                slot,
            };
            send(mode, letter, nodes, room.counts, room.words, room.mail)
        }
        Record::Receipt(node, _) => {
            receipts::receipt(node, slot, nodes, room);
            0
        }
    }
}

// A send, of which the rows come back as they were.
// kept: three slices, all lent as `&mut`; beside a `&mut` of one of the room's, the check loses what a `&` of another shows.
fn send(
    mode: Mode,
    letter: Letter,
    nodes: usize,
    counts: &mut [u16],
    words: &mut [u32],
    mail: &mut [u16],
) -> usize
    requires { (cut : List Event)
        × Ready mode nodes cut (send letter.from.0 letter.to.0 letter.number.0) letter.slot
        counts.old words.old mail.old }
    ensures { Follows mode nodes (send letter.from.0 letter.to.0 letter.number.0) letter.slot
        counts.old words.old mail.old
        counts.new words.new mail.new result }
{
    sends::send(mode, letter, nodes, counts, words, mail)
}
