// A mark's group in the report, from its node's row and flags.
#![tactic(auto)]

ghost use Rattle.std.specs.Prelude.{◌≡◌, false, [], ◌∷◌, ◌++◌, ℕ, ◌+◌, ◌<◌, ◌≤◌, length, get_or};
ghost use Rattle.bits.specs.Bits.{bit};
ghost use Rattle.machine.specs.Answer.{flagged};
ghost use Rattle.groups.specs.Groups.{byte_of, four_bytes, stamp_record, stamp_records, cause_records, group_of, stamp_of, row_answer, Laid, Written};
ghost use Rattle.groups.specs.Pen.{Same};

pub mod pen;

use logs::{MarkNumber, Node};
pub use pen::Pen;

// The kind of a record of a report, by its byte in 01.
#[derive(Clone, Copy)]
pub enum Kind {
    // A mark, which begins a group.
    Mark = 0x21,
    // A node's count in its stamp.
    Count = 0x22,
    // A direct predecessor.
    Cause = 0x23,
}

// A mark's stamp: its node, and the node's row before the mark. The mark itself is counted.
#[derive(Clone, Copy)]
struct Stamp<'a> {
    row: &'a [u16],
    own: usize,
    ghost few: { length row.now ≤ 32 },
    ghost countable: { get_or row.now own 0 < 65535 },
}

impl<'a> Stamp<'a> {
    // The count at node k.
    #[tactic(auto, using(machine::proofs::Small::put_same, machine::proofs::Small::put_other))]
    fn at(self, k: usize) -> u16
        requires { k < length self.row.now }
        ensures { result ≡ stamp_of self.entry.own self.entry.row.now k }
    {
        let count = self.row[k];
        if k == self.own { count + 1 } else { count }
    }

    // How many bytes its records have.
    #[tactic(auto, using(crate::proofs::GroupSizes::stamp_sizes), unfolding(crate::specs::Groups::stamp_records))]
    fn size(self) -> usize
        ensures { result ≡ length (stamp_records (length self.entry.row.now) (stamp_of self.entry.own self.entry.row.now)) }
    {
        let mut bytes = 0;
        for k in 0..self.row.len() {
            if self.at(k) > 0 {
                bytes += 4;
            }
        }
        bytes
    }

    // Writes its records, node after node.
    fn write(self, pen: &mut Pen<'_>)
        requires { pen.old.at + length (stamp_records (length self.row.now) (stamp_of self.own self.row.now))
            ≤ length pen.old.room.now }
        ensures same { Same pen.old pen.new }
        ensures laid { Laid pen.old.at (stamp_records (length self.entry.row.now) (stamp_of self.entry.own self.entry.row.now))
            pen.old.room.now pen.new.room.now pen.new.at }
    {
        for k in 0..self.row.len() {
            stamp_record(Node(k as u8), self.at(k), pen);
        }
    }
}

// Writes the group of a mark at the node to the front of a room that has space for it, from the node's row and its flags
// before the mark. How many bytes the group has comes back in any case.
// kept: the room is lent and may be longer, so how much of it was written is told beside it.
#[tactic(auto, using(crate::proofs::GroupSizes::stamps_size, crate::proofs::GroupSizes::set_size))]
pub fn group(node: Node, row: &[u16], flags: u32, room: &mut [u8]) -> usize
    requires node_in_bounds { (node.0 < length row.now) × (length row.now ≤ 32) × (get_or row.now node.0 0 < 65535) }
    requires flags_bound { (k : ℕ) → length row.now ≤ k → bit flags k ≡ false }
    ensures { Written 0 (group_of (length row.now) (row_answer node.0 row.now flags))
        room.old room.new result }
{
    let own = node.0 as usize;
    let stamp = Stamp { row, own };
    let causes = bits::count(flags);
    let bytes = 5 + stamp.size() + 4 * causes as usize;
    if room.len() < bytes {
        return bytes;
    }
    let mut pen = Pen { room, at: 0 };
    head(node, MarkNumber(stamp.at(own)), causes as u8, &mut pen);
    stamp.write(&mut pen);
    write_causes(row, flags, &mut pen);
    bytes
}

// Writes a record of four bytes.
// kept: here and in `head` a node and a number are two, since `Mark` is what a report is read as (crates/shape).
fn four_bytes(kind: Kind, node: Node, number: u16, pen: &mut Pen<'_>)
    requires { pen.old.at + 4 ≤ length pen.old.room.now }
    ensures same { Same pen.old pen.new }
    ensures laid { Laid pen.old.at (four_bytes (byte_of kind) node.0 number) pen.old.room.now pen.new.room.now pen.new.at }
{
    let [low, high] = number.to_le_bytes();
    let end = pen.at + 4;
    put(&mut pen.room[pen.at..end], [kind as u8, node.0, low, high]);
    pen.at = end;
}

// Writes four bytes over as many. The part is taken as an array, since a copy from a slice looks first whether the two overlap.
fn put(part: &mut [u8], bytes: [u8; 4])
    requires { length part.old ≡ 4 }
    ensures { part.new ≡ bytes }
{
    if let Some(record) = part.as_mut_array() {
        *record = bytes;
    }
}

// Writes the first record of a group: the mark, and how many direct predecessors it has.
fn head(node: Node, number: MarkNumber, causes: u8, pen: &mut Pen<'_>)
    requires { pen.old.at + 5 ≤ length pen.old.room.now }
    ensures same { Same pen.old pen.new }
    ensures laid { Laid pen.old.at (four_bytes 0x21 node.0 number.0 ++ (causes ∷ []))
        pen.old.room.now pen.new.room.now pen.new.at }
{
    four_bytes(Kind::Mark, node, number.0, pen);
    pen.room[pen.at] = causes;
    pen.at += 1;
}

// Writes the stamp at a node, unless it is zero.
// kept: a count of 0 and no Option, since the definition of this name goes by the count.
#[tactic(auto, using(crate::proofs::Records::stamp_some, crate::proofs::Records::stamp_none, crate::proofs::Laying::none_laid))]
fn stamp_record(node: Node, count: u16, pen: &mut Pen<'_>)
    requires { pen.old.at + length (stamp_record node.0 count) ≤ length pen.old.room.now }
    ensures same { Same pen.old pen.new }
    ensures laid { Laid pen.old.at (stamp_record node.0 count) pen.old.room.now pen.new.room.now pen.new.at }
{
    if count > 0 {
        four_bytes(Kind::Count, node, count, pen);
    }
}

// Writes a mark's direct predecessors, node after node: those whose flag is set, each with its count.
fn write_causes(row: &[u16], flags: u32, pen: &mut Pen<'_>)
    requires row_len_bound { length row.now ≤ 32 }
    requires flags_in_bounds { pen.old.at + length (cause_records (flagged (length row.now) (λ k. get_or row.now k 0) (bit flags)))
        ≤ length pen.old.room.now }
    ensures same { Same pen.old pen.new }
    ensures laid { Laid pen.old.at
        (cause_records (flagged (length row.now) (λ k. get_or row.now k 0) (bit flags)))
        pen.old.room.now pen.new.room.now pen.new.at }
{
    for (k, count) in row.iter().enumerate() {
        if bits::test(flags, k as u32) {
            four_bytes(Kind::Cause, Node(k as u8), *count, pen);
        }
    }
}
