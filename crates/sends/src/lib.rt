// The step of a send on the work room.
// kept: three slices and no WorkRoom, which would ask to write the two that are only read; and what is asked of the node count and the
// slot stands at each step, since each is promised alone.
#![tactic(auto)]

ghost use Rattle.std.specs.Prelude.{◌≡◌, ℕ, ◌≤◌, ◌<◌, length, get_or};
ghost use Rattle.order.specs.Order.{send};
ghost use Rattle.steps.specs.Steps.{held, Posted, Sent, Follows};
ghost use Rattle.cells.specs.Cells.{said_of};
ghost use Rattle.machine.specs.Answer.{entries};

use logs::{MessageNumber, Node};
use room::Mode;

// A message from one node to another, and the slot for it.
#[derive(Clone, Copy)]
pub struct Letter {
    pub from: Node,
    pub to: Node,
    pub number: MessageNumber,
    pub slot: usize,
}

// Sends a message by a letter into a free slot. How many entries it carries comes back.
pub fn send(
    mode: Mode,
    letter: Letter,
    nodes: usize,
    counts: &[u16],
    words: &[u32],
    mail: &mut [u16],
) -> usize
    requires nodes_bound { (nodes ≤ 32) × (letter.from.0 < nodes) × (letter.to.0 < nodes) × (letter.slot < 128) }
    requires counts_len { (length counts.now ≡ 1024) × (length words.now ≡ 1056) × (length mail.old ≡ 4480) }
    requires counts_bound { (p : ℕ) → get_or counts.now p 0 ≤ 4096 }
    ensures sent { Sent mode nodes letter.from.0 letter.to.0 letter.number.0 letter.slot
        counts.now words.now mail.old mail.new result }
    ensures follows { Follows mode nodes (send letter.from.0 letter.to.0 letter.number.0) letter.slot
        counts.now words.now mail.old
        counts.now words.now mail.new result }
{
    match mode {
        Mode::Full => {
            post(letter, 0, nodes, counts, words, mail);
            nodes
        }
        Mode::Short => {
            let spared = bits::only(letter.to.0 as u32);
            post(letter, spared, nodes, counts, words, mail)
        }
    }
}

// Writes a letter into a slot. The nodes whose bits `spared` has need not be told a count that they brought, if its flag is set.
fn post(
    letter: Letter,
    spared: u32,
    nodes: usize,
    counts: &[u16],
    words: &[u32],
    mail: &mut [u16],
) -> usize
    requires nodes_bound { (nodes ≤ 32) × (letter.from.0 < nodes) × (letter.to.0 < nodes) × (letter.slot < 128) }
    requires counts_len { (length counts.now ≡ 1024) × (length words.now ≡ 1056) × (length mail.old ≡ 4480) }
    requires counts_bound { (p : ℕ) → get_or counts.now p 0 ≤ 4096 }
    ensures posted { Posted nodes letter.from.0 letter.to.0 letter.number.0 letter.slot spared
        counts.now words.now mail.old mail.new }
    ensures value { result ≡ entries nodes
        (λ k. said_of spared (held nodes counts.now words.now letter.from.0 k)) }
{
    let i = letter.from.0 as usize;
    let row = nodes * i;
    let columns = 32 + row;
    let at = 35 * letter.slot;
    let entries = at + 3;
    mail[at] = letter.from.0 as u16 + 1;
    mail[at + 1] = letter.to.0 as u16;
    mail[at + 2] = letter.number.0;
    let flags = words[i];
    cells::pack(
        &counts[row..row + nodes],
        &words[columns..columns + nodes],
        flags,
        spared,
        &mut mail[entries..entries + nodes],
    )
}
