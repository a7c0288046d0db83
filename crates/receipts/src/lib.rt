// The step of a receipt on the work room.
// kept: what is asked of the node count and the slot stands at each step, since each is promised alone.
#![tactic(auto)]

ghost use Rattle.std.specs.Prelude.{◌≡◌, ℕ, ◌*◌, ◌≤◌, ◌<◌, get_or};
ghost use Rattle.order.specs.Order.{receipt};
ghost use Rattle.room.specs.declared.Mode.{Mode};
ghost use Rattle.room.specs.Work.{Same};
ghost use Rattle.steps.specs.Steps.{Received, Follows};

use logs::Node;
use room::WorkRoom;

// A node takes the letter of a slot, and the slot is free.
pub fn receipt(node: Node, slot: usize, nodes: usize, room: &mut WorkRoom<'_>)
    requires nodes_bound { (nodes ≤ 32) × (node.0 < nodes) × (slot < 128) }
    requires sender_bound { (1 ≤ get_or room.old.mail.now (35 * slot) 0)
        × (get_or room.old.mail.now (35 * slot) 0 ≤ 32) }
    ensures same { Same room.old room.new }
    ensures received { Received nodes node.0 slot
        room.old.counts.now room.old.words.now room.old.mail.now
        room.new.counts.now room.new.words.now room.new.mail.now }
    ensures follows { (mode : Mode) (m : ℕ) → Follows mode nodes (receipt node.0 m) slot
        room.old.counts.now room.old.words.now room.old.mail.now
        room.new.counts.now room.new.words.now room.new.mail.now 0 }
{
    let i = node.0 as usize;
    let row = nodes * i;
    let columns = 32 + row;
    let at = 35 * slot;
    let letter = at + 3;
    let sender = bits::only(room.mail[at] as u32 - 1);
    room.mail[at] = 0;
    room.mail[at + 1] = 0;
    room.mail[at + 2] = 0;
    let flags = room.words[i];
    room.words[i] = cells::join(
        &mut room.counts[row..row + nodes],
        &mut room.words[columns..columns + nodes],
        flags,
        sender,
        &mut room.mail[letter..letter + nodes],
    );
}
