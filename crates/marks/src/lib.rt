// The step of a mark on the work room.
// kept: two slices and no WorkRoom, which would ask for a mail too; and what is asked of the node count stands at each step, since each
// is promised alone.
#![tactic(auto)]

ghost use Rattle.std.specs.Prelude.{◌≡◌, List, ℕ, suc, ◌≤◌, ◌<◌, length, get_or, set};
ghost use Rattle.order.specs.Order.{mark};
ghost use Rattle.room.specs.declared.Mode.{Mode};
ghost use Rattle.room.specs.Room.{count_at};
ghost use Rattle.steps.specs.Steps.{Marked, Follows};

use logs::Node;

// A mark at the node.
pub fn mark(node: Node, nodes: usize, counts: &mut [u16], words: &mut [u32])
    requires { (nodes ≤ 32) × (node.0 < nodes) × (length counts.old ≡ 1024) × (length words.old ≡ 1056)
        × (count_at nodes counts.old node.0 node.0 < 4096) }
    ensures marked { Marked nodes node.0
        counts.old words.old counts.new words.new }
    ensures follows { (mode : Mode) (slot : ℕ) (mail : List ℕ) → Follows mode nodes (mark node.0) slot
        counts.old words.old mail counts.new words.new mail 0 }
{
    let i = node.0 as usize;
    let row = nodes * i;
    let end = row + nodes;
    count_up(&mut counts[row..end], i);
    words[i] = bits::only(i as u32);
    let own = 32 + row + i;
    words[own] = 0;
}

// One more mark in a node's own row.
fn count_up(row: &mut [u16], i: usize)
    requires { (i < length row.old) × (get_or row.old i 0 < 4096) }
    ensures { row.new ≡ set row.old i (suc (get_or row.old i 0)) }
{
    row[i] = row[i] + 1;
}
