// A node's cells, one for each node: what a message says of them, and what a letter makes of them.
// kept: a row, its columns and its flags are three parts and go in step by an index, as they lie in the lent rooms (docs/LAYOUT.md).
#![tactic(auto)]

ghost use Rattle.std.specs.Prelude.{◌≡◌, ℕ, ◌<◌, ◌≤◌, length, get_or, IfSome};
ghost use Rattle.cells.specs.Cells.{code_of, entry_of, said_of, merged, cell_at, entry_said, Packed, Joined};

use std::cmp::Ordering;

// What a node holds of another: its count, the bits of those who brought that very count, and the flag.
#[derive(Clone, Copy)]
pub struct Cell {
    pub count: u16,
    pub column: u32,
    pub direct: bool,
}

// What a message says of a node: its count and its flag.
#[derive(Clone, Copy)]
struct Entry {
    count: u16,
    direct: bool,
}

// An entry as an element of a letter: 0 where nothing is said.
// kept: 0 and no Option, since so it lies in the mail that C lends (docs/LAYOUT.md).
fn code(entry: Option<Entry>) -> u16
    requires { IfSome entry (λ e. e.count ≤ 4096) }
    ensures { result ≡ code_of (entry_said entry) }
{
    match entry {
        Some(Entry { count, direct }) => 2 * count + u16::from(direct),
        None => 0,
    }
}

// And back.
fn decoded(code: u16) -> Option<Entry>
    ensures { entry_said result ≡ entry_of code }
{
    if code == 0 {
        return None;
    }
    Some(Entry {
        count: code / 2,
        direct: code % 2 == 1,
    })
}

// The cell for node k of a row, its columns and its flags.
fn cell_for(row: &[u16], columns: &[u32], flags: u32, k: usize) -> Cell
    requires { (length row.now ≤ 32) × (length columns.now ≡ length row.now) × (k < length row.now) }
    ensures { result ≡ cell_at row.now columns.now flags k }
{
    Cell {
        count: row[k],
        column: columns[k],
        direct: bits::test(flags, k as u32),
    }
}

// What a message says of a cell: nothing of a count of zero, nor of one with a set flag that a node of `spared` brought.
#[tactic(auto, unfolding(crate::specs::Cells::said_of, machine::specs::Short::offer))]
fn said(cell: Cell, spared: u32) -> Option<Entry>
    requires { cell.count ≤ 4096 }
    ensures value { entry_said result ≡ said_of spared cell }
    ensures count_bound { IfSome result (λ e. e.count ≤ 4096) }
{
    if cell.count == 0 || cell.direct && bits::common(cell.column, spared) {
        return None;
    }
    Some(Entry {
        count: cell.count,
        direct: cell.direct,
    })
}

// A cell after an entry of a letter, where `sender` has the sender's bit alone. A larger count brings its flag, and only its
// sender brought it; an equal one leaves the lesser flag, and its sender brought it too; a smaller one changes nothing.
#[tactic(auto, using(crate::proofs::Entries::merged_absent, crate::proofs::Entries::merged_present))]
fn merge(cell: Cell, entry: Option<Entry>, sender: u32) -> Cell
    ensures { result ≡ merged sender (entry_said entry) cell }
{
    let Some(entry) = entry else { return cell };
    match cell.count.cmp(&entry.count) {
        Ordering::Less => Cell {
            count: entry.count,
            column: sender,
            direct: entry.direct,
        },
        Ordering::Equal => Cell {
            count: cell.count,
            column: cell.column | sender,
            direct: cell.direct && entry.direct,
        },
        Ordering::Greater => cell,
    }
}

// Writes what a message says of each cell of a row. How many entries it carries comes back.
#[tactic(auto, unfolding(machine::specs::Answer::entries, machine::specs::Answer::weight))]
pub fn pack(row: &[u16], columns: &[u32], flags: u32, spared: u32, letter: &mut [u16]) -> usize
    requires row_len_bound { (length row.now ≤ 32) × (length columns.now ≡ length row.now)
        × (length letter.old ≡ length row.now) }
    requires counts_bound { (k : ℕ) → get_or row.now k 0 ≤ 4096 }
    ensures { Packed spared row.now columns.now flags (length row.now)
        letter.new result }
{
    let mut carried = 0;
    for k in 0..row.len() {
        let entry = said(cell_for(row, columns, flags, k), spared);
        letter[k] = code(entry);
        if entry.is_some() {
            carried += 1;
        }
    }
    carried
}

// Merges each cell of a row with its entry of a letter, and clears the entry. The flags come back.
pub fn join(
    row: &mut [u16],
    columns: &mut [u32],
    flags: u32,
    sender: u32,
    letter: &mut [u16],
) -> u32
    requires { (length row.old ≤ 32) × (length columns.old ≡ length row.old)
        × (length letter.old ≡ length row.old) }
    ensures { Joined sender
        letter.old row.old columns.old flags (length row.old)
        letter.new row.new columns.new result }
{
    let mut after = flags;
    for k in 0..row.len() {
        let next = merge(cell_for(row, columns, after, k), decoded(letter[k]), sender);
        row[k] = next.count;
        columns[k] = next.column;
        letter[k] = 0;
        after = bits::put(after, k as u32, next.direct);
    }
    after
}
