// The work room as it is lent to the steps.
ghost use Rattle.std.specs.Prelude.{◌≡◌, length};

// Three slices, of just the sizes of docs/LAYOUT.md.
// kept: rows and slots are parts of them, found by an index times their size, and a free slot is zero, since so they lie in the rooms
// that C lends.
#[derive(Drop)]
pub struct WorkRoom<'a> {
    // The counts of the nodes, row after row.
    pub counts: &'a mut [u16],
    // Their flags, and behind those their columns.
    pub words: &'a mut [u32],
    // The slots of the letters under way.
    pub mail: &'a mut [u16],
    ghost sized: { (length counts.now ≡ 1024) × (length words.now ≡ 1056) × (length mail.now ≡ 4480) },
}
