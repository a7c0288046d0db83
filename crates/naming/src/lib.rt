// The name of each number that is answered, as text for C.
#![tactic(auto)]

ghost use Rattle.std.specs.Prelude.{◌≡◌};
ghost use Rattle.naming.specs.Names.{Named, name_of};

use groups::Pen;

// Lays the name of a number over the front of text, with a zero behind it, if text has space for both, and answers its length
// without the zero. A number without a name has length 0.
// kept: the room is lent and may be longer, so how much of it was written is told beside it.
pub fn name(number: u8, text: &mut [u8]) -> usize
    ensures { Named (name_of number) text.old text.new result }
{
    lay(letters(number), text)
}

// The letters of a number's name.
// kept: the number is the one that C is told, so it is matched as a number.
#[tactic(auto, unfolding(crate::specs::Names::name_of))]
fn letters(number: u8) -> &'static [u8]
    ensures { result.now ≡ name_of number }
{
    match number {
        0 => b"accepted",
        1 => b"work room too small",
        2 => b"no whole 0x10 record at the start",
        3 => b"node count 0 or above 32",
        4 => b"unknown kind, or a later 0x10",
        5 => b"record cut short",
        6 => b"node or destination not below the node count",
        7 => b"destination equals sender",
        8 => b"message number in flight already",
        9 => b"128 messages in flight already",
        10 => b"receipt of a number not in flight",
        11 => b"message in flight to another node",
        12 => b"a 4,097th event",
        13 => b"report room too small",
        14 => b"report not well formed",
        15 => b"first mark absent",
        16 => b"second mark absent",
        255 => b"unknown mode",
        _ => b"",
    }
}

// Lays a name and a zero over the front of text, if it has space for both.
fn lay(name: &[u8], text: &mut [u8]) -> usize
    ensures { Named name.now text.old text.new result }
{
    if name.len() < text.len() {
        let mut pen = Pen { room: text, at: 0 };
        words::word(name, &mut pen);
        words::word(b"\0", &mut pen);
    }
    name.len()
}
