// Words and numbers laid over a room, one behind the other.
#![tactic(auto)]

ghost use Rattle.std.specs.Prelude.{◌≡◌, ◌+◌, ◌≤◌, ◌<◌, [], ◌∷◌, length};
ghost use Rattle.groups.specs.Groups.{laid, Laid};
ghost use Rattle.groups.specs.Pen.{Same};
ghost use Rattle.words.specs.Words.{digit, decimal, counted};

use groups::Pen;

// Lays a word.
pub fn word(bytes: &[u8], pen: &mut Pen<'_>)
    requires { pen.old.at + length bytes.now ≤ length pen.old.room.now }
    ensures same { Same pen.old pen.new }
    ensures laid { Laid pen.old.at bytes.now pen.old.room.now pen.new.room.now pen.new.at }
{
    paste(bytes, pen.at, pen.room);
    pen.at += bytes.len();
}

// Writes a word over a room from a place on. Here and in `decimal` room and place come apart: through the pen, both would be read
// and written anew at each byte.
#[tactic(auto, using(std::proofs::lemmas::List::Edits::paste_more))]
fn paste(bytes: &[u8], at: usize, room: &mut [u8])
    requires { at + length bytes.now ≤ length room.old }
    ensures { room.new ≡ laid at bytes.now room.old }
{
    // kept: a loop, since a copy of a slice would call memmove, and the archive for C calls nothing but memset
    for (k, byte) in bytes.iter().enumerate() {
        room[at + k] = *byte;
    }
}

// Lays a number in decimal.
pub fn number(n: usize, pen: &mut Pen<'_>)
    requires { pen.old.at + length (decimal n) ≤ length pen.old.room.now }
    ensures same { Same pen.old pen.new }
    ensures laid { Laid pen.old.at (decimal n) pen.old.room.now pen.new.room.now pen.new.at }
{
    pen.at = decimal(n, pen.at, pen.room);
}

// Writes a number over a room from a place on: first what a tenth of it has, then its last digit. The place past it comes back.
// kept: a recursion, as the definition is one; the kit's itoa would print it by way of a buffer, and be one crate more to believe.
#[tactic(auto, using(crate::proofs::Decimals::decimals))]
fn decimal(n: usize, at: usize, room: &mut [u8]) -> usize
    requires { at + length (decimal n) ≤ length room.old }
    ensures { Laid at (decimal n) room.old room.new result }
{
    if n < 10 {
        return digit(n, at, room);
    }
    let last = decimal(n / 10, at, room);
    digit(n % 10, last, room)
}

// Writes one digit at a place. The place past it comes back.
fn digit(d: usize, at: usize, room: &mut [u8]) -> usize
    requires { (d < 10) × (at < length room.old) }
    ensures { Laid at (digit d ∷ []) room.old room.new result }
{
    room[at] = b'0' + d as u8;
    at + 1
}

// Lays a number and the word behind it.
#[tactic(auto, using(crate::proofs::Decimals::long_decimal))]
pub fn counted(n: usize, text: &[u8], pen: &mut Pen<'_>)
    requires { pen.old.at + 20 + length text.now ≤ length pen.old.room.now }
    ensures same { Same pen.old pen.new }
    ensures laid { Laid pen.old.at (counted n text.now) pen.old.room.now pen.new.room.now pen.new.at }
    ensures ends_by { pen.new.at ≤ pen.old.at + 20 + length text.now }
{
    number(n, pen);
    word(text, pen);
}
