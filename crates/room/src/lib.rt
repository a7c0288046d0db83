// The work room: three slices that hold what the nodes know and the letters under way (docs/LAYOUT.md), and clearing it.
#![tactic(auto)]

pub mod mail;
mod work;

ghost use Rattle.std.specs.Prelude.{◌≡◌, min};
ghost use Rattle.room.specs.Room.{Cleared};

pub use work::WorkRoom;

// What goes along with a message.
#[derive(Clone, Copy)]
pub enum Mode {
    // All counts and flags.
    Full,
    // Each count above zero with its flag, unless the flag is set and the receiver is known to have the count.
    Short,
}

// Clears the work room: 1,024 counts, 1,056 words, 4,480 elements of mail, and nothing behind them. Where one of the slices is
// smaller nothing is touched, and the answer is false.
// kept: a bool, since a Result would have one refusal, and nothing to say of it; `Cleared` tells what the slices hold by it.
pub fn clear(counts: &mut [u16], words: &mut [u32], mail: &mut [u16]) -> bool
    ensures { Cleared
        counts.old words.old mail.old
        counts.new words.new mail.new result }
{
    if counts.len() < 1024 || words.len() < 1056 || mail.len() < 4480 {
        return false;
    }
    counts[..1024].fill(0);
    words[..1056].fill(0);
    mail[..4480].fill(0);
    true
}

// The place, or the end of a room of this size if the place is behind it.
pub fn within(place: usize, size: usize) -> usize
    ensures { result ≡ min place size }
{
    place.min(size)
}
