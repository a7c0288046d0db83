// Finding in the mail: 128 slots of 35 elements. A slot's first element is 0 if it is free, its third the message number.
// kept: a slice whose length is asked for, and no WorkRoom, since whoever asks has to have the mail alone.
ghost use Rattle.std.specs.Prelude.{◌≡◌, length};
ghost use Rattle.room.specs.Finding.{Finds, surveyed};

use logs::MessageNumber;

// What a send has to know of the mail.
#[derive(Clone, Copy)]
pub struct Seen {
    // The number is in flight already.
    pub repeated: bool,
    // The lowest free slot.
    pub free: Option<usize>,
    // How many messages are in flight.
    pub flying: usize,
}

// The slot of the letter with this number; none if it is not in flight.
#[tactic(auto, using(crate::specs::Finding::finds, crate::specs::Finding::misses))]
pub fn find(mail: &[u16], message: MessageNumber) -> Option<usize>
    requires { length mail.now ≡ 4480 }
    ensures { Finds mail.now message.0 result }
{
    for (slot, letter) in mail.chunks_exact(35).enumerate() {
        if letter[0] != 0 && letter[2] == message.0 {
            return Some(slot);
        }
    }
    None
}

// All that a send has to know, in one pass.
pub fn survey(mail: &[u16], message: MessageNumber) -> Seen
    requires { length mail.now ≡ 4480 }
    ensures { result ≡ surveyed message.0 mail.now 128 }
{
    let mut seen = Seen {
        repeated: false,
        free: None,
        flying: 0,
    };
    #[tactic(auto, using(crate::proofs::Surveying::one_free, crate::proofs::Surveying::one_taken), unfolding(crate::specs::Finding::surveyed))]
    for (slot, letter) in mail.chunks_exact(35).enumerate() {
        if letter[0] == 0 {
            seen.free = Some(seen.free.unwrap_or(slot).min(slot));
        } else {
            seen.repeated |= letter[2] == message.0;
            seen.flying += 1;
        }
    }
    seen
}
