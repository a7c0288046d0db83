// The digest of a room, over its elements' bytes, low byte first.
ghost use Rattle.std.specs.Prelude.{◌≡◌, List, [], ◌∷◌, ℕ};
ghost use Rattle.std.specs.List.{fold, flat_map};
ghost use Rattle.probe.specs.Digests.{stirred, digest_of, half_bytes, word_bytes};

use std::fmt;

// Two sums that a byte stirs.
#[derive(Clone, Copy, Default)]
pub struct Digest {
    x: u32,
    y: u32,
}

impl Digest {
    // The digest of a room.
    pub fn of<T: Element>(room: &[T]) -> Digest
        ensures { result ≡ digest_of (flat_map T.bytes room.now) }
    {
        room.iter()
            .copied()
            .fold(Digest::default(), |digest, element| element.stir(digest))
    }

    // One byte more.
    #[tactic(auto, unfolding(crate::specs::Digests::stirred))]
    fn stir(self, byte: u8) -> Digest
        ensures { result ≡ stirred self byte }
    {
        let x = (257 * self.x as u64 + byte as u64 + 1) % 4294967291;
        let y = (65599 * self.y as u64 + byte as u64 + 1) % 4294967279;
        Digest {
            x: x as u32,
            y: y as u32,
        }
    }
}

// The two sums.
impl fmt::Display for Digest {
    fn fmt<W: fmt::Write>(&self, f: &mut fmt::Formatter<W>) -> fmt::Result {
        write!(f, "{}.{}", self.x, self.y)
    }
}

// What rooms are made of.
pub trait Element: Copy {
    ghost bytes: { Self → List ℕ };

    // A digest with the element's bytes stirred in, the low one first.
    fn stir(self, digest: Digest) -> Digest
        ensures { result ≡ fold stirred digest (bytes self) };
}

impl Element for u8 {
    ghost bytes = { λ byte. byte ∷ [] };

    fn stir(self, digest: Digest) -> Digest {
        digest.stir(self)
    }
}

impl Element for u16 {
    ghost bytes = { half_bytes };

    fn stir(self, digest: Digest) -> Digest {
        let [low, high] = self.to_le_bytes();
        digest.stir(low).stir(high)
    }
}

impl Element for u32 {
    ghost bytes = { word_bytes };

    fn stir(self, digest: Digest) -> Digest {
        let [first, second, third, fourth] = self.to_le_bytes();
        digest.stir(first).stir(second).stir(third).stir(fourth)
    }
}
