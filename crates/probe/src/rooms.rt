// The rooms of a run.
ghost use Rattle.std.specs.Prelude.{◌≡◌, [], ◌∷◌, length, replicate};
ghost use Rattle.probe.specs.Digests.{digest_of, bytes_of_halves, bytes_of_words};

use crate::digest::Digest;
use report::Answer;
use room::Mode;
use std::fmt;

// The four rooms that are lent to a run.
#[derive(Drop)]
pub struct Rooms<'a> {
    pub counts: &'a mut [u16],
    pub words: &'a mut [u32],
    pub mail: &'a mut [u16],
    pub report: &'a mut [u8],
}

impl Rooms<'_> {
    // Fills them with 0xA5 bytes.
    pub fn fill(&mut self)
        ensures counts { self.new.counts.now ≡ replicate (length self.old.counts.now) 0xA5A5 }
        ensures words { self.new.words.now ≡ replicate (length self.old.words.now) 0xA5A5A5A5 }
        ensures mail { self.new.mail.now ≡ replicate (length self.old.mail.now) 0xA5A5 }
        ensures report { self.new.report.now ≡ replicate (length self.old.report.now) 0xA5 }
    {
        self.counts.fill(0xA5A5);
        self.words.fill(0xA5A5A5A5);
        self.mail.fill(0xA5A5);
        self.report.fill(0xA5);
    }

    // Runs a log in them.
    pub fn run(&mut self, mode: Mode, log: &[u8]) -> Answer {
        report::run(mode, log, self.counts, self.words, self.mail, self.report)
    }

    // Their digests, the report's first.
    #[tactic(auto, using(crate::proofs::Stirring::single_bytes))]
    pub fn digests(&self) -> [Digest; 4]
        ensures { result ≡ digest_of self.now.report.now ∷ digest_of (bytes_of_halves self.now.counts.now)
            ∷ digest_of (bytes_of_words self.now.words.now) ∷ digest_of (bytes_of_halves self.now.mail.now) ∷ [] }
    {
        [
            Digest::of(self.report),
            Digest::of(self.counts),
            Digest::of(self.words),
            Digest::of(self.mail),
        ]
    }
}

// The line of their digests.
impl fmt::Display for Rooms<'_> {
    fn fmt<W: fmt::Write>(&self, f: &mut fmt::Formatter<W>) -> fmt::Result {
        let [report, counts, words, mail] = self.digests();
        write!(f, "{report} {counts} {words} {mail}")
    }
}
