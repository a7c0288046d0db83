// What a run leaves in its rooms, seen against the pattern that they were filled with.
use std::fmt;

// What stands in a part of a room.
#[derive(Clone, Copy)]
pub enum State {
    // The pattern everywhere.
    Untouched,
    // Zero everywhere.
    Zero,
    // Anything else.
    Used,
}

impl State {
    // What stands in a part of a room that was filled with a pattern.
    pub fn of<T: Copy + PartialEq + Default>(part: &[T], pattern: T) -> State {
        if part.iter().all(|element| *element == pattern) {
            State::Untouched
        } else if part.iter().all(|element| *element == T::default()) {
            State::Zero
        } else {
            State::Used
        }
    }
}

// Its word in a line.
impl fmt::Display for State {
    fn fmt<W: fmt::Write>(&self, f: &mut fmt::Formatter<W>) -> fmt::Result {
        match self {
            State::Untouched => write!(f, "untouched"),
            State::Zero => write!(f, "zero"),
            State::Used => write!(f, "used"),
        }
    }
}

// A report room: up to the last byte that is not the pattern, which no report ends in, it was written.
#[derive(Clone, Copy)]
pub struct Report<'a>(pub &'a [u8]);

impl Report<'_> {
    // The bytes that were written.
    fn written(&self) -> &[u8] {
        match self.0.iter().rposition(|byte| *byte != 0xA5) {
            Some(last) => &self.0[..=last],
            None => &[],
        }
    }
}

// The end of a line, behind a space: that nothing was written, the bytes of a short report, or how far a long one reaches.
impl fmt::Display for Report<'_> {
    fn fmt<W: fmt::Write>(&self, f: &mut fmt::Formatter<W>) -> fmt::Result {
        let written = self.written();
        match written.len() {
            0 => write!(f, " {}", State::Untouched),
            1..=64 => {
                for byte in written {
                    write!(f, " {byte:02x}")?;
                }
                Ok(())
            }
            end => write!(f, " to {end}"),
        }
    }
}
