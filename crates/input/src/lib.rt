// Reading an input that may come in parts.
#![tactic(auto)]

ghost use Rattle.std.specs.Prelude.{ℕ, ◌≤◌, length, take, IfOk, OnErr};
ghost use Rattle.std.specs.Io.KnownBytes.{Consumes};
ghost use Rattle.input.specs.Filled.{Filled};

use std::io;
use std::io::Read;

// Reads into a buffer until it is full or the input ends, and answers how many bytes it put at the front. Of what stands behind
// them in the buffer nothing is said, since a reader may write there too. Where a read fails, no byte is lost: the front of the
// buffer has what was read before.
// kept: the buffer is lent and may be longer, so how much of it was read is told beside it.
pub fn read_full<R: Read>(input: &mut R, buffer: &mut [u8]) -> io::Result<usize>
    ensures filled { IfOk result (λ size. Filled (R.remaining input.old) (R.remaining input.new) buffer.new size) }
    ensures none_lost { OnErr result ((size : ℕ) × (size ≤ length buffer.new)
        × Consumes (R.remaining input.old) (R.remaining input.new) (take size buffer.new)) }
{
    let mut done = 0;
    // kept: a turn goes on by as many bytes as were read, so there is no index that counts up
    while done < buffer.len() {
        let size = input.read(&mut buffer[done..])?;
        if size == 0 {
            break;
        }
        done += size;
    }
    Ok(done)
}

#[cfg(test)]
mod tests {
    use super::*;
    use std::test::Fail;

    // A reader that gives a part at each read, and fails where there is a None in place of one.
    #[derive(Drop)]
    struct Parts {
        parts: &'static [Option<&'static [u8]>],
    }

    impl Read for Parts {
        fn read(&mut self, buf: &mut [u8]) -> io::Result<usize> {
            if self.parts.is_empty() {
                return Ok(0);
            }
            let next = self.parts[0];
            self.parts = &self.parts[1..];
            let mut part = next.ok_or(io::ErrorKind::BrokenPipe)?;
            part.read(buf)
        }
    }

    #[test]
    fn fills_as_far_as_the_bytes_go(rt: HostRuntime) -> Result<(), Fail> {
        let mut input: &[u8] = b"barns";
        // as large as the program's
        let mut buffer = [0; 20483];
        assert_eq!(rt; read_full(&mut input, &mut buffer[..0])?, 0);
        assert_eq!(rt; read_full(&mut input, &mut buffer[..3])?, 3);
        assert_eq!(rt; &buffer[..3], b"bar".as_slice());
        assert_eq!(rt; input, b"ns".as_slice());
        assert_eq!(rt; read_full(&mut input, &mut buffer)?, 2);
        assert_eq!(rt; &buffer[..2], b"ns".as_slice());
        assert_eq!(rt; read_full(&mut input, &mut buffer)?, 0);
        Ok(())
    }

    #[test]
    fn goes_on_behind_a_short_read_and_ends_at_an_empty_one(rt: HostRuntime) -> Result<(), Fail> {
        let mut input = Parts {
            parts: &[
                Some(b"b"),
                Some(b"ar"),
                Some(b"ns"),
                Some(b""),
                Some(b"more"),
            ],
        };
        let mut buffer = [0; 20];
        assert_eq!(rt; read_full(&mut input, &mut buffer)?, 5);
        assert_eq!(rt; &buffer[..5], b"barns".as_slice());
        Ok(())
    }

    #[test]
    fn hands_on_a_failure_and_keeps_what_was_read(rt: HostRuntime) {
        let mut input = Parts {
            parts: &[Some(b"ba"), None, Some(b"rns")],
        };
        let mut buffer = [0; 20];
        let kind = read_full(&mut input, &mut buffer)
            .err()
            .map(|error| error.kind());
        assert_eq!(rt; kind, Some(io::ErrorKind::BrokenPipe));
        assert_eq!(rt; &buffer[..2], b"ba".as_slice());
        assert_eq!(rt; input.parts.len(), 1, "no read after the one that failed");
    }
}
