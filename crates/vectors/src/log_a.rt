// Cases made of log A: cut short, with one byte changed, and in rooms of other sizes.
// kept: functions that are lists of calls, a line for each case; in a loop over a table the places would have to be shown in range.
ghost use Rattle.std.specs.Prelude.{◌≤◌, ◌<◌};

use crate::trial::{Sizes, Trials};
use std::io;

// Log A.
const LOG: [u8; 35] = *b"\x10\x03\
    \x12\x00\
    \x13\x00\x01\x01\x00\
    \x13\x00\x02\x02\x00\
    \x14\x01\x01\x00\
    \x12\x01\
    \x13\x01\x02\x03\x00\
    \x14\x02\x02\x00\
    \x14\x02\x03\x00\
    \x12\x02";

impl<R: Print> Trials<'_, R> {
    // All of them.
    pub fn log_a(&self) -> io::Result<()> {
        self.cuts()?;
        self.opening()?;
        self.kinds()?;
        self.nodes()?;
        self.numbers()?;
        self.work_rooms()?;
        self.report_rooms()
    }

    // Log A cut short at each of its places, and whole.
    fn cuts(&self) -> io::Result<()> {
        for end in 0..=35 {
            self.cut(end, Sizes::USUAL)?;
        }
        Ok(())
    }

    // Log A up to a place, in rooms of these sizes.
    fn cut(&self, end: usize, sizes: Sizes) -> io::Result<()>
        requires { end ≤ 35 }
    {
        self.run(format_args!("A to {end} in {sizes}"), &LOG[..end], sizes)
    }

    // Another first record: another kind, and 0, 33, 255 and 32 nodes.
    fn opening(&self) -> io::Result<()> {
        self.change(0, 0x11)?;
        self.change(1, 0x00)?;
        self.change(1, 0x21)?;
        self.change(1, 0xFF)?;
        self.change(1, 0x20)
    }

    // Another kind: an idle event for the first mark, two unknown ones and a later 10, and for the last mark a send and a receipt,
    // which are longer.
    fn kinds(&self) -> io::Result<()> {
        self.change(2, 0x11)?;
        self.change(2, 0x0F)?;
        self.change(4, 0x10)?;
        self.change(33, 0x15)?;
        self.change(33, 0x13)?;
        self.change(33, 0x14)
    }

    // Another node: one too high in two marks, as sender, as destination and in a receipt; a send to its sender, with another
    // destination and with another sender; two receipts of messages in flight to another node.
    fn nodes(&self) -> io::Result<()> {
        self.change(3, 0x03)?;
        self.change(34, 0xFF)?;
        self.change(5, 0x03)?;
        self.change(6, 0x03)?;
        self.change(15, 0x03)?;
        self.change(6, 0x00)?;
        self.change(21, 0x02)?;
        self.change(15, 0x02)?;
        self.change(26, 0x00)
    }

    // Another message number: two sends of one in flight, and a send of one that was received, whose own number is missed at its
    // receipt; receipts of one not sent yet, of one that differs in its second byte, and of one received before.
    fn numbers(&self) -> io::Result<()> {
        self.change(12, 0x01)?;
        self.change(23, 0x02)?;
        self.change(23, 0x01)?;
        self.change(16, 0x03)?;
        self.change(17, 0x01)?;
        self.change(31, 0x02)
    }

    // Log A with one byte changed.
    fn change(&self, place: usize, value: u8) -> io::Result<()>
        requires { place < 35 }
    {
        let mut log = LOG;
        log[place] = value;
        self.usual(format_args!("A with {value:02x} at {place}"), &log)
    }

    // Work rooms of just the fixed sizes, with one element less, and empty; and too small a room for an empty log.
    fn work_rooms(&self) -> io::Result<()> {
        self.cut(35, Sizes::new(1024, 1056, 4480, 16384))?;
        self.cut(35, Sizes::new(1023, 1056, 4480, 16384))?;
        self.cut(35, Sizes::new(1024, 1055, 4480, 16384))?;
        self.cut(35, Sizes::new(1024, 1056, 4479, 16384))?;
        self.cut(35, Sizes::new(0, 0, 0, 0))?;
        self.cut(0, Sizes::new(1023, 1056, 4480, 16384))
    }

    // Report rooms of just the size, with one byte less, and empty. What is wrong with the log comes first.
    fn report_rooms(&self) -> io::Result<()> {
        self.cut(35, Sizes::new(1024, 1056, 4480, 47))?;
        self.cut(35, Sizes::new(1024, 1056, 4480, 46))?;
        self.cut(35, Sizes::new(1024, 1056, 4480, 0))?;
        self.cut(4, Sizes::new(1024, 1056, 4480, 9))?;
        self.cut(4, Sizes::new(1024, 1056, 4480, 8))?;
        self.cut(2, Sizes::new(1024, 1056, 4480, 0))?;
        self.cut(34, Sizes::new(1024, 1056, 4480, 0))
    }
}
