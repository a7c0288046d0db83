// Logs at the bounds, and just past them.
// kept: functions that are lists of calls, a line for each case; in a loop over a table the places would have to be shown in range.
// So does that an end is within the row: it is asked of each that is called with a number.
ghost use Rattle.std.specs.Prelude.{◌≤◌, ◌<◌};

use crate::trial::Trials;
use std::fmt::Display;
use std::io;
use std::ops::Range;

impl<R: Print> Trials<'_, R> {
    // All of them.
    pub fn bounds(&self) -> io::Result<()> {
        self.events()?;
        self.one_more()?;
        self.others()?;
        self.flights()
    }

    // As many events as a log may have, and more; the last of them behind a send from node 17 to node 18.
    fn events(&self) -> io::Result<()> {
        self.row_to("4096 idle", 0x11, 8194)?;
        self.row_to("4097 idle", 0x11, 8196)?;
        let mut log = row(0x11);
        log[2] = 0x13;
        log[4] = 0x12;
        self.usual("a send and 4096 idle", &log)
    }

    // A 4,097th event with another fault. An unknown kind and a cut come first; a node too high, a send to its sender and a receipt
    // of a number not in flight come behind.
    fn one_more(&self) -> io::Result<()> {
        self.changed(0x11, 8196, 8194, 0x15)?;
        self.long(0x11, 8195)?;
        self.changed(0x11, 8196, 8195, 0xFF)?;
        self.changed(0x11, 8199, 8194, 0x13)?;
        self.changed(0x11, 8198, 8194, 0x14)
    }

    // 1,260 marks, as many as the report room holds, 1,261 and 4,096; an idle event cut short, and one of node 32.
    fn others(&self) -> io::Result<()> {
        self.long(0x12, 2522)?;
        self.long(0x12, 2524)?;
        self.long(0x12, 8194)?;
        self.long(0x11, 3)?;
        self.changed(0x11, 4, 3, 0x20)
    }

    // A row of one kind up to a place, under a name of its own.
    fn row_to(&self, name: impl Display + Drop, kind: u8, end: usize) -> io::Result<()>
        requires { end ≤ 8199 }
    {
        self.usual(name, &row(kind)[..end])
    }

    // A row of one kind up to a place.
    fn long(&self, kind: u8, end: usize) -> io::Result<()>
        requires { end ≤ 8199 }
    {
        self.row_to(format_args!("kind {kind:02x} to {end}"), kind, end)
    }

    // The same with one byte changed.
    fn changed(&self, kind: u8, end: usize, place: usize, value: u8) -> io::Result<()>
        requires end_bound { end ≤ 8199 }
        requires place_bound { place < 8199 }
    {
        let mut log = row(kind);
        log[place] = value;
        self.usual(
            format_args!("kind {kind:02x} to {end} with {value:02x} at {place}"),
            &log[..end],
        )
    }

    // As many messages in flight as there may be, and more.
    fn flights(&self) -> io::Result<()> {
        self.flight("128 in flight", 642, 128, 642)?;
        self.flight("a 129th", 642, 128, 647)?;
        self.flight("a 129th of a number in flight", 642, 127, 647)?;
        self.flight("one received, then the 129th", 646, 128, 651)?;
        self.flight("one received, then the 129th and a 130th", 646, 128, 656)
    }

    // 128 sends and two more from a place and a number on, up to an end. The place is 642 or, behind a receipt of the first, 646.
    fn flight(&self, name: &str, place: usize, number: u8, end: usize) -> io::Result<()>
        requires place_bound { place ≤ 646 }
        requires number_bound { number ≤ 128 }
        requires end_bound { end ≤ 656 }
    {
        let mut log = [0u8; 656];
        log[0] = 0x10;
        log[1] = 0x02;
        log[642] = 0x14;
        log[643] = 0x01;
        put_sends(&mut log[2..642], 0..128);
        put_sends(&mut log[place..place + 10], number..number + 2);
        self.usual(name, &log[..end])
    }
}

// A log of 32 nodes. All bytes behind its first record are one kind, so each record is of that kind, and of the node of that
// number.
fn row(kind: u8) -> [u8; 8199] {
    let mut log = [kind; 8199];
    log[0] = 0x10;
    log[1] = 0x20;
    log
}

// Sends of these numbers, from node 0 to node 1.
fn put_sends(log: &mut [u8], numbers: Range<u8>) {
    for (send, number) in log.chunks_exact_mut(5).zip(numbers) {
        send.copy_from_slice(&[0x13, 0x00, 0x01, number, 0x00]);
    }
}
