// Fixed cases of the run, each with full and with short messages, a line for each:
//
//     NAME, MODE: number place events marks sends carried bytes; counts, words, mail; report
//
// Of counts, words and mail the line says what their fixed size holds and then what lies behind it: untouched, zero or used. Of the
// report room it gives the bytes that were written, or how many where they are more than 64. These names are made of numbers, with
// bytes in two digits as in 01:
//
//     A to 34 in 1024 1056 4480 46       log A up to place 34, with so many elements of counts, words, mail and report room lent
//     A with 15 at 2                     log A with byte 15 at place 2
//     kind 11 to 8196 with ff at 8195    10 20 and then 11 up to place 8196, but for byte ff at place 8195
//
// What must come out is in the file stdout. It is not taken from this program: numbers, places, totals, reports and rooms follow
// from 01 ("Refusal numbers", "Logs to try") and from arithmetic on its layouts, and were held against the answers of the program in
// oracle/, which builds the order of events itself.
#![tactic(auto)]

mod bounds;
mod left;
mod log_a;
mod trial;

use room::Mode;
use std::io;
use trial::Trials;

// All cases, in both modes.
fn main(rt: HostRuntime) -> io::Result<()> {
    all(&rt, Mode::Full)?;
    all(&rt, Mode::Short)
}

// All cases, in one mode.
fn all(rt: &impl Print, mode: Mode) -> io::Result<()> {
    let trials = Trials { rt, mode };
    trials.few()?;
    trials.log_a()?;
    trials.bounds()
}

impl<R: Print> Trials<'_, R> {
    // 32 nodes, two marks of one node, log B, and the highest node that tells the lowest, with the highest number.
    fn few(&self) -> io::Result<()> {
        self.usual("32 nodes", b"\x10\x20")?;
        self.usual("mark 2 from mark 1", b"\x10\x01\x12\x00\x12\x00")?;
        self.usual(
            "B",
            b"\x10\x02\x12\x00\x13\x00\x01\x01\x00\x14\x01\x01\x00\x13\x01\x00\x02\x00\x12\x01\
              \x13\x01\x00\x03\x00\x14\x00\x03\x00\x12\x00\x14\x00\x02\x00",
        )?;
        self.usual(
            "node 31 tells node 0",
            b"\x10\x20\x12\x1F\x13\x1F\x00\xFF\xFF\x14\x00\xFF\xFF\x12\x00",
        )
    }
}
