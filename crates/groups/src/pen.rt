// Where the next byte goes: a room that is lent to be written, and a place in it.
// kept: that a writer leaves the room the same (`Same`), and what it laid (`Laid`), stand at each writer, since they say how the pen
// came back, which a type can't say of one pen.

#[derive(Drop)]
pub struct Pen<'a> {
    pub room: &'a mut [u8],
    pub at: usize,
}
