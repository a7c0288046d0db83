// The reader of a log: from bytes and a place to the record there and the next place.
//
// A log is a row of records, each one byte of kind and then a body whose length the kind fixes; two-byte numbers are low byte
// first. Every function takes any bytes and any place, and says by one equation what it answers.
#![tactic(auto)]

ghost use Rattle.std.specs.Prelude.{◌≡◌, ℕ, ◌+◌, ◌*◌, ◌≤◌, ◌<◌, length, get_or, MatchResult};
ghost use Rattle.logs.specs.Record.{record_at, refusal, number_of, opening_of};

// The number of a node, from 0.
#[derive(Clone, Copy, PartialEq, Eq, Drop)]
pub struct Node(pub u8);

// The number of a mark among the marks of its node, from 1.
#[derive(Clone, Copy, PartialEq, Eq, Drop)]
pub struct MarkNumber(pub u16);

// The number that a message bears from its send to its receipt.
#[derive(Clone, Copy, PartialEq, Eq)]
pub struct MessageNumber(pub u16);

// One event of a barn, as its record gives it.
#[derive(Clone, Copy)]
pub enum Record {
    // An event of no interest, at the node.
    Idle(Node),
    // A mark, at the node.
    Mark(Node),
    // The first node sends to the second.
    Send(Node, Node, MessageNumber),
    // The node receives.
    Receipt(Node, MessageNumber),
}

// Why a log is refused, with the number of 01's table. What reads it and what judges its records give the same reasons.
#[derive(Clone, Copy, PartialEq, Eq)]
pub enum Reason {
    // There is no whole first record.
    NoOpening = 2,
    // The node count is 0 or above 32.
    NodeCount = 3,
    // The byte is no kind of event: unknown, or that of a first record.
    UnknownKind = 4,
    // The record runs past the end of the log.
    CutShort = 5,
    // The node, or a message's destination, is not below the node count.
    NoSuchNode = 6,
    // A message goes to its sender.
    ToItself = 7,
    // The number of a message is in flight already.
    NumberTaken = 8,
    // As many messages are in flight as may be.
    MailFull = 9,
    // The message is not in flight.
    NotInFlight = 10,
    // The message is in flight to another node.
    ToAnother = 11,
    // There are as many events as may be.
    TooManyEvents = 12,
}

// A refusal of a log: why, and the place. The place is first, so that in a Result it does not lie over a record's bytes, which the
// compiler would then put together and take apart again at every event.
#[derive(Clone, Copy, PartialEq, Eq)]
pub struct Refusal {
    pub place: usize,
    pub reason: Reason,
}

impl Reason {
    // The refusal for this reason at a place.
    pub fn at(self, place: usize) -> Refusal
        ensures { result ≡ refusal self place }
    {
        Refusal {
            reason: self,
            place,
        }
    }

    // Its number in 01's table.
    pub fn number(self) -> u8
        ensures { result ≡ number_of self }
    {
        self as u8
    }
}

// A place in a log, taken by value and handed back past what was read.
#[derive(Clone, Copy)]
pub struct Cursor {
    pub at: usize,
}

impl Cursor {
    // The record at this place and the place past it; nothing at the end of the log.
    #[tactic(auto, unfolding(crate::specs::Record::record_at, crate::specs::Record::whole_at))]
    pub fn step(self, log: &[u8]) -> Result<Option<(Record, Cursor)>, Refusal>
        ensures { result ≡ record_at log.now self.at }
    {
        let at = self.at;
        if log.len() <= at {
            return Ok(None);
        }
        match log[at] {
            0x11 => {
                let ([_, node], past) = whole::<2>(log, at)?;
                Ok(Some((Record::Idle(Node(*node)), past)))
            }
            0x12 => {
                let ([_, node], past) = whole::<2>(log, at)?;
                Ok(Some((Record::Mark(Node(*node)), past)))
            }
            0x13 => {
                let ([_, from, to, low, high], past) = whole::<5>(log, at)?;
                let number = number(*low, *high);
                Ok(Some((Record::Send(Node(*from), Node(*to), number), past)))
            }
            0x14 => {
                let ([_, node, low, high], past) = whole::<4>(log, at)?;
                let number = number(*low, *high);
                Ok(Some((Record::Receipt(Node(*node), number), past)))
            }
            _ => Err(Reason::UnknownKind.at(at)),
        }
    }
}

// The bytes of the record at a place, so many of them, and the place past it; or that it is cut short.
fn whole<const N: usize>(log: &[u8], at: usize) -> Result<(&[u8; N], Cursor), Refusal>
    requires { at ≤ length log.now }
    ensures { MatchResult result
        (λ x. (at + N ≤ length log.now) × ((k : ℕ) → k < N → get_or x.0.now k 0 ≡ get_or log.now (at + k) 0) × (x.1.at ≡ at + N))
        (λ e. (length log.now < at + N) × (e ≡ refusal Reason.CutShort at)) }
{
    let Some(bytes) = log[at..].first_chunk() else {
        return Err(Reason::CutShort.at(at));
    };
    Ok((bytes, Cursor { at: at + N }))
}

// The message number of two bytes, low byte first.
fn number(low: u8, high: u8) -> MessageNumber
    ensures { result.0 ≡ low + 256 * high }
{
    MessageNumber(u16::from_le_bytes([low, high]))
}

// The node count of the first record and the place past it, or why there is none.
#[tactic(auto, unfolding(crate::specs::Record::opening_of))]
pub fn open(log: &[u8]) -> Result<(u8, Cursor), Refusal>
    ensures { result ≡ opening_of log.now }
{
    if log.len() < 2 || log[0] != 0x10 {
        return Err(Reason::NoOpening.at(0));
    }
    let count = log[1];
    if count == 0 || 32 < count {
        return Err(Reason::NodeCount.at(1));
    }
    Ok((count, Cursor { at: 2 }))
}
