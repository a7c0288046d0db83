// The calls for programs in C and Rust: a run, a comparison, the sizes of the work room and the names of the numbers. Every
// argument is a number, or a place in memory with its length, and every answer is numbers (include/hatsuvren.h).
#![tactic(auto)]

ghost use Rattle.std.specs.Prelude.{◌≡◌};
ghost use Rattle.comparing.specs.Compare.{compared};
ghost use Rattle.hatsuvren_c.specs.Calls.{asked, Called, told_of, mark, ComparedTold};
ghost use Rattle.naming.specs.Names.{Named, name_of};
ghost use Rattle.hatsuvren_c.specs.Sizes.{counts_length, words_length, mail_length, rooms_bytes};

use comparing::Standing;
use logs::{MarkNumber, Node};
use passes::Tally;
use room::Mode;
use shape::Mark;

// Runs a log with full (0) or short (1) messages and returns 01's number; the place and the totals go to told. Any other mode
// returns 255, tells zeros and touches nothing else.
#[unsafe(no_mangle)]
pub extern "C" fn hatsuvren_run(
    mode: u32,
    log: &[u8],
    counts: &mut [u16],
    words: &mut [u32],
    mail: &mut [u16],
    report: &mut [u8],
    told: &mut [usize; 6],
) -> u8
    ensures { Called (asked mode) log.now
        counts.old words.old mail.old report.old
        counts.new words.new mail.new report.new result told.new }
{
    let Some(mode) = mode_of(mode) else {
        return tell(255, 0, Tally::default(), told);
    };
    let answer = report::run(mode, log, counts, words, mail, report);
    tell(answer.number(), answer.place(), answer.totals(), told)
}

// The mode that a number asks for, if any.
fn mode_of(number: u32) -> Option<Mode>
    ensures { result ≡ asked number }
{
    // kept: numbers, since a caller from C hands over one
    match number {
        0 => Some(Mode::Full),
        1 => Some(Mode::Short),
        _ => None,
    }
}

// Tells the place and the totals, and returns the number.
// kept: 01's numbers here and in `hatsuvren_compare`, since a caller from C is told numbers.
fn tell(number: u8, place: usize, tally: Tally, told: &mut [usize; 6]) -> u8
    ensures { (result ≡ number) × (told.new ≡ told_of place tally) }
{
    *told = [
        place,
        tally.events,
        tally.marks,
        tally.sends,
        tally.carried,
        tally.bytes,
    ];
    number
}

// Compares two marks of a report and returns 01's number: 0 with the order (1: before, 2: after, 3: apart), or a refusal with
// its place and the order 0.
#[unsafe(no_mangle)]
pub extern "C" fn hatsuvren_compare(
    report: &[u8],
    first_node: u8,
    first_number: u16,
    second_node: u8,
    second_number: u16,
    order: &mut u8,
    place: &mut usize,
) -> u8
    ensures { ComparedTold
        (compared report.now (mark first_node first_number) (mark second_node second_number))
        result order.new place.new }
{
    let first = Mark {
        node: Node(first_node),
        number: MarkNumber(first_number),
    };
    let second = Mark {
        node: Node(second_node),
        number: MarkNumber(second_number),
    };
    let (number, found, at) = match comparing::compare(report, first, second) {
        Ok(Standing::Before) => (0, 1, 0),
        Ok(Standing::After) => (0, 2, 0),
        Ok(Standing::Apart) => (0, 3, 0),
        Err(refused) => (refused.number(), 0, refused.place()),
    };
    *order = found;
    *place = at;
    number
}

// The elements that a run needs of counts.
#[unsafe(no_mangle)]
pub extern "C" fn hatsuvren_counts_length() -> usize
    ensures { result ≡ counts_length }
{
    1024
}

// The elements that a run needs of words.
#[unsafe(no_mangle)]
pub extern "C" fn hatsuvren_words_length() -> usize
    ensures { result ≡ words_length }
{
    1056
}

// The elements that a run needs of mail.
#[unsafe(no_mangle)]
pub extern "C" fn hatsuvren_mail_length() -> usize
    ensures { result ≡ mail_length }
{
    4480
}

// The bytes of the three together.
#[unsafe(no_mangle)]
pub extern "C" fn hatsuvren_rooms_bytes() -> usize
    ensures { result ≡ rooms_bytes }
{
    15232
}

// Lays the name of a number over the front of text, with a zero behind it, if text has space for both, and returns its length
// without the zero. A number without a name has length 0.
#[unsafe(no_mangle)]
pub extern "C" fn hatsuvren_name(number: u8, text: &mut [u8]) -> usize
    ensures { Named (name_of number) text.old text.new result }
{
    naming::name(number, text)
}
