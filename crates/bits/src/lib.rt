// Words of flags: a flag for each of up to 32 nodes, in one u32.
// kept: that an index is below 32 is asked for at each call; a type that says it would be made anew for every index of a loop.
#![tactic(auto)]

ghost use Rattle.std.specs.Prelude.{◌≡◌, true, false, ◌<◌, ◌^◌};
ghost use Rattle.bits.specs.Bits.{bit, Put, meets, set_below};

// Whether flag k is set.
#[tactic(auto, using(std::proofs::lemmas::Nat::Bits::shr_and_one), unfolding(crate::specs::Bits::bit))]
pub fn test(word: u32, k: u32) -> bool
    requires { k < 32 }
    ensures { result ≡ bit word k }
{
    (word >> k) & 1 == 1
}

// The word in which flag k alone is set.
pub fn only(k: u32) -> u32
    requires { k < 32 }
    ensures { result ≡ 2 ^ k }
{
    1 << k
}

// The word with flag k set.
#[tactic(auto, using(crate::proofs::Laws::set_puts))]
pub fn set(word: u32, k: u32) -> u32
    requires { k < 32 }
    ensures { Put word k true result }
{
    word | only(k)
}

// The word with flag k clear.
#[tactic(auto, using(crate::proofs::Laws::clear_puts))]
pub fn clear(word: u32, k: u32) -> u32
    requires { k < 32 }
    ensures { Put word k false result }
{
    word & !only(k)
}

// The word with flag k as given.
pub fn put(word: u32, k: u32, flag: bool) -> u32
    requires { k < 32 }
    ensures { Put word k flag result }
{
    if flag { set(word, k) } else { clear(word, k) }
}

// Whether some flag is set in both words.
#[tactic(auto, unfolding(crate::specs::Bits::meets))]
pub fn common(word: u32, other: u32) -> bool
    ensures { result ≡ meets word other }
{
    word & other != 0
}

// How many flags are set.
#[tactic(auto, using(crate::proofs::Laws::ones_set))]
pub fn count(word: u32) -> u32
    ensures { result ≡ set_below 32 word }
{
    word.count_ones()
}
