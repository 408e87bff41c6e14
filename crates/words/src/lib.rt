// Numbers of i64 in 64-bit words of a table: to a word and back, and the saturating sum of two words.
#![tactic(auto)]

ghost use Rattle.std.specs.Prelude.{◌≡◌, ◌+◌};
ghost use Rattle.words.specs.I64.{mid, word, number, sat_add};

// The word that 0 stands as.
pub const MID: u64 = 9223372036854775808;

// The largest word: i64 maximum.
pub const TOP: u64 = 18446744073709551615;

// The word of an i64: the number plus 2^63.
pub fn word(x: i64) -> u64
    ensures { result ≡ word x }
{
    MID.wrapping_add_signed(x)
}

// The i64 of a word.
pub fn number(w: u64) -> i64
    ensures { result ≡ number w }
{
    i64::MIN.wrapping_add_unsigned(w)
}

// The saturating sum of two i64 numbers, as words.
#[tactic(auto, unfolding(crate::specs::I64::sat_add))]
pub fn sat_add(a: u64, b: u64) -> u64
    ensures { result ≡ sat_add a b }
{
    if a >= MID {
        b.saturating_add(a - MID)
    } else {
        b.saturating_sub(MID - a)
    }
}

// What a node of that value hands on along an edge of that cost, a natural number: the saturating sum.
#[tactic(auto, unfolding(crate::specs::I64::sat_add))]
pub fn handed(value: u64, cost: u64) -> u64
    ensures { result ≡ sat_add value (mid + cost) }
{
    value.saturating_add(cost)
}
