// Records as structs in a lent list: one got from a place, one removed and others moved down, those of a flat list of words appended; and such a list read.
#![tactic(auto)]

ghost use Rattle.std.specs.Prelude.{◌≡◌, ◌+◌, ◌*◌, ◌<◌, ◌≤◌, length, get_or};
ghost use Rattle.std.specs.Int.Signed.{lt_z};
ghost use Rattle.layout.specs.Records.{record_words};
ghost use Rattle.searches.specs.Search.{above_best};
ghost use Rattle.records.specs.Structs.{no_record, places, bytes_in, record_in, places_in};
ghost use Rattle.records.specs.Moves.{Removed, Appended};

use rows::{PATH_ROOM, RECORD_WORDS};

// A record as a host holds it: its path is the first `depth` of the bytes. In a C host it has 96 bytes and no padding.
#[repr(C)]
#[derive(Clone, Copy)]
pub struct Record {
    pub capacity: u64,
    pub value: i64,
    pub bound: i64,
    pub depth: u64,
    pub path: [u8; 64],
}

// A record all 0.
pub fn empty() -> Record
    ensures { result ≡ no_record }
{
    Record {
        capacity: 0,
        value: 0,
        bound: 0,
        depth: 0,
        path: [0u8; 64],
    }
}

// The record in a place of the list, or an empty one beyond its end.
pub fn get(rs: &[Record], i: usize) -> Record
    ensures { result ≡ get_or rs.now i no_record }
{
    rs.get(i).copied().unwrap_or(empty())
}

// Of the first n records those after place `at` move down by one. Place n - 1 and those behind it keep what they held.
// The list is passed whole, with n beside it, since the promise speaks of the places behind the first n too.
#[tactic(auto, using(crate::proofs::Removing::removed))]
pub fn remove(rs: &mut [Record], at: usize, n: usize)
    requires { (at < n) × (n ≤ length rs.old) }
    ensures { Removed at n (places rs.old) (places rs.new) }
{
    rs.copy_within(at + 1..n, at);
}

// A path's bytes, one in each word from place `from` on.
#[tactic(auto, using(crate::proofs::Words::bytes_read))]
fn read_path(words: &[u64], from: usize) -> [u8; 64]
    requires { from + 64 ≤ length words.now }
    ensures { result ≡ bytes_in words.now from }
{
    let mut path = [0u8; 64];
    for i in 0..PATH_ROOM {
        path[i] = (words[from + i] % 256) as u8;
    }
    path
}

// Record number i of a flat list of words.
#[tactic(auto, using(crate::proofs::Words::record_read))]
pub fn from_words(words: &[u64], i: usize) -> Record
    requires { i * record_words + record_words ≤ length words.now }
    ensures { result ≡ record_in words.now i }
{
    let at = i * RECORD_WORDS;
    Record {
        capacity: words[at],
        value: words::number(words[at + 1]),
        bound: words::number(words[at + 2]),
        depth: words[at + 3],
        path: read_path(words, at + 4),
    }
}

// Whether the bound of record number i is strictly above the best value.
#[tactic(auto, unfolding(crate::specs::Structs::record_in))]
fn is_above(words: &[u64], i: usize, best: i64) -> bool
    requires { i * record_words + record_words ≤ length words.now }
    ensures { result ≡ lt_z best (record_in words.now i).bound }
{
    best < words::number(words[i * RECORD_WORDS + 2])
}

// How many of the first n records have a bound strictly above the best value. The number stays beside the words: a slice of so many would have to be of whole records.
// A `for`: of `(0..n).filter(..).count()` over `is_above` the check proved no count.
#[tactic(auto, using(crate::proofs::Chosen::counting))]
pub fn count_above(words: &[u64], n: usize, best: i64) -> usize
    requires { n * record_words ≤ length words.now }
    ensures { result ≡ length (above_best best (places_in n words.now)) }
{
    let mut k = 0;
    for j in 0..n {
        if is_above(words, j, best) {
            k += 1;
        }
    }
    k
}

// Stores those of the first n records of the words whose bound is strictly above the best value at place `at` and behind it, in order, and answers the new count.
#[tactic(auto, using(crate::proofs::Chosen::storing))]
pub fn append_above(rs: &mut [Record], at: usize, words: &[u64], n: usize, best: i64) -> usize
    requires { (n * record_words ≤ length words.now) × (at + length (above_best best (places_in n words.now)) ≤ length rs.old) }
    ensures { Appended at (above_best best (places_in n words.now)) (places rs.old) result (places rs.new) }
{
    let mut k = at;
    for j in 0..n {
        if is_above(words, j, best) {
            rs[k] = from_words(words, j);
            k += 1;
        }
    }
    k
}
