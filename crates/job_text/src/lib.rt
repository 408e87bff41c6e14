// A job's text, read byte by byte: the place in the grammar, the number that is being read, and the job as far as it was read. `read` takes a whole text;
// `begin`, `step` and `ended` take one that comes a byte at a time.
#![tactic(auto)]

ghost use Rattle.std.specs.Prelude.{◌≡◌, List, [], ◌∷◌, ◌++◌, ℕ, ◌<◌};
ghost use Rattle.reasons.specs.Numbers.{numbered};
ghost use Rattle.jobs.specs.Text.{most_bytes};
ghost use Rattle.job_text.specs.Machine.{spelled_of, closed_of, pushed_of, counted_of, chosen_of, next_of, head_of, ends_item, whole_at};
ghost use Rattle.job_text.specs.Kept.{stored_at, moved_on, moved_with, overrun_of, taken_of, stepped_of, HasRead};
ghost use Rattle.job_text.specs.Reads.{ended_of, Reads};

use cutset::Kind;
use reasons::Refusal;

// How many items are kept; those behind them are counted only.
const ROOM: usize = 64;

// A text has no more bytes, and so no more items.
const MOST_BYTES: usize = 65535;

// From here on a number has nine digits, and no other may follow.
const NINE_DIGITS: u64 = 100000000;

// The parts of a job's text, each with what ends it: a word with its tab or line feed, or a number. Behind a fault nothing is read.
#[derive(Clone, Copy, PartialEq, Eq)]
pub enum Part {
    CapWord,
    Page,
    WidthWord,
    Width,
    CutWord,
    Choice,
    Lel,
    Frontier,
    ItemWord,
    Weight,
    Profit,
    Fault,
}

// Where in the text a reader stands: the part, how many of a word's letters were read or 1 behind a number's first digit, and the number.
#[derive(Clone, Copy)]
pub struct Place {
    pub part: Part,
    pub at: usize,
    pub number: u64,
}

// What a job has beside its items, and the weight of the item that is being read. A number stands here while it is being read too.
#[derive(Clone, Copy)]
pub struct Head {
    pub page: u64,
    pub width: u64,
    pub kind: Kind,
    pub weight: u64,
}

// A reader between two bytes. Fixed memory: two arrays, with one count for both.
#[derive(Drop)]
pub struct Reader {
    pub place: Place,
    pub head: Head,
    pub bytes: usize,
    pub count: usize,
    pub weights: [u64; 64],
    pub profits: [u64; 64],
}

// The job that a text is of: its first 64 items, 0 behind them, and how many items there are. Fixed memory: arrays, with one count for both.
#[derive(Clone, Copy)]
pub struct Job {
    pub page: u64,
    pub width: u64,
    pub kind: Kind,
    pub count: usize,
    pub weights: [u64; 64],
    pub profits: [u64; 64],
}

// The place from which no byte leads on.
const FAULT: Place = Place {
    part: Part::Fault,
    at: 0,
    number: 0,
};

// One letter of a word, behind which `then` follows.
#[tactic(auto, unfolding(crate::specs::Machine::spelled_of))]
fn spelled(p: Place, byte: u8, word: &[u8], then: Part) -> Place
    ensures { result ≡ spelled_of p byte word.now then }
{
    if p.at >= word.len() || word[p.at] != byte {
        return FAULT;
    }
    if p.at + 1 < word.len() {
        Place { at: p.at + 1, ..p }
    } else {
        Place {
            part: then,
            at: 0,
            ..p
        }
    }
}

// One digit more. A number has nine at most, and none behind a 0 in front.
#[tactic(auto, unfolding(crate::specs::Machine::pushed_of, crate::specs::Machine::grown, numbers::specs::Decimal::is_digit))]
fn pushed(p: Place, byte: u8) -> Place
    ensures { result ≡ pushed_of p byte }
{
    if !byte.is_ascii_digit() {
        return FAULT;
    }
    let digit = u64::from(byte - b'0');
    if p.at == 0 {
        return Place {
            at: 1,
            number: digit,
            ..p
        };
    }
    if p.number == 0 || p.number >= NINE_DIGITS {
        return FAULT;
    }
    Place {
        at: 1,
        number: p.number * 10 + digit,
        ..p
    }
}

// The end of a number, which has a digit at least.
#[tactic(auto, unfolding(crate::specs::Machine::closed_of))]
fn closed(p: Place, then: Part) -> Place
    ensures { result ≡ closed_of p then }
{
    if p.at == 0 {
        return FAULT;
    }
    Place {
        part: then,
        at: 0,
        ..p
    }
}

// One byte of a number, behind which comes the byte `end` and `then` follows.
#[tactic(auto, unfolding(crate::specs::Machine::counted_of))]
fn counted(p: Place, byte: u8, end: u8, then: Part) -> Place
    ensures { result ≡ counted_of p byte end then }
{
    if byte == end {
        closed(p, then)
    } else {
        pushed(p, byte)
    }
}

// The first letter of the cutset's name says which it is.
#[tactic(auto, unfolding(crate::specs::Machine::chosen_of))]
fn chosen(p: Place, byte: u8) -> Place
    ensures { result ≡ chosen_of p byte }
{
    match byte {
        b'l' => Place {
            part: Part::Lel,
            at: 1,
            ..p
        },
        b'f' => Place {
            part: Part::Frontier,
            at: 1,
            ..p
        },
        _ => FAULT,
    }
}

// The grammar: what each part is, and which part follows it.
#[tactic(auto, unfolding(crate::specs::Machine::next_of, crate::specs::Machine::next_from))]
fn next(p: Place, byte: u8) -> Place
    ensures { result ≡ next_of p byte }
{
    match p.part {
        Part::CapWord => spelled(p, byte, b"cap\t", Part::Page),
        Part::Page => counted(p, byte, b'\n', Part::WidthWord),
        Part::WidthWord => spelled(p, byte, b"width\t", Part::Width),
        Part::Width => counted(p, byte, b'\n', Part::CutWord),
        Part::CutWord => spelled(p, byte, b"cut\t", Part::Choice),
        Part::Choice => chosen(p, byte),
        Part::Lel => spelled(p, byte, b"lel\n", Part::ItemWord),
        Part::Frontier => spelled(p, byte, b"frontier\n", Part::ItemWord),
        Part::ItemWord => spelled(p, byte, b"item\t", Part::Weight),
        Part::Weight => counted(p, byte, b'\t', Part::Profit),
        Part::Profit => counted(p, byte, b'\n', Part::ItemWord),
        Part::Fault => p,
    }
}

// The head behind a byte of a part, with the number that the byte led to.
#[tactic(auto, unfolding(crate::specs::Machine::head_of))]
fn headed(part: Part, number: u64, h: Head) -> Head
    ensures { result ≡ head_of part number h }
{
    match part {
        Part::Page => Head { page: number, ..h },
        Part::Width => Head { width: number, ..h },
        Part::Lel => Head {
            kind: Kind::LastExactLayer,
            ..h
        },
        Part::Frontier => Head {
            kind: Kind::Frontier,
            ..h
        },
        Part::Weight => Head {
            weight: number,
            ..h
        },
        _ => h,
    }
}

// Whether a byte that leads from one part to the other ends an item.
#[tactic(auto, unfolding(crate::specs::Machine::ends_item, crate::specs::Machine::is_item_word))]
fn ends_item(from: Part, to: Part) -> bool
    ensures { result ≡ ends_item from to }
{
    from == Part::Profit && to == Part::ItemWord
}

// The list with a number in its place; behind the room the number is lost.
#[tactic(auto, unfolding(crate::specs::Kept::stored_at))]
fn stored(mut list: [u64; 64], at: usize, number: u64) -> [u64; 64]
    ensures { result ≡ stored_at list at number }
{
    if at < ROOM {
        list[at] = number;
    }
    list
}

// A reader that has read nothing.
#[tactic(auto, unfolding(crate::specs::Machine::run_of, crate::specs::Machine::run_from, crate::specs::Kept::weights_in, crate::specs::Kept::profits_in))]
pub fn begin() -> Reader
    ensures { HasRead [] result }
{
    Reader {
        place: Place {
            part: Part::CapWord,
            at: 0,
            number: 0,
        },
        head: Head {
            page: 0,
            width: 0,
            kind: Kind::LastExactLayer,
            weight: 0,
        },
        bytes: 0,
        count: 0,
        weights: [0u64; 64],
        profits: [0u64; 64],
    }
}

// The reader one byte on, at a place and with a head, where no item ends.
#[tactic(auto, unfolding(crate::specs::Kept::moved_on))]
fn moved(r: Reader, place: Place, head: Head) -> Reader
    requires { r.bytes < most_bytes }
    ensures { result ≡ moved_on r place head }
{
    Reader {
        place,
        head,
        bytes: r.bytes + 1,
        ..r
    }
}

// The same where an item ends.
#[tactic(auto, unfolding(crate::specs::Kept::moved_with))]
fn with_item(r: Reader, place: Place, head: Head) -> Reader
    requires { (r.bytes < most_bytes) × (r.count < most_bytes) }
    ensures { result ≡ moved_with r place head }
{
    let weights = stored(r.weights, r.count, head.weight);
    let profits = stored(r.profits, r.count, place.number);
    Reader {
        place,
        head,
        bytes: r.bytes + 1,
        count: r.count + 1,
        weights,
        profits,
    }
}

// A reader whose counts are at their end.
#[tactic(auto, unfolding(crate::specs::Kept::overrun_of))]
fn overrun(r: Reader) -> Reader
    ensures { result ≡ overrun_of r }
{
    Reader { place: FAULT, ..r }
}

// The reader behind one byte more of a text within the bound.
#[tactic(auto, unfolding(crate::specs::Kept::taken_of, crate::specs::Kept::moved_by))]
fn taken(r: Reader, byte: u8) -> Reader
    requires { (r.bytes < most_bytes) × (r.count < most_bytes) }
    ensures { result ≡ taken_of r byte }
{
    let place = next(r.place, byte);
    let head = headed(r.place.part, place.number, r.head);
    if ends_item(r.place.part, place.part) {
        with_item(r, place, head)
    } else {
        moved(r, place, head)
    }
}

// The reader behind one byte more, whatever the reader was. One whose counts are at their end goes to a fault.
#[tactic(auto, unfolding(crate::specs::Kept::stepped_of))]
pub fn step(r: Reader, byte: u8) -> Reader
    ensures { (result ≡ stepped_of r byte) × ((t : List ℕ) → HasRead t r → HasRead (t ++ (byte ∷ [])) result) }
{
    if r.bytes >= MOST_BYTES || r.count >= MOST_BYTES {
        overrun(r)
    } else {
        taken(r, byte)
    }
}

// Whether a text is whole at this place.
#[tactic(auto, unfolding(crate::specs::Machine::whole_at, crate::specs::Machine::is_item_word))]
fn whole_at(p: Place) -> bool
    ensures { result ≡ whole_at p }
{
    p.part == Part::ItemWord && p.at == 0
}

// The job that was read, at the text's end, whatever the reader is.
pub fn ended(r: Reader) -> Result<Job, Refusal>
    ensures { (numbered result ≡ ended_of r)
        × ((t : List ℕ) → HasRead t r → Reads t (numbered result)) }
{
    if !whole_at(r.place) {
        return Err(Refusal::NotAJob);
    }
    let weights = r.weights;
    let profits = r.profits;
    Ok(Job {
        page: r.head.page,
        width: r.head.width,
        kind: r.head.kind,
        count: r.count,
        weights,
        profits,
    })
}

// The job that a text is of, if it is one's.
pub fn read(text: &[u8]) -> Result<Job, Refusal>
    ensures { Reads text.now (numbered result) }
{
    let mut r = begin();
    for byte in text {
        r = step(r, *byte);
    }
    ended(r)
}
