// What crosses the border to a C or Rust host: structs of plain numbers, what a host's numbers ask, and what it reads of each answer.
#![tactic(auto)]

ghost use Rattle.std.specs.Prelude.{◌≡◌, map};
ghost use Rattle.border.specs.Border.{kind_in, mode_in, ask_in, query_in, search_in, host_search_of, found_in, nothing_found, shown_of};

use compile::Compiled;
use cutset::Kind;
use grow::Mode;
use layers::Layer;
use page_text::Output;
use query::Query;
use records::Record;
use search::{Ask, Search};

// How a search is asked: the page, the width, and the cutset's number, 0 for the last exact layer and any other for the frontier.
#[repr(C)]
#[derive(Clone, Copy)]
pub struct Terms {
    pub page: u64,
    pub width: u64,
    pub cut: u64,
}

// What a compile is asked: the mode's number is 0 for exact, 1 for restricted and any other for relaxed.
#[repr(C)]
#[derive(Clone, Copy)]
pub struct Question {
    pub page: u64,
    pub width: u64,
    pub mode: u64,
    pub cut: u64,
    pub lower: i64,
    pub root: Record,
}

// What a compile found. A flag is 1 or 0; a value whose flag is 0 is 0, and so is its path. Refused, all is 0. C interface: flags are plain numbers beside their values.
#[repr(C)]
#[derive(Clone, Copy)]
pub struct Found {
    pub exact: u64,
    pub has_best: u64,
    pub best: i64,
    pub path: [u8; 64],
    pub has_best_exact: u64,
    pub best_exact: i64,
    pub exact_path: [u8; 64],
    pub nodes: usize,
    pub edges: usize,
    pub drained: usize,
    pub layers: usize,
    pub from: [usize; 65],
    pub to: [usize; 65],
}

// A search as a host lends it: a path is held unless `held` is 0. C interface: a plain number, not an option.
#[repr(C)]
#[derive(Clone, Copy)]
pub struct HostSearch {
    pub best: i64,
    pub held: u64,
    pub path: [u8; 64],
    pub opened: usize,
    pub picks: u64,
}

// A job's answer: the first `count` bytes. Those behind them are 0, and so is `end`, so that the text is a C string too.
#[repr(C)]
#[derive(Clone, Copy)]
pub struct Page {
    pub count: usize,
    pub bytes: [u8; 671],
    pub end: u8,
}

// The cutset of a host's number. No `From`: neither `u64` nor `Kind` is this crate's.
fn kind_in(cut: u64) -> Kind
    ensures { result ≡ kind_in cut }
{
    match cut {
        0 => Kind::LastExactLayer,
        _ => Kind::Frontier,
    }
}

// The mode of a host's number. No `From`: neither `u64` nor `Mode` is this crate's.
fn mode_in(mode: u64) -> Mode
    ensures { result ≡ mode_in mode }
{
    match mode {
        0 => Mode::Exact,
        1 => Mode::Restricted,
        _ => Mode::Relaxed,
    }
}

// What a search is asked, from a host's numbers.
impl From<Terms> for Ask {
    ghost from_gives = { λ t a. a ≡ ask_in t };

    fn from(t: Terms) -> Ask {
        Ask {
            page: t.page,
            width: t.width,
            kind: kind_in(t.cut),
        }
    }
}

// What a compile is asked, from a host's numbers.
impl From<Question> for Query {
    ghost from_gives = { λ q a. a ≡ query_in q };

    fn from(q: Question) -> Query {
        Query {
            page: q.page,
            width: q.width,
            mode: mode_in(q.mode),
            kind: kind_in(q.cut),
            lower: q.lower,
            root: q.root,
        }
    }
}

// The layers' first rows, and the rows behind their last, each at its layer's index. By a loop: two `map`s took some 37 instructions a place.
#[tactic(auto, using(crate::proofs::Arrays::columns))]
fn columns(rows: [Layer; layers::MOST]) -> ([usize; 65], [usize; 65])
    ensures from { result.0 ≡ map (λ l. l.from) rows }
    ensures to { result.1 ≡ map (λ l. l.to) rows }
{
    let mut from = [0; 65];
    let mut to = [0; 65];
    for i in 0..65 {
        from[i] = rows[i].from;
        to[i] = rows[i].to;
    }
    (from, to)
}

// What an accepted compile found, as a host reads it.
impl From<Compiled> for Found {
    ghost from_gives = { λ c f. f ≡ found_in c };

    fn from(c: Compiled) -> Found {
        let (from, to) = columns(c.layers.rows);
        let path = c.path;
        let exact_path = c.exact_path;
        Found {
            exact: u64::from(c.exact),
            has_best: u64::from(c.best.is_some()),
            best: c.best.unwrap_or(0),
            path,
            has_best_exact: u64::from(c.best_exact.is_some()),
            best_exact: c.best_exact.unwrap_or(0),
            exact_path,
            nodes: c.nodes,
            edges: c.edges,
            drained: c.drained,
            layers: c.layers.count,
            from,
            to,
        }
    }
}

impl Found {
    // What a refused compile leaves: all is 0.
    pub fn nothing() -> Found
        ensures { result ≡ nothing_found }
    {
        Found {
            exact: 0,
            has_best: 0,
            best: 0,
            path: [0; 64],
            has_best_exact: 0,
            best_exact: 0,
            exact_path: [0; 64],
            nodes: 0,
            edges: 0,
            drained: 0,
            layers: 0,
            from: [0; 65],
            to: [0; 65],
        }
    }
}

// A host's search as the calls hold it.
impl From<HostSearch> for Search {
    ghost from_gives = { λ h s. s ≡ search_in h };

    fn from(h: HostSearch) -> Search {
        let HostSearch {
            best,
            held,
            path,
            opened,
            picks,
        } = h;
        Search {
            best,
            held: held != 0,
            path,
            opened,
            picks,
        }
    }
}

// A search as a host holds it.
impl From<Search> for HostSearch {
    ghost from_gives = { λ s h. h ≡ host_search_of s };

    fn from(s: Search) -> HostSearch {
        let Search {
            best,
            held,
            path,
            opened,
            picks,
        } = s;
        HostSearch {
            best,
            held: u64::from(held),
            path,
            opened,
            picks,
        }
    }
}

// A job's answer, as a host reads it.
impl From<Output> for Page {
    ghost from_gives = { λ o p. p ≡ shown_of o };

    fn from(o: Output) -> Page {
        let Output { bytes, count } = o;
        Page {
            count,
            bytes,
            end: 0,
        }
    }
}
