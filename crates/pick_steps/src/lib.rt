// A pick but for its open list: what it decides, by value, and its compile, in tables of words.
#![tactic(auto)]

ghost use Rattle.std.specs.Prelude.{◌≡◌};
ghost use Rattle.reasons.specs.Numbers.{numbered};
ghost use Rattle.refusals.specs.Verdict.{refusal_of};
ghost use Rattle.compile.specs.Asked.{lent_of};
ghost use Rattle.records.specs.Structs.{place_from};
ghost use Rattle.searches.specs.Places.{given_at};
ghost use Rattle.search.specs.Held.{search_of};
ghost use Rattle.search.specs.Asked.{problem_of};
ghost use Rattle.query.specs.Queried.{asked_by};
ghost use Rattle.pick_steps.specs.Steps.{numbers_of, query_from, wanted, compile_if, Explores};
ghost use Rattle.pick_steps.specs.Tried.{Tries};

use grow::Mode;
use query::Query;
use reasons::Refusal;
use records::Record;
use search::{Ask, Search};

// What a picked record comes to: the search with the best value of both, and how many records of the scratch list are looked at.
#[derive(Clone, Copy)]
struct Found {
    search: Search,
    drained: usize,
}

// What an accepted pick comes to before its open list changes: the search after it, how many records were open, and how many of the scratch list are looked at.
#[derive(Clone, Copy)]
pub struct Change {
    pub search: Search,
    pub opened: usize,
    pub drained: usize,
}

// Refusals 1 to 6, 14, then 7 to 9 of the record in the place.
#[tactic(auto, using(crate::proofs::Numbers::number_rules))]
fn checked(
    weights: &[u64],
    profits: &[u64],
    ask: Ask,
    place: usize,
    s: Search,
    r: Record,
    places: usize,
) -> Result<(), Refusal>
    ensures { refusal_of result ≡ numbers_of (problem_of weights.now profits.now ask.page ask.width) (search_of s) place places
        (given_at (place_from r)) }
{
    let items = search::pick_verdict(weights, profits, ask.page, ask.width, s, place, places)?;
    search::record_verdict(items, ask.page, r)
}

// What is compiled for a picked record: relaxed, with the best value as lower bound.
fn query_of(ask: Ask, s: Search, r: Record) -> Query
    ensures { result ≡ query_from ask s r }
{
    Query {
        page: ask.page,
        width: ask.width,
        mode: Mode::Relaxed,
        kind: ask.kind,
        lower: s.best,
        root: r,
    }
}

// Compiles a record whose bound is above the best value; else the tables and the list stay as they are, and nothing is found.
// A larger exact value replaces best and path; an exact diagram's records are not looked at.
#[tactic(auto, using(crate::proofs::Ways::idles))]
fn explored(
    weights: &[u64],
    profits: &[u64],
    nodes: &mut [u64],
    edges: &mut [u64],
    scratch: &mut [u64],
    ask: Ask,
    s: Search,
    r: Record,
) -> Result<Found, Refusal>
    ensures { Explores
        (compile_if (wanted s r) (asked_by weights.now profits.now (query_from ask s r)) (lent_of nodes.old edges.old scratch.old))
        s (numbered result) nodes.new edges.new scratch.new }
{
    if s.best >= r.bound {
        return Ok(Found {
            search: s,
            drained: 0,
        });
    }
    let c = query::compile_record(weights, profits, nodes, edges, scratch, query_of(ask, s, r))?;
    Ok(Found {
        search: s.better(c.best_exact, c.exact_path),
        drained: if c.exact { 0 } else { c.drained },
    })
}

// A pick of record r, which stands in that place of a list of `places` places: all but the open list after it.
#[tactic(auto, using(crate::proofs::Whole::trying))]
pub fn tried(
    weights: &[u64],
    profits: &[u64],
    nodes: &mut [u64],
    edges: &mut [u64],
    scratch: &mut [u64],
    ask: Ask,
    place: usize,
    s: Search,
    r: Record,
    places: usize,
) -> Result<Change, Refusal>
    ensures { Tries weights.now profits.now ask place s r places nodes.old edges.old scratch.old (numbered result)
        nodes.new edges.new scratch.new }
{
    checked(weights, profits, ask, place, s, r, places)?;
    let found = explored(weights, profits, nodes, edges, scratch, ask, s, r)?;
    let more = records::count_above(scratch, found.drained, found.search.best);
    let others = s.opened - 1;
    if more > places - others {
        return Err(Refusal::RecordsFull);
    }
    Ok(Change {
        search: found.search.one_pick_more(others + more),
        opened: s.opened,
        drained: found.drained,
    })
}
