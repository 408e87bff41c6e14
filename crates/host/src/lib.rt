// The calls for hosts: compile, start, pick and a job's run, over lent slices and structs of plain numbers. `host_c` exports them under the same names to C.
#![tactic(auto)]

ghost use Rattle.records.specs.Structs.{places};
ghost use Rattle.calls.specs.Compile.{compile};
ghost use Rattle.searches.specs.Start.{start};
ghost use Rattle.searches.specs.Pick.{pick};
ghost use Rattle.search.specs.Asked.{problem_of};
ghost use Rattle.compile.specs.Asked.{lent_of};
ghost use Rattle.query.specs.Queried.{asked_by};
ghost use Rattle.pick_steps.specs.Tried.{asked_in, held_in};
ghost use Rattle.search.specs.Held.{search_of};
ghost use Rattle.border.specs.Border.{ask_in, query_in, search_in};
ghost use Rattle.host.specs.Promises.{CompilesFor, StartsFor, PicksFor, RunsFor};

use border::{Found, HostSearch, Page, Question, Terms};
use query::Query;
use records::Record;
use search::{Ask, Search};

// Compiles a record: `found` is written, accepted or refused. The list of drained records is words, as the tables are.
pub fn jambtulip_compile(
    weights: &[u64],
    profits: &[u64],
    nodes: &mut [u64],
    edges: &mut [u64],
    records: &mut [u64],
    question: Question,
    found: &mut Found,
) -> u64
    ensures { CompilesFor
        (compile (asked_by weights.now profits.now (query_in question)) (lent_of nodes.old edges.old records.old))
        result found.new nodes.new edges.new records.new }
{
    let query = Query::from(question);
    match query::compile_record(weights, profits, nodes, edges, records, query) {
        Ok(compiled) => {
            *found = Found::from(compiled);
            0
        }
        Err(refusal) => {
            *found = Found::nothing();
            refusal.number()
        }
    }
}

// Starts a search: its root stands in the list's first place. A refused start changes nothing.
pub fn jambtulip_start(
    weights: &[u64],
    profits: &[u64],
    terms: Terms,
    bound: i64,
    list: &mut [Record],
    s: &mut HostSearch,
) -> u64
    ensures { StartsFor (start (problem_of weights.now profits.now terms.page terms.width) bound (places list.old)) result
        s.old s.new (places list.new) }
{
    match search::start(weights, profits, Ask::from(terms), bound, list) {
        Ok(started) => {
            *s = HostSearch::from(started);
            0
        }
        Err(refusal) => refusal.number(),
    }
}

// Picks the open record in that place of the list. A refused pick leaves search and list as they were.
pub fn jambtulip_pick(
    weights: &[u64],
    profits: &[u64],
    nodes: &mut [u64],
    edges: &mut [u64],
    list: &mut [Record],
    scratch: &mut [u64],
    terms: Terms,
    place: usize,
    s: &mut HostSearch,
) -> u64
    ensures { PicksFor
        (pick (asked_in weights.now profits.now (ask_in terms) place) (search_of (search_in s.old)) (held_in (places list.old) nodes.old edges.old scratch.old))
        result s.old s.new nodes.new edges.new (places list.new) scratch.new }
{
    let ask = Ask::from(terms);
    let before = Search::from(*s);
    match pick::pick(
        weights, profits, nodes, edges, list, scratch, ask, place, before,
    ) {
        Ok(picked) => {
            *s = HostSearch::from(picked);
            0
        }
        Err(refusal) => refusal.number(),
    }
}

// Answers a job's text: `page` is written, accepted or refused.
pub fn jambtulip_run_job(
    text: &[u8],
    nodes: &mut [u64],
    edges: &mut [u64],
    list: &mut [Record],
    scratch: &mut [u64],
    page: &mut Page,
) -> u64
    ensures { RunsFor text.now (held_in (places list.old) nodes.old edges.old scratch.old) result
        page.new (held_in (places list.new) nodes.new edges.new scratch.new) }
{
    let ran = job::run_text(text, nodes, edges, list, scratch);
    *page = Page::from(job::written(ran));
    match ran {
        Ok(_) => 0,
        Err(refusal) => refusal.number(),
    }
}
