// Reads requests for `start` and `pick` from standard input and answers each with what the call answers and leaves in the lent lists and tables. tools/search/README.md has the format.
#![tactic(auto)]

mod answers;
mod requests;

use answers::{put_records, put_search};
use lines::Answering;
use lines::input::{Input, Stop};
use lines::output::Output;
use lines::tables::{Tables, first_words};
use requests::Asked;
use search::Search;

// The tables and the scratch list whose first words requests are lent.
// No `Tables`: that and `Answering` are both `lines`'s. No field of it either: tried, and lending its slices on in `turn` isn't covered by the borrow checker.
#[derive(Drop)]
struct Replay<'a> {
    nodes: &'a mut [u64],
    edges: &'a mut [u64],
    scratch: &'a mut [u64],
}

// What stands in the place of a search where a start is refused.
const NO_SEARCH: Search = Search {
    best: 0,
    held: false,
    path: [0; 64],
    opened: 0,
    picks: 0,
};

// A start, with its answer. It is lent no table and no scratch list, so none of their words changes.
fn answer_start<R: Print>(output: &mut Output<R>, asked: &Asked) {
    let mut list = asked.list;
    let lent = &mut list[..asked.places()];
    let a = search::start(
        asked.weights(),
        asked.profits(),
        asked.ask(),
        asked.bound(),
        lent,
    );
    put_search(output, a, NO_SEARCH);
    put_records(output, &list[..asked.places()]);
    output.put_all(&[0u64, 0, 0]);
}

// A pick over these tables, the last of which is its scratch list, with its answer.
fn answer_pick<R: Print>(output: &mut Output<R>, asked: &Asked, tables: &mut Tables) {
    tables.fill(&asked.head);
    let before = asked.search();
    let mut list = asked.list;
    let a = pick::pick(
        asked.weights(),
        asked.profits(),
        tables.nodes,
        tables.edges,
        &mut list[..asked.places()],
        tables.records,
        asked.ask(),
        asked.place(),
        before,
    );
    put_search(output, a, before);
    put_records(output, &list[..asked.places()]);
    tables.put(output, &asked.head);
}

impl Answering for Replay<'_> {
    fn turn<R: std::io::Input + Print>(
        &mut self,
        input: &mut Input<R>,
        output: &mut Output<R>,
    ) -> Result<(), Stop> {
        let asked = Asked::read(input)?;
        if asked.is_start() {
            answer_start(output, &asked);
        } else {
            let nodes = first_words(&mut *self.nodes, asked.head[12]);
            let edges = first_words(&mut *self.edges, asked.head[13]);
            let records = first_words(&mut *self.scratch, asked.head[14]);
            let mut tables = Tables {
                nodes,
                edges,
                records,
            };
            answer_pick(output, &asked, &mut tables);
        }
        output.end_line();
        Ok(())
    }
}

// The tables and the scratch list are the largest that a request may ask for: `requests::MOST`.
fn main(rt: HostRuntime) {
    let mut nodes = [0; 16384];
    let mut edges = [0; 16384];
    let mut scratch = [0; 16384];
    let mut program = Replay {
        nodes: &mut nodes,
        edges: &mut edges,
        scratch: &mut scratch,
    };
    lines::serve(&rt, "search_replay", &mut program);
}
