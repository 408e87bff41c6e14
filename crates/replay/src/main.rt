// Reads requests for `compile` from standard input and answers each with what the call answers and leaves in the lent tables. tools/oracle/README.md has the format.
#![tactic(auto)]

mod answers;
mod requests;

use lines::Answering;
use lines::input::{Input, Stop};
use lines::output::Output;
use lines::tables::{Tables, first_words};
use requests::Asked;

// The tables whose first words requests are lent.
// No `Tables`: that and `Answering` are both `lines`'s. No field of it either: tried, and lending its slices on in `turn` isn't covered by the borrow checker.
#[derive(Drop)]
struct Replay<'a> {
    nodes: &'a mut [u64],
    edges: &'a mut [u64],
    records: &'a mut [u64],
}

// The call over these tables, with its answer.
fn answer<R: Print>(output: &mut Output<R>, asked: &Asked, tables: &mut Tables) {
    tables.fill(&asked.head);
    let a = compile::compile(
        asked.weights(),
        asked.profits(),
        tables.nodes,
        tables.edges,
        tables.records,
        asked.request(),
        asked.path(),
    );
    answers::put_answer(output, a);
    tables.put(output, &asked.head);
    output.end_line();
}

impl Answering for Replay<'_> {
    fn turn<R: std::io::Input + Print>(
        &mut self,
        input: &mut Input<R>,
        output: &mut Output<R>,
    ) -> Result<(), Stop> {
        let asked = Asked::read(input)?;
        let nodes = first_words(&mut *self.nodes, asked.head[12]);
        let edges = first_words(&mut *self.edges, asked.head[13]);
        let records = first_words(&mut *self.records, asked.head[14]);
        let mut tables = Tables {
            nodes,
            edges,
            records,
        };
        answer(output, &asked, &mut tables);
        Ok(())
    }
}

// The tables are the largest that a request may ask for: `requests::MOST`.
fn main(rt: HostRuntime) {
    let mut nodes = [0; 233904];
    let mut edges = [0; 216585];
    let mut records = [0; 139264];
    let mut program = Replay {
        nodes: &mut nodes,
        edges: &mut edges,
        records: &mut records,
    };
    lines::serve(&rt, "replay", &mut program);
}
