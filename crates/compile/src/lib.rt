// The public call `compile`: refusals 1 to 9, then a record's diagram grown and finished in the lent tables, its records drained into the lent list.
#![tactic(auto)]

ghost use Rattle.std.specs.Prelude.{◌≡◌, ◌≤◌, length};
ghost use Rattle.std.proofs.Math.Option.{none};
ghost use Rattle.diagram.specs.Record.{padded};
ghost use Rattle.calls.specs.Refusals.{compile_refusal};
ghost use Rattle.calls.specs.Compile.{compile, rooms_of};
ghost use Rattle.reasons.specs.Numbers.{numbered};
ghost use Rattle.finalize.specs.Given.{Finalizable};
ghost use Rattle.compile.specs.Asked.{problem_of, given_of, request_of, lent_of, task_from, root_from, given_from};
ghost use Rattle.compile.specs.Answered.{finishing, ran_effect, Effected, Concluded, Answers};

use blocks::Items;
use branch::Rooms;
use cutset::Kind;
use finalize::{Finished, Given};
use grow::{Growth, Mode, Root, Task};
use layers::Layers;
use reasons::Refusal;

// What a compile is asked beside weights, profits and the record's path: the page and how to compile it, then the record. No run reads the record's bound.
#[derive(Clone, Copy)]
pub struct Request {
    pub page: u64,
    pub width: u64,
    pub mode: Mode,
    pub kind: Kind,
    pub lower: i64,
    pub capacity: u64,
    pub value: i64,
    pub bound: i64,
    pub depth: u64,
}

// What an accepted compile answers. 'A refusing compile gives its number alone.'
#[derive(Clone, Copy)]
pub struct Compiled {
    pub exact: bool,
    pub best: Option<i64>,
    pub path: [u8; 64],
    pub best_exact: Option<i64>,
    pub exact_path: [u8; 64],
    pub nodes: usize,
    pub edges: usize,
    pub drained: usize,
    pub layers: Layers,
}

// A record's path of 64 bytes at most, 0 in the places past it.
fn places_of(path: &[u8]) -> [u8; 64]
    requires { length path.now ≤ 64 }
    ensures { result ≡ padded path.now }
{
    let mut places = [0; 64];
    places[..path.len()].copy_from_slice(path);
    places
}

// A finished run's answer, or its refusal where the list has no places for its records.
fn answer_of(f: Finished, g: Growth) -> Result<Compiled, Refusal>
    ensures { numbered result ≡ finishing (numbered f.drained) f g }
{
    let drained = f.drained?;
    let Finished {
        path,
        exact_path,
        ..
    } = f;
    Ok(Compiled {
        exact: f.exact,
        best: f.best,
        path,
        best_exact: f.best_exact,
        exact_path,
        nodes: g.counts.nodes,
        edges: g.counts.edges,
        drained,
        layers: g.layers,
    })
}

// What the run is told: the rows that the tables' words make, and the lower bound as a word.
fn task_of(q: Request, node_words: usize, edge_words: usize) -> Task
    ensures { result ≡ task_from q node_words edge_words }
{
    Task {
        mode: q.mode,
        width: q.width as usize,
        lower: words::word(q.lower),
        rooms: Rooms {
            nodes: node_words / rows::NODE_WORDS,
            edges: edge_words / rows::EDGE_WORDS,
        },
    }
}

fn root_of(q: Request) -> Root
    ensures { result ≡ root_from q }
{
    Root {
        capacity: q.capacity,
        value: words::word(q.value),
        depth: q.depth as usize,
    }
}

// What the run's end is told of the record, and how many records the list's words make.
fn given_of(q: Request, path: &[u8], record_words: usize) -> Given
    requires { length path.now ≤ 64 }
    ensures { result ≡ given_from q path.now record_words }
{
    Given {
        path: places_of(path),
        depth: q.depth as usize,
        room: record_words / rows::RECORD_WORDS,
    }
}

// The end of a grown run.
fn conclude(
    nodes: &mut [u64],
    edges: &[u64],
    records: &mut [u64],
    g: Growth,
    relaxed: bool,
    kind: Kind,
    given: Given,
) -> Result<Compiled, Refusal>
    requires { Finalizable g.counts g.start g.layers g.last given nodes.old edges.now records.old }
    ensures { Concluded g relaxed kind given nodes.old edges.now records.old (numbered result) nodes.new records.new }
{
    let f = finalize::finalize(
        nodes, edges, records, g.counts, g.start, g.layers, g.last, relaxed, kind, given,
    );
    answer_of(f, g)
}

// The run of a request that passed refusals 1 to 9.
fn run(
    items: Items,
    nodes: &mut [u64],
    edges: &mut [u64],
    records: &mut [u64],
    q: Request,
    path: &[u8],
) -> Result<Compiled, Refusal>
    requires { compile_refusal (problem_of items.weights.now items.profits.now q) (given_of q path.now) ≡ none }
    ensures { Effected
        (ran_effect (request_of items.entry.weights.now items.entry.profits.now q path.now)
        (rooms_of (lent_of nodes.old edges.old records.old)))
        nodes.old edges.old records.old (numbered result) nodes.new edges.new records.new }
{
    let t = task_of(q, nodes.len(), edges.len());
    let r = root_of(q);
    let g = grow::grow(nodes, edges, items, t, r).map_err(|stop| stop.refusal)?;
    let given = given_of(q, path, records.len());
    conclude(nodes, edges, records, g, q.mode.relaxes(), q.kind, given)
}

// `compile` of clean.rs, for one record of a block problem. The slices are lent one by one, here and in the calls above: weights and profits are what is checked, and a struct
// that held the tables and the list would want a clause more in each promise, that it keeps its references.
pub fn compile(
    weights: &[u64],
    profits: &[u64],
    nodes: &mut [u64],
    edges: &mut [u64],
    records: &mut [u64],
    q: Request,
    path: &[u8],
) -> Result<Compiled, Refusal>
    ensures { Answers
        (compile (request_of weights.now profits.now q path.now) (lent_of nodes.old edges.old records.old))
        (numbered result) nodes.new edges.new records.new }
{
    let items = refusals::compile_refusal(
        weights, profits, q.page, q.width, q.capacity, q.value, q.depth, path,
    )?;
    run(items, nodes, edges, records, q, path)
}
