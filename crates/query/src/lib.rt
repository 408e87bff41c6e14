// A compile of a record struct: what it is asked, and the record's path handed on as the first of its bytes.
#![tactic(auto)]

ghost use Rattle.std.specs.Prelude.{◌≡◌};
ghost use Rattle.calls.specs.Compile.{compile};
ghost use Rattle.compile.specs.Asked.{lent_of};
ghost use Rattle.compile.specs.Answered.{Answers};
ghost use Rattle.reasons.specs.Numbers.{numbered};
ghost use Rattle.query.specs.Queried.{request_in, path_length, asked_by};

use compile::{Compiled, Request};
use cutset::Kind;
use grow::Mode;
use reasons::Refusal;
use records::Record;

// What a compile of a record struct is asked: the page and how to compile it, and the record.
#[derive(Clone, Copy)]
pub struct Query {
    pub page: u64,
    pub width: u64,
    pub mode: Mode,
    pub kind: Kind,
    pub lower: i64,
    pub root: Record,
}

fn request_in(q: Query) -> Request
    ensures { result ≡ request_in q }
{
    Request {
        page: q.page,
        width: q.width,
        mode: q.mode,
        kind: q.kind,
        lower: q.lower,
        capacity: q.root.capacity,
        value: q.root.value,
        bound: q.root.bound,
        depth: q.root.depth,
    }
}

// How many bytes of the record are its path: `depth`, but never more than it has.
fn path_length(q: Query) -> usize
    ensures { result ≡ path_length q }
{
    q.root.depth.min(64) as usize
}

// `compile::compile` of a record struct.
pub fn compile_record(
    weights: &[u64],
    profits: &[u64],
    nodes: &mut [u64],
    edges: &mut [u64],
    records: &mut [u64],
    q: Query,
) -> Result<Compiled, Refusal>
    ensures { Answers
        (compile (asked_by weights.now profits.now q) (lent_of nodes.old edges.old records.old))
        (numbered result) nodes.new edges.new records.new }
{
    let path = &q.root.path[..path_length(q)];
    compile::compile(weights, profits, nodes, edges, records, request_in(q), path)
}
