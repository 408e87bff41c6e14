// `_finalize` of clean.rs: a grown diagram's best node and best exact node, exactness, local bounds, cutset and drained records, with the values and paths that are answered.
#![tactic(auto)]

ghost use Rattle.std.specs.Prelude.{◌≡◌, ◌*◌, ◌≤◌, length};
ghost use Rattle.layout.specs.Rows.{node_words};
ghost use Rattle.reasons.specs.Numbers.{numbered};
ghost use Rattle.finish.specs.Terminals.{Readable};
ghost use Rattle.finalize.specs.Given.{Finalizable};
ghost use Rattle.finalize.specs.Judged.{BestExactFound, Judgeable, Judges};
ghost use Rattle.finalize.specs.Standing.{Cuttable, CutsetDone, Standable, RowsFinished};
ghost use Rattle.finalize.specs.Answers.{ValueTold, Walkable, PathTold, Answerable, Answered};
ghost use Rattle.finalize.specs.Ended.{Finalized};

use branch::Counts;
use cutset::{Kind, Route, Wanted};
use layers::{Layer, Layers};
use reasons::Refusal;
use rows::NodeId;

// What a finished run answers, with how many records were drained, or that the list has no places for them. A path without
// a value is all 0, as the definition of an answer (`path_of`) has it.
#[derive(Clone, Copy)]
pub struct Finished {
    pub exact: bool,
    pub best: Option<i64>,
    pub path: [u8; 64],
    pub best_exact: Option<i64>,
    pub exact_path: [u8; 64],
    pub drained: Result<usize, Refusal>,
}

// The record that was compiled, as far as its run's end needs it: its path, of which `depth` places count, since memory is fixed;
// and how many records the list has room for.
#[derive(Clone, Copy)]
pub struct Given {
    pub path: [u8; 64],
    pub depth: usize,
    pub room: usize,
}

// A grown run, as far as its rows' end needs it: how many rows it has, the record that was compiled, whether it is relaxed, and which
// rows its cutset goes through.
#[derive(Clone, Copy)]
struct Run {
    count: usize,
    given: Given,
    relaxed: bool,
    route: Route,
}

// What is known of a run before its rows are finished: whether it is exact, its best node and its best exact node.
#[derive(Clone, Copy)]
struct Judged {
    exact: bool,
    best: Option<NodeId>,
    best_exact: Option<NodeId>,
}

// Where the walk up the best path succeeded the best exact node is the best node; else it is the best of the exact terminals.
#[tactic(auto, using(crate::proofs::Verdict::best_exact))]
fn best_exact_node(
    nodes: &[u64],
    start: usize,
    count: usize,
    best: Option<NodeId>,
    walked: bool,
) -> Option<NodeId>
    requires { (start ≤ count) × (count * node_words ≤ length nodes.now) }
    ensures { BestExactFound nodes.now start count best walked result }
{
    if walked {
        return best;
    }
    finish::find_best_node(nodes, start, count, true)
}

// The best node and its walk up, the best exact node, and exactness.
fn judge(
    nodes: &[u64],
    edges: &[u64],
    start: usize,
    count: usize,
    last: Option<Layer>,
    relaxed: bool,
) -> Judged
    requires { Judgeable start count nodes.now edges.now }
    ensures { Judges start count last relaxed nodes.now edges.now result }
{
    let best = finish::find_best_node(nodes, start, count, false);
    let walked = finish::exact_path(nodes, edges, best, relaxed);
    let best_exact = best_exact_node(nodes, start, count, best, walked);
    Judged {
        exact: last.is_none() || walked,
        best,
        best_exact,
    }
}

// `_finalize_cutset` of clean.rs, then `_drain_cutset`: only relaxed diagrams have a cutset, and only with a best value it is drained.
#[tactic(auto, using(crate::proofs::Cut::cut))]
fn finalize_cutset(
    nodes: &mut [u64],
    edges: &[u64],
    records: &mut [u64],
    best: Option<NodeId>,
    run: Run,
) -> Result<usize, Refusal>
    requires { Cuttable run.count best run.given run.route.layers run.route.last nodes.old edges.now records.old }
    ensures { CutsetDone run.count best run.given run.route.layers run.route.kind run.route.last run.relaxed nodes.old
        edges.now records.old (numbered result) nodes.new records.new }
{
    if !run.relaxed {
        return Ok(0);
    }
    let Given { path, depth, room } = run.given;
    let Some(b) = best else {
        let w = Wanted {
            room: 0,
            best: 0,
            path,
            depth,
        };
        cutset::flag_cutset(nodes, edges, records, w, run.route);
        return Ok(0);
    };
    let w = Wanted {
        room,
        best: rows::read_value(nodes, b),
        path,
        depth,
    };
    cutset::drain(nodes, edges, records, run.count, w, run.route)
}

// Local bounds, then the cutset: marks, bottom values and flags are in the rows, and the drained records in the list.
#[tactic(auto, using(crate::proofs::Standing::rows_finished))]
fn finish_rows(
    nodes: &mut [u64],
    edges: &[u64],
    records: &mut [u64],
    best: Option<NodeId>,
    run: Run,
) -> Result<usize, Refusal>
    requires { Standable run.count best run.given run.route.layers run.route.last nodes.old edges.now records.old }
    ensures { RowsFinished run.count best run.given run.route.layers run.route.kind run.route.last run.relaxed nodes.old
        edges.now records.old (numbered result) nodes.new records.new }
{
    finish::compute_local_bounds(
        nodes,
        edges,
        run.route.layers,
        run.route.last.is_some(),
        run.relaxed,
    );
    finalize_cutset(nodes, edges, records, best, run)
}

// The value that is answered for a best node.
#[tactic(auto, using(crate::proofs::Told::values))]
fn value_of(nodes: &[u64], best: Option<NodeId>) -> Option<i64>
    requires { Readable (length nodes.now) best }
    ensures { ValueTold nodes.now best result }
{
    let Some(n) = best else {
        return None;
    };
    Some(words::number(rows::read_value(nodes, n)))
}

// The path that is answered for a best node.
#[tactic(auto, using(crate::proofs::Told::paths))]
fn path_of(nodes: &[u64], edges: &[u64], best: Option<NodeId>, given: Given) -> [u8; 64]
    requires { Walkable best given nodes.now edges.now }
    ensures { PathTold best given nodes.now edges.now result }
{
    let Some(n) = best else {
        return [0; 64];
    };
    finish::best_path(nodes, edges, n, given.path, given.depth).bytes
}

// The answer, read from the finished tables.
#[tactic(auto, using(crate::proofs::Told::value_asked))]
fn answers(
    nodes: &[u64],
    edges: &[u64],
    judged: Judged,
    given: Given,
    drained: Result<usize, Refusal>,
) -> Finished
    requires { Answerable judged given nodes.now edges.now }
    ensures { Answered judged given (numbered drained) nodes.now edges.now result }
{
    Finished {
        exact: judged.exact,
        best: value_of(nodes, judged.best),
        path: path_of(nodes, edges, judged.best, given),
        best_exact: value_of(nodes, judged.best_exact),
        exact_path: path_of(nodes, edges, judged.best_exact, given),
        drained,
    }
}

// Everything after the last layer. It takes the parts of what `grow` answers one by one, since it leans on nothing of `grow`.
#[tactic(auto, using(crate::proofs::Whole::finalized))]
pub fn finalize(
    nodes: &mut [u64],
    edges: &[u64],
    records: &mut [u64],
    k: Counts,
    start: usize,
    layers: Layers,
    last: Option<Layer>,
    relaxed: bool,
    kind: Kind,
    given: Given,
) -> Finished
    requires { Finalizable k start layers last given nodes.old edges.now records.old }
    ensures { Finalized k start layers last relaxed kind given nodes.old edges.now records.old result nodes.new
        records.new }
{
    let judged = judge(nodes, edges, start, k.nodes, last, relaxed);
    let run = Run {
        count: k.nodes,
        given,
        relaxed,
        route: Route { layers, last, kind },
    };
    let drained = finish_rows(nodes, edges, records, judged.best, run);
    answers(nodes, edges, judged, given, drained)
}
