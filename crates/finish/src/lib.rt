// What comes after the last layer in clean.rs: the best node and its walk up, the best path, and the local bounds.
#![tactic(auto)]

ghost use Rattle.std.specs.Prelude.{◌≡◌, true, cond, ◌&&◌, ◌||◌, ◌+◌, ◌*◌, ◌<◌, ◌≤◌, ltb, leb, eqb, length, take};
ghost use Rattle.words.specs.I64.{mid};
ghost use Rattle.diagram.specs.Node.{marked_with};
ghost use Rattle.diagram.specs.Record.{padded};
ghost use Rattle.diagram.specs.After5.{raise};
ghost use Rattle.layout.specs.Rows.{node_words};
ghost use Rattle.rows.specs.Values.{node_of};
ghost use Rattle.finish.specs.Bounds.{RowChanged, LayerGrounded, Newest, ParentsRaised, RowRaised, Upto, LayerRaised, Layered, LayersRaised, BoundsComputed};
ghost use Rattle.finish.specs.Paths.{PathFits, PathWritten};
ghost use Rattle.finish.specs.Sits.{Row};
ghost use Rattle.finish.specs.Walks.{WalkedUp, Ranked, PathJudged};
ghost use Rattle.finish.specs.Terminals.{Readable, Bettered, BestFound};

use layers::{Layer, Layers};
use rows::{Link, Node, NodeId};

// A path of so many bytes, 0 in the places past them. Both stand here since memory is fixed, and records and answers hold all 64 places.
#[derive(Clone, Copy)]
pub struct Path {
    pub bytes: [u8; 64],
    pub len: usize,
}

// Squash order: larger value, then larger capacity.
fn stands_first(a: Node, b: Node) -> bool
    ensures { result ≡ (ltb b.value a.value || (eqb b.value a.value && leb b.capacity a.capacity)) }
{
    (a.value, a.capacity) >= (b.value, b.capacity)
}

// The better one of row r and the best of the rows behind it.
#[tactic(auto, using(crate::proofs::Terminals::one_row))]
fn better_of(nodes: &[u64], r: NodeId, behind: Option<NodeId>, exact_only: bool) -> Option<NodeId>
    requires { (r.0 * node_words + node_words ≤ length nodes.now) × Readable (length nodes.now) behind }
    ensures { Bettered nodes.now r.0 behind exact_only result }
{
    let n = rows::read_node(nodes, r);
    if exact_only && !n.exact {
        return behind;
    }
    let Some(q) = behind else {
        return Some(r);
    };
    if stands_first(n, rows::read_node(nodes, q)) {
        Some(r)
    } else {
        behind
    }
}

// `_find_best_node` of clean.rs: the best of the rows from start to count, of all or of the exact ones; none where the run died out
// or has no exact terminal. It goes from the last row to the first, as the definition does.
#[tactic(auto, using(crate::proofs::Terminals::all_the_rows))]
pub fn find_best_node(nodes: &[u64], start: usize, count: usize, exact_only: bool) -> Option<NodeId>
    requires { (start ≤ count) × (count * node_words ≤ length nodes.now) }
    ensures { BestFound nodes.now start count exact_only result }
{
    let mut best = None;
    for i in (start..count).rev() {
        best = better_of(nodes, NodeId(i), best, exact_only);
    }
    best
}

// `_has_exact_best_path` of clean.rs: up the best edges until an exact row (true) or a relaxed one (false). A parent's row is the
// smaller one.
#[tactic(auto, using(crate::proofs::Walks::walk))]
fn has_exact_best_path(nodes: &[u64], edges: &[u64], n: NodeId) -> bool
    requires { Row nodes.now edges.now n.0 }
    ensures { WalkedUp nodes.now edges.now n.0 result }
{
    let node = rows::read_node(nodes, n);
    if node.exact {
        return true;
    }
    if node.relaxed {
        return false;
    }
    let Some(e) = node.best.edge() else {
        return true;
    };
    has_exact_best_path(nodes, edges, rows::read_edge(edges, e).from)
}

// Whether the best path of a run, relaxed or not, is an exact one; no terminal leaves none that isn't.
#[tactic(auto, using(crate::proofs::Walks::best_walk))]
pub fn exact_path(nodes: &[u64], edges: &[u64], best: Option<NodeId>, relaxed: bool) -> bool
    requires { Ranked nodes.now edges.now best }
    ensures { PathJudged nodes.now edges.now best relaxed result }
{
    if !relaxed {
        return false;
    }
    let Some(n) = best else {
        return true;
    };
    has_exact_best_path(nodes, edges, n)
}

// The first places of a record's path, 0 in those past them.
#[tactic(auto, using(crate::proofs::Paths::kept))]
fn kept_places(path: [u8; 64], depth: usize) -> [u8; 64]
    requires { depth ≤ 64 }
    ensures { result ≡ padded (take depth path) }
{
    let mut bytes = [0; 64];
    bytes[..depth].copy_from_slice(&path[..depth]);
    bytes
}

// `_best_path` of clean.rs: a record's path, then the decisions of the best edges from row n upwards.
#[tactic(auto, using(crate::proofs::Paths::climb))]
pub fn best_path(nodes: &[u64], edges: &[u64], n: NodeId, path: [u8; 64], depth: usize) -> Path
    requires { PathFits nodes.now edges.now n.0 (take depth path) × (depth ≤ 64) }
    ensures { PathWritten nodes.now edges.now n.0 (take depth path) result }
{
    let mut bytes = kept_places(path, depth);
    let mut len = depth;
    let mut row = n;
    while let Some(e) = rows::read_node(nodes, row).best.edge() {
        let edge = rows::read_edge(edges, e);
        bytes[len] = edge.decision as u8;
        len += 1;
        row = edge.from;
    }
    Path { bytes, len }
}

// A mark, with that bottom value.
#[tactic(auto, unfolding(diagram::specs::Node::marked_with))]
fn marked_with(n: Node, bottom: u64) -> Node
    ensures { node_of result ≡ marked_with bottom (node_of n) }
{
    Node {
        bottom,
        marked: true,
        ..n
    }
}

// A row of the last stored layer gets 0 and a mark.
#[tactic(auto, using(crate::proofs::Rewriting::changed))]
fn ground_row(nodes: &mut [u64], r: NodeId)
    requires { r.0 * node_words + node_words ≤ length nodes.old }
    ensures { RowChanged (marked_with mid) r.0 nodes.old nodes.new }
{
    let n = rows::read_node(nodes, r);
    rows::write_node(nodes, r, marked_with(n, words::MID));
}

// The rows of the last stored layer.
#[tactic(auto, using(crate::proofs::Rewriting::grounding))]
fn ground_layer(nodes: &mut [u64], layer: Layer)
    requires { layer.to * node_words ≤ length nodes.old }
    ensures { LayerGrounded layer nodes.old nodes.new }
{
    for r in layer.from..layer.to {
        ground_row(nodes, NodeId(r));
    }
}

// A parent gets a mark, and its bottom value is raised.
fn raise_parent(nodes: &mut [u64], r: NodeId, bottom: u64)
    requires { r.0 * node_words + node_words ≤ length nodes.old }
    ensures { RowChanged (raise bottom) r.0 nodes.old nodes.new }
{
    let n = rows::read_node(nodes, r);
    rows::write_node(nodes, r, marked_with(n, n.bottom.max(bottom)));
}

// The parents over the inbound edges of a row, from its newest edge along the next numbers, each raised to the row's own bottom
// value plus the edge's cost.
#[tactic(auto, using(crate::proofs::Raising::parents))]
fn raise_parents(nodes: &mut [u64], edges: &[u64], own: u64, newest: Link)
    requires { Newest nodes.old edges.now newest.0 }
    ensures { ParentsRaised own newest.0 nodes.old edges.now nodes.new }
{
    let mut link = newest;
    while let Some(e) = link.edge() {
        let edge = rows::read_edge(edges, e);
        raise_parent(nodes, edge.from, words::handed(own, edge.cost));
        link = edge.next;
    }
}

// A marked row raises its parents.
#[tactic(auto, using(crate::proofs::Raising::turn))]
fn raise_row(nodes: &mut [u64], edges: &[u64], r: NodeId)
    requires { Row nodes.old edges.now r.0 }
    ensures { RowRaised r.0 nodes.old edges.now nodes.new }
{
    let n = rows::read_node(nodes, r);
    if !n.marked {
        return;
    }
    raise_parents(nodes, edges, n.bottom, n.newest);
}

// The rows of a layer, in order.
#[tactic(auto, using(crate::proofs::Upwards::raising_rows))]
fn raise_layer(nodes: &mut [u64], edges: &[u64], layer: Layer)
    requires { Upto nodes.old edges.now layer.to }
    ensures { LayerRaised layer nodes.old edges.now nodes.new }
{
    for r in layer.from..layer.to {
        raise_row(nodes, edges, NodeId(r));
    }
}

// The stored layers, the newest first.
#[tactic(auto, using(crate::proofs::Upwards::raising_layers))]
fn raise_layers(nodes: &mut [u64], edges: &[u64], layers: Layers)
    requires { Layered nodes.old edges.now layers }
    ensures { LayersRaised layers nodes.old edges.now nodes.new }
{
    for i in (0..layers.count).rev() {
        raise_layer(nodes, edges, layers.get(i));
    }
}

// `_compute_local_bounds` of clean.rs, of a relaxed run that was squashed: the last stored layer's rows get 0 and a mark, and going
// up each marked row marks its parents and raises their bottom values.
#[tactic(auto, using(crate::proofs::Upwards::whole))]
pub fn compute_local_bounds(
    nodes: &mut [u64],
    edges: &[u64],
    layers: Layers,
    squashed: bool,
    relaxed: bool,
)
    requires { Layered nodes.old edges.now layers }
    ensures { BoundsComputed layers squashed relaxed nodes.old edges.now nodes.new }
{
    if !relaxed || !squashed {
        return;
    }
    if layers.count == 0 {
        return;
    }
    ground_layer(nodes, layers.get(layers.count - 1));
    raise_layers(nodes, edges, layers);
}
