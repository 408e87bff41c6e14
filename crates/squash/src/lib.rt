// `_restrict` and `_relax` of clean.rs: a layer that is too wide loses its last rows, or has them merged into one.
#![tactic(auto)]

ghost use Rattle.std.specs.Prelude.{◌≡◌, [], ◌∷◌, ◌+◌, ◌-◌, ◌*◌, ◌<◌, ◌≤◌, length};
ghost use Rattle.diagram.specs.Node.{with_deleted, as_relaxed};
ghost use Rattle.layout.specs.Rows.{node_words};
ghost use Rattle.rows.specs.Values.{node_of};
ghost use Rattle.branch.specs.State.{said_of, Same};
ghost use Rattle.squash.specs.Places.{Placed, RowChanged, Restricted, CapacityMerged, TwinFound};
ghost use Rattle.squash.specs.Merging.{Sits, EdgesCopied, AllMerged};
ghost use Rattle.squash.specs.Squashing.{Squashable, RowMade, TwinMerged, NewMerged, Relaxed};

use branch::{Branch, Diagram};
use reasons::Refusal;
use rows::{Node, NodeId};

// Sets or clears the deleted flag of row r.
#[tactic(auto, using(crate::proofs::Changing::row_changed), unfolding(diagram::specs::Node::with_deleted))]
fn set_deleted(nodes: &mut [u64], r: NodeId, deleted: bool)
    requires { r.0 * node_words + node_words ≤ length nodes.old }
    ensures { RowChanged (with_deleted deleted) nodes.old r.0 nodes.new }
{
    let n = rows::read_node(nodes, r);
    rows::write_node(nodes, r, Node { deleted, ..n });
}

// `_restrict`: flags deleted the rows behind the first `width` places. The list stays: its first `width` places are the layer now.
pub fn restrict(nodes: &mut [u64], layer: &[usize], width: usize)
    requires { Placed layer.now nodes.old }
    ensures { Restricted width layer.now nodes.old nodes.new }
{
    for i in width..layer.len() {
        set_deleted(nodes, NodeId(layer[i]), true);
    }
}

// The largest capacity of those rows, 0 if there are none.
fn merged_capacity(d: &Diagram, rest: &[usize]) -> u64
    requires { Placed rest.now d.now.nodes.now }
    ensures { CapacityMerged rest.now d.now.nodes.now result }
{
    let mut most = 0;
    for r in rest {
        most = rows::read_capacity(d.nodes, NodeId(*r)).max(most);
    }
    most
}

// The first of those rows with that capacity.
fn twin_of(d: &Diagram, kept: &[usize], capacity: u64) -> Option<NodeId>
    requires { Placed kept.now d.now.nodes.now }
    ensures { TwinFound capacity kept.now d.now.nodes.now result }
{
    for r in kept {
        if rows::read_capacity(d.nodes, NodeId(*r)) == capacity {
            return Some(NodeId(*r));
        }
    }
    None
}

// Copies the inbound edges of row `of`, newest first, to the merged row: `foreach!(edge of drop_id, ..)` of clean.rs. Costs stay.
fn copy_edges(d: &mut Diagram, merged: NodeId, of: NodeId) -> Result<(), Refusal>
    requires { Sits d.old.at.start d.old.at.counts d.old.at.rooms merged.0 (of.0 ∷ []) d.old.nodes.now d.old.edges.now }
    ensures same { Same d.old.nodes d.new.nodes d.old.edges d.new.edges d.old.at d.new.at }
    ensures does { EdgesCopied d.old.at.start d.old.at.counts d.old.at.rooms merged.0 of.0 d.old.nodes.now d.old.edges.now (said_of result d.new.at.counts) d.new.nodes.now d.new.edges.now }
{
    let row = merged.0 - d.at.start;
    let mut link = d.node(of).newest;
    while let Some(e) = link.edge() {
        let edge = d.edge(e);
        let b = Branch {
            decision: edge.decision,
            cost: edge.cost,
            capacity: 0,
            depth: 0,
        };
        d.append_edge(edge.from, row, b)?;
        link = edge.next;
    }
    Ok(())
}

// Merges the rows of `rest` into the merged row: each is flagged deleted, and its inbound edges are copied.
fn merge_all(d: &mut Diagram, rest: &[usize], merged: NodeId) -> Result<(), Refusal>
    requires { Sits d.old.at.start d.old.at.counts d.old.at.rooms merged.0 rest.now d.old.nodes.now d.old.edges.now }
    ensures same { Same d.old.nodes d.new.nodes d.old.edges d.new.edges d.old.at d.new.at }
    ensures does { AllMerged d.old.at.start d.old.at.counts d.old.at.rooms merged.0 rest.now d.old.nodes.now d.old.edges.now (said_of result d.new.at.counts) d.new.nodes.now d.new.edges.now }
{
    for r in rest {
        let r = NodeId(*r);
        set_deleted(d.nodes, r, true);
        copy_edges(d, merged, r)?;
    }
    Ok(())
}

// Relaxed, and so not exact.
#[tactic(auto, unfolding(diagram::specs::Node::as_relaxed))]
fn as_relaxed(n: Node) -> Node
    ensures { node_of result ≡ as_relaxed (node_of n) }
{
    Node {
        exact: false,
        relaxed: true,
        ..n
    }
}

// Marks row r relaxed. It stays apart from `set_deleted`: handing the change over as a closure would be no plainer at four calls.
#[tactic(auto, using(crate::proofs::Changing::row_changed))]
fn set_relaxed(nodes: &mut [u64], r: NodeId)
    requires { r.0 * node_words + node_words ≤ length nodes.old }
    ensures { RowChanged as_relaxed nodes.old r.0 nodes.new }
{
    let n = rows::read_node(nodes, r);
    rows::write_node(nodes, r, as_relaxed(n));
}

// Writes the merged row as row r, the next: of value i64 minimum, without edges yet.
#[tactic(auto, using(crate::proofs::News::row_made))]
fn push_merged(nodes: &mut [u64], r: NodeId, capacity: u64, depth: u64)
    requires { r.0 * node_words + node_words ≤ length nodes.old }
    ensures { RowMade capacity depth nodes.old r.0 nodes.new }
{
    let n = branch::new_node(capacity, depth, 0, false);
    rows::write_node(nodes, r, as_relaxed(n));
}

// Merges the rows of `rest` into a kept row with their capacity; the first of them is kept too.
fn merge_into_twin(d: &mut Diagram, rest: &[usize], twin: NodeId) -> Result<(), Refusal>
    requires { Sits d.old.at.start d.old.at.counts d.old.at.rooms twin.0 rest.now d.old.nodes.now d.old.edges.now × (0 < length rest.now) }
    ensures same { Same d.old.nodes d.new.nodes d.old.edges d.new.edges d.old.at d.new.at }
    ensures does { TwinMerged d.old.at.start d.old.at.counts d.old.at.rooms twin.0 rest.now d.old.nodes.now d.old.edges.now (said_of result d.new.at.counts) d.new.nodes.now d.new.edges.now }
{
    set_relaxed(d.nodes, twin);
    merge_all(d, rest, twin)?;
    set_deleted(d.nodes, NodeId(rest[0]), false);
    Ok(())
}

// Merges the rows of a layer behind the first `keep` ones into a new row of that capacity, which takes the place of their first.
fn merge_into_new(
    d: &mut Diagram,
    layer: &mut [usize],
    keep: usize,
    capacity: u64,
) -> Result<(), Refusal>
    requires { Squashable d.old.at.start d.old.at.counts d.old.at.rooms keep layer.old d.old.nodes.now d.old.edges.now }
    ensures same { Same d.old.nodes d.new.nodes d.old.edges d.new.edges d.old.at d.new.at }
    ensures does { NewMerged d.old.at.start d.old.at.counts d.old.at.rooms capacity keep layer.old d.old.nodes.now d.old.edges.now (said_of result d.new.at.counts) layer.new
        d.new.nodes.now d.new.edges.now }
{
    let row = d.at.counts.nodes;
    if row - d.at.start >= branch::LAYER_ROOM {
        return Err(Refusal::LayerFull);
    }
    if row >= d.at.rooms.nodes {
        return Err(Refusal::NodesFull);
    }
    let depth = d.node(NodeId(layer[keep])).depth;
    push_merged(d.nodes, NodeId(row), capacity, depth);
    d.at.counts.nodes += 1;
    merge_all(d, &layer[keep..], NodeId(row))?;
    layer[keep] = row;
    Ok(())
}

// `_relax`: keeps the first width - 1 rows and merges those behind them. Where it goes on, the first `width` rows are the layer now.
pub fn relax(d: &mut Diagram, layer: &mut [usize], width: usize) -> Result<(), Refusal>
    requires { Squashable d.old.at.start d.old.at.counts d.old.at.rooms (width - 1) layer.old d.old.nodes.now d.old.edges.now × (0 < width) }
    ensures same { Same d.old.nodes d.new.nodes d.old.edges d.new.edges d.old.at d.new.at }
    ensures does { Relaxed d.old.at.start d.old.at.counts d.old.at.rooms width layer.old d.old.nodes.now d.old.edges.now (said_of result d.new.at.counts) layer.new
        d.new.nodes.now d.new.edges.now }
{
    let (kept, rest) = layer.split_at(width - 1);
    let capacity = merged_capacity(d, rest);
    match twin_of(d, kept, capacity) {
        Some(twin) => merge_into_twin(d, rest, twin),
        None => merge_into_new(d, layer, width - 1, capacity),
    }
}
