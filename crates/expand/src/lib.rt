// Rule 3 of document 01, the inner loop of `_compile` in clean.rs: a node's fast bound is noted, and it is branched on if it can beat the lower bound.
#![tactic(auto)]

ghost use Rattle.std.specs.Prelude.{List, ◌<◌, ◌≤◌, length};
ghost use Rattle.branch.specs.State.{said_of, Same, Fit};
ghost use Rattle.expand.specs.State.{Taken, Both, Expanded, AllExpanded};
ghost use Rattle.order.specs.Below.{Below};

use blocks::Items;
use branch::{Branch, Diagram};
use reasons::Refusal;
use rows::{Node, NodeId};

// The item that is decided: its depth, its counted weight and its profit.
#[derive(Clone, Copy)]
struct Item {
    depth: usize,
    weight: u64,
    profit: u64,
}

// Take, if the weight fits the capacity that node n has left.
#[tactic(auto, using(crate::proofs::Decisions::taken))]
fn branch_take(d: &mut Diagram, n: NodeId, capacity: u64, i: Item) -> Result<(), Refusal>
    requires fit { Fit d.old.at.start d.old.at.counts d.old.at.rooms }
    requires in_front { (n.0 < d.old.at.start) × (i.depth < 64) }
    ensures same { Same d.old.nodes d.new.nodes d.old.edges d.new.edges d.old.at d.new.at }
    ensures does { Taken d.old.at.start d.old.at.counts d.old.at.rooms n.0 capacity i d.old.nodes.now d.old.edges.now
        (said_of result d.new.at.counts) d.new.nodes.now d.new.edges.now }
{
    if capacity < i.weight {
        return Ok(());
    }
    let depth = i.depth as u64;
    let b = Branch {
        decision: 2 * depth + 1,
        cost: i.profit,
        capacity: capacity - i.weight,
        depth: depth + 1,
    };
    d.branch_on(n, b)
}

// 'Decisions are tried take first (only if the weight fits), then skip.'
fn branch_both(d: &mut Diagram, n: NodeId, capacity: u64, i: Item) -> Result<(), Refusal>
    requires fit { Fit d.old.at.start d.old.at.counts d.old.at.rooms }
    requires in_front { (n.0 < d.old.at.start) × (i.depth < 64) }
    ensures same { Same d.old.nodes d.new.nodes d.old.edges d.new.edges d.old.at d.new.at }
    ensures does { Both d.old.at.start d.old.at.counts d.old.at.rooms n.0 capacity i d.old.nodes.now d.old.edges.now
        (said_of result d.new.at.counts) d.new.nodes.now d.new.edges.now }
{
    branch_take(d, n, capacity, i)?;
    let depth = i.depth as u64;
    let b = Branch {
        decision: 2 * depth,
        cost: 0,
        capacity,
        depth: depth + 1,
    };
    d.branch_on(n, b)
}

// Node n of the newest stored layer: its fast bound is noted before any child is made, and children are made only if value plus
// bound is strictly above the lower bound.
fn expand_node(
    d: &mut Diagram,
    items: Items,
    depth: usize,
    lower: u64,
    n: NodeId,
) -> Result<(), Refusal>
    requires fit { Fit d.old.at.start d.old.at.counts d.old.at.rooms }
    requires in_front { n.0 < d.old.at.start }
    requires deep { depth < length items.weights.now }
    ensures same { Same d.old.nodes d.new.nodes d.old.edges d.new.edges d.old.at d.new.at }
    ensures does { Expanded items.entry.weights.now items.entry.profits.now d.old.at.start d.old.at.counts d.old.at.rooms
        depth lower n.0 d.old.nodes.now d.old.edges.now (said_of result d.new.at.counts) d.new.nodes.now d.new.edges.now }
{
    let node = d.node(n);
    let fast = items.fast_upper_bound(depth, node.capacity);
    let noted = Node {
        fast: words::MID + fast,
        ..node
    };
    rows::write_node(d.nodes, n, noted);
    if words::handed(node.value, fast) <= lower {
        return Ok(());
    }
    let i = Item {
        depth,
        weight: blocks::counted(items.weights[depth]),
        profit: items.profits[depth],
    };
    branch_both(d, n, node.capacity, i)
}

// The nodes of the list, in its order, until one of them is refused.
#[tactic(auto, using(order::proofs::Below::below_at))]
pub fn expand_all(
    d: &mut Diagram,
    items: Items,
    list: &[usize],
    depth: usize,
    lower: u64,
) -> Result<(), Refusal>
    requires fit { Fit d.old.at.start d.old.at.counts d.old.at.rooms }
    requires deep { depth < length items.weights.now }
    requires rows_in_front { Below d.old.at.start list.now }
    ensures same { Same d.old.nodes d.new.nodes d.old.edges d.new.edges d.old.at d.new.at }
    ensures does { AllExpanded items.entry.weights.now items.entry.profits.now list.now d.old.at.start d.old.at.counts
        d.old.at.rooms depth lower d.old.nodes.now d.old.edges.now (said_of result d.new.at.counts) d.new.nodes.now d.new.edges.now }
{
    for row in list {
        expand_node(d, items, depth, lower, NodeId(*row))?;
    }
    Ok(())
}
