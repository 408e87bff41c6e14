// `_branch_on` of clean.rs: the child of a node by one decision, new or already in the coming layer, with the edge to it.
#![tactic(auto)]

ghost use Rattle.std.specs.Prelude.{◌≡◌, ◌+◌, ◌*◌, ◌^◌, ◌<◌, ◌≤◌, length};
ghost use Rattle.diagram.specs.Node.{fresh};
ghost use Rattle.diagram.specs.Rule4.{receive};
ghost use Rattle.layout.specs.Rows.{node_words, edge_words};
ghost use Rattle.rows.specs.Values.{node_of, edge_of};
ghost use Rattle.rows.specs.Access.{NodeRead, EdgeRead};
ghost use Rattle.branch.specs.State.{said_of, Stays, Same, LookedUp, ParentRead, ComingReady, EdgeAdded, ChildMade, ChildAdded, Ready, Branched, Appended};

use reasons::Refusal;
use rows::{Edge, EdgeId, Link, Node, NodeId};

// A layer has at most so many nodes.
pub const LAYER_ROOM: usize = 1024;

// How many rows of each table are written.
#[derive(Clone, Copy)]
pub struct Counts {
    pub nodes: usize,
    pub edges: usize,
}

// How many rows of each table are lent.
#[derive(Clone, Copy)]
pub struct Rooms {
    pub nodes: usize,
    pub edges: usize,
}

// How far the tables are filled: the coming layer's first row, the rows written, and the rows lent.
#[derive(Clone, Copy)]
pub struct Extent {
    pub start: usize,
    pub counts: Counts,
    pub rooms: Rooms,
}

// A diagram as it grows: the lent tables, and how far they are filled.
#[derive(Drop)]
pub struct Diagram<'a> {
    pub nodes: &'a mut [u64],
    pub edges: &'a mut [u64],
    pub at: Extent,
    ghost ready: { Ready at.start at.counts at.rooms nodes.now edges.now },
}

// Why a run stops, and the rows written until then.
#[derive(Clone, Copy)]
pub struct Stop {
    pub refusal: Refusal,
    pub counts: Counts,
}

// What a child is told of its parent: its row, its exactness, and the value that it hands over.
#[derive(Clone, Copy)]
struct Parent {
    id: NodeId,
    value: u64,
    exact: bool,
}

// A decision with its cost, and the child's capacity and depth.
#[derive(Clone, Copy)]
pub struct Branch {
    pub decision: u64,
    pub cost: u64,
    pub capacity: u64,
    pub depth: u64,
}

// The first of `count` rows with that capacity, counted from the coming layer's first.
#[tactic(auto, using(crate::proofs::Scan::scan))]
fn lookup(coming: &[u64], count: usize, capacity: u64) -> Option<usize>
    requires { count * node_words ≤ length coming.now }
    ensures { LookedUp coming.now count capacity result }
{
    // A rule of the project: this scan is a loop that yields the row, or none, by break.
    let mut i = 0;
    loop {
        if count <= i {
            break None;
        }
        if rows::read_capacity(coming, NodeId(i)) == capacity {
            break Some(i);
        }
        i += 1;
    }
}

// Edge e, from parent p, comes into node n.
#[tactic(auto, using(std::proofs::lemmas::Bool::Decides::nat_tests), unfolding(diagram::specs::Rule4::receive, diagram::specs::Node::entered))]
fn enter(n: Node, e: EdgeId, p: Parent) -> Node
    requires { e.0 + 1 < 2 ^ 64 }
    ensures { node_of result ≡ receive e.0 p.exact p.value (node_of n) }
{
    let newest = Link::to(e);
    let (value, best) = if n.value <= p.value {
        (p.value, newest)
    } else {
        (n.value, n.best)
    };
    Node {
        value,
        best,
        newest,
        exact: p.exact && n.exact,
        ..n
    }
}

// One more edge, from p into row `row` of the coming layer (counted from its first), if the edge table has room.
#[tactic(auto, using(crate::proofs::Edges::edges))]
fn add_edge(
    coming: &mut [u64],
    edges: &mut [u64],
    at: &mut Extent,
    p: Parent,
    row: usize,
    b: Branch,
) -> Result<(), Refusal>
    requires { ComingReady at.old.start at.old.counts at.old.rooms coming.old edges.old × (at.old.start + row < at.old.counts.nodes) }
    ensures stays { Stays at.old at.new }
    ensures does { EdgeAdded at.old.start at.old.counts at.old.rooms p row b coming.old edges.old (said_of result at.new.counts) coming.new edges.new }
{
    if at.counts.edges >= at.rooms.edges {
        return Err(Refusal::EdgesFull);
    }
    let e = EdgeId(at.counts.edges);
    let child = rows::read_node(coming, NodeId(row));
    rows::write_edge(
        edges,
        e,
        Edge {
            from: p.id,
            to: NodeId(at.start + row),
            decision: b.decision,
            cost: b.cost,
            next: child.newest,
        },
    );
    rows::write_node(coming, NodeId(row), enter(child, e, p));
    at.counts.edges += 1;
    Ok(())
}

// A new row, exact or not: i64 minimum from the bottom, i64 maximum as its fast bound, no edge and no other flag.
#[tactic(auto, unfolding(diagram::specs::Node::fresh))]
pub fn new_node(capacity: u64, depth: u64, value: u64, exact: bool) -> Node
    ensures { node_of result ≡ fresh capacity depth value exact }
{
    Node {
        capacity,
        depth,
        value,
        bottom: 0,
        best: Link::NONE,
        newest: Link::NONE,
        fast: words::TOP,
        exact,
        relaxed: false,
        marked: false,
        cutset: false,
        deleted: false,
    }
}

// A new child: its row and the edge to it, or nothing of both.
#[tactic(auto, using(crate::proofs::Children::children))]
fn new_child(
    coming: &mut [u64],
    edges: &mut [u64],
    at: &mut Extent,
    p: Parent,
    b: Branch,
) -> Result<(), Refusal>
    requires { ComingReady at.old.start at.old.counts at.old.rooms coming.old edges.old }
    ensures stays { Stays at.old at.new }
    ensures does { ChildMade at.old.start at.old.counts at.old.rooms p b coming.old edges.old (said_of result at.new.counts) coming.new edges.new }
{
    let row = at.counts.nodes - at.start;
    if row >= LAYER_ROOM {
        return Err(Refusal::LayerFull);
    }
    if at.counts.nodes >= at.rooms.nodes {
        return Err(Refusal::NodesFull);
    }
    if at.counts.edges >= at.rooms.edges {
        return Err(Refusal::EdgesFull);
    }
    let e = EdgeId(at.counts.edges);
    let child = new_node(b.capacity, b.depth, p.value, p.exact);
    rows::write_edge(
        edges,
        e,
        Edge {
            from: p.id,
            to: NodeId(at.counts.nodes),
            decision: b.decision,
            cost: b.cost,
            next: Link::NONE,
        },
    );
    rows::write_node(coming, NodeId(row), enter(child, e, p));
    at.counts = Counts {
        nodes: at.counts.nodes + 1,
        edges: at.counts.edges + 1,
    };
    Ok(())
}

// The child of p by that branch: one more edge where its state is in the coming layer already, else a new row.
#[tactic(auto, using(crate::proofs::Branches::branches))]
fn add_child(
    coming: &mut [u64],
    edges: &mut [u64],
    at: &mut Extent,
    p: Parent,
    b: Branch,
) -> Result<(), Refusal>
    requires { ComingReady at.old.start at.old.counts at.old.rooms coming.old edges.old }
    ensures stays { Stays at.old at.new }
    ensures does { ChildAdded at.old.start at.old.counts at.old.rooms p b coming.old edges.old (said_of result at.new.counts) coming.new edges.new }
{
    match lookup(coming, at.counts.nodes - at.start, b.capacity) {
        Some(row) => add_edge(coming, edges, at, p, row, b),
        None => new_child(coming, edges, at, p, b),
    }
}

// What node `from` tells a child over an edge of that cost.
#[tactic(auto, unfolding(diagram::specs::Rule4::handed))]
fn read_parent(nodes: &[u64], from: NodeId, cost: u64) -> Parent
    requires { from.0 * node_words + node_words ≤ length nodes.now }
    ensures { ParentRead nodes.now from.0 cost result }
{
    let parent = rows::read_node(nodes, from);
    Parent {
        id: from,
        value: words::handed(parent.value, cost),
        exact: parent.exact,
    }
}

impl Diagram<'_> {
    // Node n, by value.
    pub fn node(&self, n: NodeId) -> Node
        requires { n.0 * node_words + node_words ≤ length self.now.nodes.now }
        ensures { NodeRead self.now.nodes.now n.0 (node_of result) }
    {
        rows::read_node(self.nodes, n)
    }

    // Edge e, by value.
    pub fn edge(&self, e: EdgeId) -> Edge
        requires { e.0 * edge_words + edge_words ≤ length self.now.edges.now }
        ensures { EdgeRead self.now.edges.now e.0 (edge_of result) }
    {
        rows::read_edge(self.edges, e)
    }

    // The child of node `from` by that branch. The parent's row is read first; then the rest of the table, from the coming layer's
    // first row on, is lent for writing, so that no finished row can be touched.
    #[tactic(auto, using(crate::proofs::Branches::branches))]
    pub fn branch_on(&mut self, from: NodeId, b: Branch) -> Result<(), Refusal>
        requires { from.0 < self.old.at.start }
        ensures same { Same self.old.nodes self.new.nodes self.old.edges self.new.edges self.old.at self.new.at }
        ensures does { Branched self.old.at.start self.old.at.counts self.old.at.rooms from.0 b self.old.nodes.now self.old.edges.now
            (said_of result self.new.at.counts) self.new.nodes.now self.new.edges.now }
    {
        let nodes = &mut *self.nodes;
        let p = read_parent(nodes, from, b.cost);
        let coming = &mut nodes[self.at.start * rows::NODE_WORDS..];
        add_child(coming, self.edges, &mut self.at, p, b)
    }

    // `append_edge_to!` of clean.rs: one more edge from node `from` into row `row` of the coming layer, counted from its first.
    #[tactic(auto, using(crate::proofs::Branches::branches))]
    pub fn append_edge(&mut self, from: NodeId, row: usize, b: Branch) -> Result<(), Refusal>
        requires { (from.0 < self.old.at.start) × (self.old.at.start + row < self.old.at.counts.nodes) }
        ensures same { Same self.old.nodes self.new.nodes self.old.edges self.new.edges self.old.at self.new.at }
        ensures does { Appended self.old.at.start self.old.at.counts self.old.at.rooms from.0 row b self.old.nodes.now self.old.edges.now
            (said_of result self.new.at.counts) self.new.nodes.now self.new.edges.now }
    {
        let nodes = &mut *self.nodes;
        let p = read_parent(nodes, from, b.cost);
        let coming = &mut nodes[self.at.start * rows::NODE_WORDS..];
        add_edge(coming, self.edges, &mut self.at, p, row, b)
    }
}
