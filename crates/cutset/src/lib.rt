// The cutset of clean.rs, flagged and counted, and the records that it drains into a lent list.
#![tactic(auto)]

ghost use Rattle.std.specs.Prelude.{◌≡◌, ◌+◌, ◌-◌, ◌*◌, ◌^◌, ◌<◌, ◌≤◌, length};
ghost use Rattle.diagram.specs.After4.{last_exact_layer};
ghost use Rattle.diagram.specs.After6.{drained_bound};
ghost use Rattle.layout.specs.Rows.{node_words};
ghost use Rattle.rows.specs.Values.{node_of};
ghost use Rattle.rows.specs.Access.{NodeRead};
ghost use Rattle.cutset.specs.Views.{with_cutset};
ghost use Rattle.cutset.specs.Trace.{Inside, Upto, FewInside, FewLink, FewUpto, Tracing, Traced};
ghost use Rattle.cutset.specs.Steps.{Going, Listed, RowHanded};
ghost use Rattle.cutset.specs.Trace.{FewRanges, listing, listings, adding, along_edges, of_row, of_rows, of_layers};
ghost use Rattle.cutset.specs.Clearing.{Cleared};
ghost use Rattle.cutset.specs.Whole.{kind_of, counting, Shaped, cutset_from, Drainable, DrainedOff};
ghost use Rattle.layers.specs.Stored.{stored};
ghost use Rattle.reasons.specs.Numbers.{numbered};

use layers::{Layer, Layers};
use reasons::Refusal;
use rows::{Link, Node, NodeId};

// What a traversal is asked: how many records the list has room for, the run's best value, and the path, with its length, of the
// record that was compiled. A traversal without room flags and counts.
#[derive(Clone, Copy)]
pub struct Wanted {
    pub room: usize,
    pub best: u64,
    pub path: [u8; 64],
    pub depth: usize,
}

// Both cutset kinds.
#[derive(Clone, Copy)]
pub enum Kind {
    LastExactLayer,
    Frontier,
}

// Which rows a traversal goes through: the stored layers, the last exact one of them, and the kind of cutset.
#[derive(Clone, Copy)]
pub struct Route {
    pub layers: Layers,
    pub last: Option<Layer>,
    pub kind: Kind,
}

// The bound of a drained node's record.
#[tactic(auto, unfolding(diagram::specs::After6::drained_bound))]
fn drained_bound(n: Node, best: u64) -> u64
    ensures { result ≡ drained_bound best (node_of n) }
{
    let by_fast = words::sat_add(n.value, n.fast);
    let by_bottom = words::sat_add(n.value, n.bottom);
    by_fast.min(by_bottom).min(best)
}

// Node n with its cutset flag set or cleared.
#[tactic(auto, unfolding(crate::specs::Views::with_cutset))]
fn with_cutset(n: Node, cutset: bool) -> Node
    ensures { node_of result ≡ with_cutset cutset (node_of n) }
{
    Node { cutset, ..n }
}

// A cutset as it is listed: the edges that it follows, the list that records are written to, what is asked, and how many marked rows
// were counted so far.
#[derive(Drop)]
struct Traversal<'a> {
    edges: &'a [u64],
    records: &'a mut [u64],
    wanted: Wanted,
    count: usize,
}

impl Traversal<'_> {
    // Row r is handed on: if it is marked it is counted, and its record, number `count` of all, is written if the list has room for it.
    fn hand_on(&mut self, nodes: &[u64], r: NodeId, n: Node)
        requires going { Going (Inside r.0) self.old nodes.now }
        requires read { NodeRead nodes.now r.0 (node_of n) }
        requires few { self.old.count + 1 < 2 ^ 64 }
        ensures { RowHanded r.0 self.old nodes.now self.new }
    {
        if !n.marked {
            return;
        }
        if self.count < self.wanted.room {
            let w = self.wanted;
            let best = finish::best_path(nodes, self.edges, r, w.path, w.depth);
            rows::write_record(
                self.records,
                self.count,
                n.capacity,
                n.value,
                drained_bound(n, w.best),
                n.depth,
                best.bytes,
            );
        }
        self.count += 1;
    }

    // Row r, which holds n, is listed: it is handed on, and it gets its flag.
    fn list_row(&mut self, nodes: &mut [u64], r: NodeId, n: Node)
        requires going { Going (Inside r.0) self.old nodes.old }
        requires read { NodeRead nodes.old r.0 (node_of n) }
        requires few { self.old.count + 1 < 2 ^ 64 }
        ensures listed { Listed (Inside r.0) (listing r.0) self.old nodes.old self.new nodes.new }
        ensures grows { self.new.count ≤ self.old.count + 1 }
    {
        self.hand_on(nodes, r, n);
        rows::write_node(nodes, r, with_cutset(n, true));
    }

    // Last exact layer: its rows in order.
    fn list_rows(&mut self, nodes: &mut [u64], layer: Layer)
        requires going { Going (Upto layer.to) self.old nodes.old }
        requires none_yet { self.old.count ≡ 0 }
        ensures { Listed (Upto layer.to) (listings layer.from (layer.to - layer.from)) self.old nodes.old self.new nodes.new }
    {
        for r in layer.from..layer.to {
            let n = rows::read_node(nodes, NodeId(r));
            self.list_row(nodes, NodeId(r), n);
        }
    }

    // A parent of a node that isn't exact: listed if it is exact and not yet listed.
    fn list_parent(&mut self, nodes: &mut [u64], r: NodeId)
        requires { Going (FewInside r.0) self.old nodes.old }
        ensures { Listed (FewInside r.0) (adding r.0) self.old nodes.old self.new nodes.new }
    {
        let n = rows::read_node(nodes, r);
        if n.exact && !n.cutset {
            self.list_row(nodes, r, n);
        }
    }

    // The parents over a node's inbound edges, newest first.
    #[tactic(auto, using(crate::proofs::Steps::edges))]
    fn list_parents(&mut self, nodes: &mut [u64], newest: Link)
        requires { Going (FewLink newest.0) self.old nodes.old }
        ensures { Listed (FewLink newest.0) (along_edges newest.0) self.old nodes.old self.new nodes.new }
    {
        let mut link = newest;
        while let Some(e) = link.edge() {
            let edge = rows::read_edge(self.edges, e);
            self.list_parent(nodes, edge.from);
            link = edge.next;
        }
    }

    // The parents of row r, if it isn't exact.
    fn frontier_row(&mut self, nodes: &mut [u64], r: NodeId)
        requires { Going (FewInside r.0) self.old nodes.old }
        ensures { Listed (FewInside r.0) (of_row r.0) self.old nodes.old self.new nodes.new }
    {
        let n = rows::read_node(nodes, r);
        if !n.exact {
            self.list_parents(nodes, n.newest);
        }
    }

    // The parents of a layer's rows in order. It stays apart from `list_rows`: each has another step, under another fact of the tables.
    fn frontier_layer(&mut self, nodes: &mut [u64], layer: Layer)
        requires { Going (FewUpto layer.to) self.old nodes.old }
        ensures { Listed (FewUpto layer.to) (of_rows layer.from (layer.to - layer.from)) self.old nodes.old self.new nodes.new }
    {
        for r in layer.from..layer.to {
            self.frontier_row(nodes, NodeId(r));
        }
    }

    // Frontier: the stored layers from last to first.
    #[tactic(auto, using(crate::proofs::Steps::layers))]
    fn frontier_layers(&mut self, nodes: &mut [u64], layers: Layers)
        requires { Going (FewRanges (stored layers)) self.old nodes.old }
        ensures { Listed (FewRanges (stored layers)) (of_layers (stored layers)) self.old nodes.old self.new nodes.new }
    {
        for i in (0..layers.count).rev() {
            self.frontier_layer(nodes, layers.get(i));
        }
    }

    // Lists the cutset of a relaxed diagram: flags its rows, counts the marked ones, and hands them on.
    fn run(&mut self, nodes: &mut [u64], route: Route)
        requires going { Going (Shaped route.layers route.last) self.old nodes.old }
        requires none_yet { self.old.count ≡ 0 }
        ensures { Listed (Shaped route.layers route.last) (cutset_from (kind_of route.kind)) self.old nodes.old self.new
            nodes.new }
    {
        match (route.kind, route.last) {
            (Kind::LastExactLayer, Some(layer)) => self.list_rows(nodes, layer),
            (Kind::LastExactLayer, None) => {}
            (Kind::Frontier, _) => self.frontier_layers(nodes, route.layers),
        }
    }
}

// Clears the cutset flags of the first `count` rows.
#[tactic(auto, using(crate::proofs::Clearing::clearing))]
fn clear_flags(nodes: &mut [u64], count: usize)
    requires { count * node_words ≤ length nodes.old }
    ensures { Cleared nodes.old count nodes.new }
{
    for i in 0..count {
        let n = rows::read_node(nodes, NodeId(i));
        rows::write_node(nodes, NodeId(i), with_cutset(n, false));
    }
}

// The cutset of a relaxed diagram, flagged and counted: all that is left to do where there is no best value.
pub fn flag_cutset(
    nodes: &mut [u64],
    edges: &[u64],
    records: &mut [u64],
    w: Wanted,
    route: Route,
) -> usize
    requires { Tracing (Shaped route.layers route.last) (counting w) 0 nodes.old edges.now records.old }
    ensures { Traced (Shaped route.layers route.last) (cutset_from (kind_of route.kind)) (counting w) 0 nodes.old edges.now
        records.old result nodes.new records.new }
{
    let mut traversal = Traversal {
        edges,
        records,
        wanted: Wanted { room: 0, ..w },
        count: 0,
    };
    traversal.run(nodes, route);
    traversal.count
}

// The cutset of a relaxed diagram of `count` nodes that has a best value, flagged and drained: how many records, or none is written,
// since the list has no places for all of them. So they are counted before any is written. Between both traversals the flags are
// cleared, since a traversal lists what has none yet.
#[tactic(auto, using(crate::proofs::Whole::list_again))]
pub fn drain(
    nodes: &mut [u64],
    edges: &[u64],
    records: &mut [u64],
    count: usize,
    w: Wanted,
    route: Route,
) -> Result<usize, Refusal>
    requires { Drainable w route.layers route.last count nodes.old edges.now records.old }
    ensures { DrainedOff w route.layers route.last route.kind count nodes.old edges.now records.old (numbered result)
        nodes.new records.new }
{
    let found = flag_cutset(nodes, edges, records, w, route);
    if w.room < found {
        return Err(Refusal::RecordsFull);
    }
    clear_flags(nodes, count);
    let mut traversal = Traversal {
        edges,
        records,
        wanted: w,
        count: 0,
    };
    traversal.run(nodes, route);
    Ok(traversal.count)
}
