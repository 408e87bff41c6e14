// Rules 1, 2 and 5 of document 01, the outer loop of `_compile` in clean.rs: the root, then layer after layer ordered, squashed if it is too wide, stored and expanded.
#![tactic(auto)]

ghost use Rattle.std.specs.Prelude.{◌+◌, ◌-◌, ◌*◌, ◌<◌, ◌≤◌, ◌≡◌, length};
ghost use Rattle.diagram.specs.Run.{is_relaxing};
ghost use Rattle.diagram.specs.Rule2.{grown};
ghost use Rattle.knapsack.specs.Items.{items_of};
ghost use Rattle.layout.specs.Rows.{node_words};
ghost use Rattle.branch.specs.State.{said, said_of, Same};
ghost use Rattle.squash.specs.Squashing.{Squashable};
ghost use Rattle.grow.specs.Told.{mode_of, settings_of, record_of};
ghost use Rattle.grow.specs.Growing.{RootPushed, too_wide, Grew, Growable};
ghost use Rattle.grow.specs.Turns.{growth_of, grown_of, TablesStay, LayerOrdered, WideSquashed, Expandable, LayerExpanded, Turn, Turned, EmptyStored, LastStored, Begun, stops_at, Completed};

use blocks::Items;
use branch::{Counts, Diagram, Extent, Rooms, Stop};
use layers::{Layer, Layers};
use reasons::Refusal;
use rows::NodeId;

// The three modes.
#[derive(Clone, Copy, PartialEq, Eq, Debug)]
pub enum Mode {
    Exact,
    Restricted,
    Relaxed,
}

// What a run is told beside its items and its root: the lower bound is an i64, as a word.
#[derive(Clone, Copy)]
pub struct Task {
    pub mode: Mode,
    pub width: usize,
    pub lower: u64,
    pub rooms: Rooms,
}

// What the root row takes from the record: its value is an i64, as a word.
#[derive(Clone, Copy)]
pub struct Root {
    pub capacity: u64,
    pub value: u64,
    pub depth: usize,
}

// How far a run has come: the rows written so far, the coming layer's first row, the stored layers and the last exact one.
#[derive(Clone, Copy)]
pub struct Growth {
    pub counts: Counts,
    pub start: usize,
    pub layers: Layers,
    pub last: Option<Layer>,
}

// What is stored of a run while its tables grow: its layers and the last exact one.
#[derive(Clone, Copy)]
struct Store {
    layers: Layers,
    last: Option<Layer>,
}

impl Mode {
    // Whether a mode is relaxed: it merges where the others flag deleted, and has a cutset.
    pub fn relaxes(self) -> bool
        ensures { result ≡ is_relaxing (mode_of self) }
    {
        matches!(self, Mode::Relaxed)
    }

    // `_squash_if_needed` of clean.rs, its test: more nodes than the width; restricted in any layer, relaxed not while only the root layer is stored.
    #[tactic(auto, unfolding(crate::specs::Growing::too_wide))]
    fn too_wide(self, width: usize, count: usize, stored: usize) -> bool
        ensures { result ≡ too_wide (mode_of self) width count stored }
    {
        match self {
            Mode::Exact => false,
            Mode::Restricted => width < count,
            Mode::Relaxed => width < count && 1 < stored,
        }
    }
}

// 'Row 0 is the root.' It needs a row like any other.
#[tactic(auto, using(crate::proofs::Roots::roots))]
fn push_root(nodes: &mut [u64], room: usize, r: Root) -> Result<Counts, Stop>
    requires { room * node_words ≤ length nodes.old }
    ensures { RootPushed room r nodes.old (said result) nodes.new }
{
    if room == 0 {
        return Err(Stop {
            refusal: Refusal::NodesFull,
            counts: Counts { nodes: 0, edges: 0 },
        });
    }
    let n = branch::new_node(r.capacity, r.depth as u64, r.value, true);
    rows::write_node(nodes, NodeId(0), n);
    Ok(Counts { nodes: 1, edges: 0 })
}

// The list becomes the coming layer's rows, larger capacity first.
#[tactic(auto, using(crate::proofs::Squashing::order_laws))]
fn order_layer(nodes: &[u64], list: &mut [usize], start: usize)
    requires { (start + length list.old) * node_words ≤ length nodes.now }
    ensures { LayerOrdered start (length list.old) nodes.now list.new }
{
    order::fill(list, start);
    order::by_capacity(nodes, list);
}

// The squash of a layer that is too wide. Where it goes on, its first `width` rows are the layer, in squash order.
#[tactic(auto, using(crate::proofs::Squashing::squash_laws))]
fn squash(d: &mut Diagram, layer: &mut [usize], t: Task) -> Result<(), Refusal>
    requires { Squashable d.old.at.start d.old.at.counts d.old.at.rooms (t.width - 1) layer.old d.old.nodes.now d.old.edges.now × (0 < t.width) }
    ensures same { Same d.old.nodes d.new.nodes d.old.edges d.new.edges d.old.at d.new.at }
    ensures does { WideSquashed t.mode t.width d.old.at.start d.old.at.counts d.old.at.rooms layer.old d.old.nodes.now
        d.old.edges.now (said_of result d.new.at.counts) layer.new d.new.nodes.now d.new.edges.now }
{
    let nodes = &mut *d.nodes;
    order::by_squash(nodes, layer);
    if t.mode.relaxes() {
        return squash::relax(d, layer, t.width);
    }
    squash::restrict(nodes, layer, t.width);
    Ok(())
}

// A squashed layer is stored and expanded: the list has its rows.
#[tactic(auto, using(crate::proofs::Expanding::layer_expanded))]
fn expand_layer(
    d: &mut Diagram,
    items: Items,
    list: &[usize],
    t: Task,
    s: &mut Store,
    depth: usize,
) -> Result<(), Refusal>
    requires rooms { d.old.at.rooms ≡ t.rooms }
    requires expandable { Expandable items.weights.now t (growth_of d.old.at s.old) depth list.now d.old.nodes.now d.old.edges.now }
    ensures stay { TablesStay d.old.nodes d.new.nodes d.old.edges d.new.edges d.old.at d.new.at }
    ensures does { LayerExpanded items.entry.weights.now items.entry.profits.now t (growth_of d.old.at s.old) depth list.now
        d.old.nodes.now d.old.edges.now (grown_of result d.new.at s.new) d.new.nodes.now d.new.edges.now }
{
    s.layers = s.layers.push(Layer {
        from: d.at.start,
        to: d.at.counts.nodes,
    });
    d.at.start = d.at.counts.nodes;
    expand::expand_all(d, items, list, depth, t.lower)
}

// One layer's turn: ordered, squashed if it is too wide, stored and expanded. The first squash names the last exact layer.
fn grow_layer(
    d: &mut Diagram,
    items: Items,
    list: &mut [usize],
    t: Task,
    s: &mut Store,
    depth: usize,
) -> Result<(), Refusal>
    requires rooms { d.old.at.rooms ≡ t.rooms }
    requires turn { Turn items.weights.now items.profits.now t depth (growth_of d.old.at s.old) list.old d.old.nodes.now d.old.edges.now }
    ensures stay { TablesStay d.old.nodes d.new.nodes d.old.edges d.new.edges d.old.at d.new.at }
    ensures does { Turned items.entry.weights.now items.entry.profits.now t depth (growth_of d.old.at s.old) d.old.nodes.now
        d.old.edges.now (grown_of result d.new.at s.new) d.new.nodes.now d.new.edges.now }
{
    let layer = &mut list[..d.at.counts.nodes - d.at.start];
    let nodes = &mut *d.nodes;
    order_layer(nodes, layer, d.at.start);
    if !t.mode.too_wide(t.width, layer.len(), s.layers.count) {
        return expand_layer(d, items, layer, t, s, depth);
    }
    squash(d, layer, t)?;
    s.last = s.layers.name_last(s.last);
    expand_layer(d, items, &layer[..t.width], t, s, depth)
}

impl Store {
    // How far the run has come, with the counts and the coming layer's first row of its tables.
    fn growth_at(&self, at: Extent) -> Growth
        ensures { result ≡ growth_of at self.now }
    {
        Growth {
            counts: at.counts,
            start: at.start,
            layers: self.layers,
            last: self.last,
        }
    }
}

// 'stop if the coming layer is empty (the Rust then stores the layer 0..0)'
#[tactic(auto, using(crate::proofs::Storing::empty_stored))]
fn store_empty(g: Growth) -> Growth
    requires { g.layers.count < 65 }
    ensures { EmptyStored g result }
{
    Growth {
        layers: g.layers.push(Layer { from: 0, to: 0 }),
        ..g
    }
}

// 'When none remain, a coming layer with nodes is stored as it stands.'
#[tactic(auto, using(crate::proofs::Storing::last_laws))]
fn store_last(g: Growth) -> Growth
    requires { g.layers.count < 65 }
    ensures { LastStored g result }
{
    if g.counts.nodes <= g.start {
        return g;
    }
    Growth {
        layers: g.layers.push(Layer {
            from: g.start,
            to: g.counts.nodes,
        }),
        ..g
    }
}

// The layers from that depth on, until no item or no row is left: 'Item d, in given order, is decided at depth d.' No layer has more
// rows than the list.
fn grow_layers(
    d: &mut Diagram,
    items: Items,
    t: Task,
    s: &mut Store,
    from: usize,
) -> Result<Growth, Refusal>
    requires rooms { d.old.at.rooms ≡ t.rooms }
    requires begun { Begun items.weights.now items.profits.now t from (growth_of d.old.at s.old) d.old.nodes.now d.old.edges.now }
    ensures stay { TablesStay d.old.nodes d.new.nodes d.old.edges d.new.edges d.old.at d.new.at }
    ensures does { Completed items.entry.weights.now items.entry.profits.now t from (growth_of d.old.at s.old) d.old.nodes.now
        d.old.edges.now (stops_at result d.new.at.counts) d.new.nodes.now d.new.edges.now }
{
    let mut list = [0usize; 1024];
    for depth in from..items.len() {
        if d.at.counts.nodes <= d.at.start {
            return Ok(store_empty(s.growth_at(d.at)));
        }
        grow_layer(d, items, &mut list, t, s, depth)?;
    }
    Ok(store_last(s.growth_at(d.at)))
}

// The whole growth of a record's diagram.
pub fn grow(
    nodes: &mut [u64],
    edges: &mut [u64],
    items: Items,
    t: Task,
    r: Root,
) -> Result<Growth, Stop>
    requires { Growable items.weights.now t r nodes.old edges.old }
    ensures { Grew (grown (settings_of t) (items_of items.entry.weights.now items.entry.profits.now) (record_of r)) nodes.old
        edges.old result nodes.new edges.new }
{
    let counts = push_root(nodes, t.rooms.nodes, r)?;
    let mut d = Diagram {
        nodes,
        edges,
        at: Extent {
            start: 0,
            counts,
            rooms: t.rooms,
        },
    };
    let mut s = Store {
        layers: Layers::new(),
        last: None,
    };
    match grow_layers(&mut d, items, t, &mut s, r.depth) {
        Ok(g) => Ok(g),
        Err(refusal) => Err(Stop {
            refusal,
            counts: d.at.counts,
        }),
    }
}
