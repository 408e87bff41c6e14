// A node or an edge by value, read from and written to the words of its row, and a record written. No other code knows where a node's or an edge's words stand; a record's are also read in `records`.
#![tactic(auto)]

ghost use Rattle.std.specs.Prelude.{◌≡◌, ◌+◌, ◌*◌, ◌^◌, ◌<◌, ◌≤◌, length, MatchOption};
ghost use Rattle.std.proofs.Math.Seq.{paste};
ghost use Rattle.layout.specs.Records.{record_words};
ghost use Rattle.rows.specs.Values.{node_of, edge_of};
ghost use Rattle.rows.specs.Access.{NodeRead, FieldRead, NodeWritten, EdgeRead, EdgeWritten, RecordWritten};
ghost use Rattle.layout.specs.Rows.{edge_words, node_words, flags_word};

// How many words a row or a record has.
pub const NODE_WORDS: usize = 8;

pub const EDGE_WORDS: usize = 5;

pub const RECORD_WORDS: usize = 68;

// A record's path has so many places, one byte to a word.
pub const PATH_ROOM: usize = 64;

// The number of a node: its row in the node table.
#[derive(Clone, Copy, PartialEq, Eq)]
pub struct NodeId(pub usize);

// The number of an edge: its row in the edge table.
#[derive(Clone, Copy, PartialEq, Eq)]
pub struct EdgeId(pub usize);

// An edge or none, as it stands in a row: 0 for none, e + 1 for edge e. It stays that word, and no Option<EdgeId>: a row that is written takes every word, also one that no edge has.
#[derive(Clone, Copy, PartialEq, Eq)]
pub struct Link(pub u64);

impl Link {
    // No edge.
    pub const NONE: Link = Link(0);

    // The link that leads to an edge.
    pub fn to(e: EdgeId) -> Link
        requires { e.0 + 1 < 2 ^ 64 }
        ensures { result.0 ≡ e.0 + 1 }
    {
        Link(e.0 as u64 + 1)
    }

    // The edge that a link leads to, if any.
    pub fn edge(self) -> Option<EdgeId>
        ensures { MatchOption result (self.0 ≡ 0) (λ e. self.0 ≡ e.0 + 1) }
    {
        match self.0 {
            0 => None,
            word => Some(EdgeId(word as usize - 1)),
        }
    }
}

// A row of the node table. Value, bottom and fast are i64 numbers as words: number + 2^63.
#[derive(Clone, Copy)]
pub struct Node {
    pub capacity: u64,
    pub depth: u64,
    pub value: u64,
    pub bottom: u64,
    pub best: Link,
    pub newest: Link,
    pub fast: u64,
    pub exact: bool,
    pub relaxed: bool,
    pub marked: bool,
    pub cutset: bool,
    pub deleted: bool,
}

// A row of the edge table. The cost is a profit or 0, and so a plain number.
#[derive(Clone, Copy)]
pub struct Edge {
    pub from: NodeId,
    pub to: NodeId,
    pub decision: u64,
    pub cost: u64,
    pub next: Link,
}

// Row n of a table of nodes, or of a part of one that starts at a row. That the row lies in the table is asked here and below as an index's bound is: a type for it would hold the table.
#[tactic(auto, using(crate::proofs::Access::node_read))]
pub fn read_node(nodes: &[u64], n: NodeId) -> Node
    requires { n.0 * node_words + node_words ≤ length nodes.now }
    ensures { NodeRead nodes.now n.0 (node_of result) }
{
    let at = n.0 * NODE_WORDS;
    let flags = nodes[at + 7];
    Node {
        capacity: nodes[at],
        depth: nodes[at + 1],
        value: nodes[at + 2],
        bottom: nodes[at + 3],
        best: Link(nodes[at + 4]),
        newest: Link(nodes[at + 5]),
        fast: nodes[at + 6],
        exact: flags % 2 == 1,
        relaxed: flags / 2 % 2 == 1,
        marked: flags / 4 % 2 == 1,
        cutset: flags / 8 % 2 == 1,
        deleted: flags / 16 % 2 == 1,
    }
}

// The word of a node's flags.
fn flags_word(n: Node) -> u64
    ensures { result ≡ flags_word n.exact n.relaxed n.marked n.cutset n.deleted }
{
    u64::from(n.exact)
        + 2 * u64::from(n.relaxed)
        + 4 * u64::from(n.marked)
        + 8 * u64::from(n.cutset)
        + 16 * u64::from(n.deleted)
}

// Writes row n of such a table: one that is there, or the next.
pub fn write_node(nodes: &mut [u64], n: NodeId, x: Node)
    requires { n.0 * node_words + node_words ≤ length nodes.old }
    ensures { NodeWritten nodes.old n.0 (node_of x) nodes.new }
{
    let at = n.0 * NODE_WORDS;
    let flags = flags_word(x);
    nodes[at] = x.capacity;
    nodes[at + 1] = x.depth;
    nodes[at + 2] = x.value;
    nodes[at + 3] = x.bottom;
    nodes[at + 4] = x.best.0;
    nodes[at + 5] = x.newest.0;
    nodes[at + 6] = x.fast;
    nodes[at + 7] = flags;
}

// Row e of a table of edges.
#[tactic(auto, using(crate::proofs::Access::edge_read))]
pub fn read_edge(edges: &[u64], e: EdgeId) -> Edge
    requires { e.0 * edge_words + edge_words ≤ length edges.now }
    ensures { EdgeRead edges.now e.0 (edge_of result) }
{
    let at = e.0 * EDGE_WORDS;
    Edge {
        from: NodeId(edges[at] as usize),
        to: NodeId(edges[at + 1] as usize),
        decision: edges[at + 2],
        cost: edges[at + 3],
        next: Link(edges[at + 4]),
    }
}

// Writes row e of such a table: one that is there, or the next.
pub fn write_edge(edges: &mut [u64], e: EdgeId, x: Edge)
    requires { e.0 * edge_words + edge_words ≤ length edges.old }
    ensures { EdgeWritten edges.old e.0 (edge_of x) edges.new }
{
    let at = e.0 * EDGE_WORDS;
    edges[at] = x.from.0 as u64;
    edges[at + 1] = x.to.0 as u64;
    edges[at + 2] = x.decision;
    edges[at + 3] = x.cost;
    edges[at + 4] = x.next.0;
}

// A node's capacity alone, for the orders of a layer: eight reads for one number would be a waste.
pub fn read_capacity(nodes: &[u64], n: NodeId) -> u64
    requires { n.0 * node_words + node_words ≤ length nodes.now }
    ensures { FieldRead nodes.now n.0 (λ x. x.capacity) result }
{
    nodes[n.0 * NODE_WORDS]
}

// A node's value alone, as its word. It stays beside read_capacity: one function for both would take the place as a number, and these two lines name the field.
pub fn read_value(nodes: &[u64], n: NodeId) -> u64
    requires { n.0 * node_words + node_words ≤ length nodes.now }
    ensures { FieldRead nodes.now n.0 (λ x. x.value) result }
{
    nodes[n.0 * NODE_WORDS + 2]
}

// Each byte as a word of its own, from place `from` on.
fn write_path(list: &mut [u64], from: usize, bytes: [u8; 64])
    requires { from + 64 ≤ length list.old }
    ensures { list.new ≡ paste list.old from bytes 64 }
{
    for (i, byte) in bytes.iter().enumerate() {
        list[from + i] = u64::from(*byte);
    }
}

// Writes record number r of a list behind those that are there, `bytes` its path with 0 in the places past it.
pub fn write_record(
    list: &mut [u64],
    r: usize,
    capacity: u64,
    value: u64,
    bound: u64,
    depth: u64,
    bytes: [u8; 64],
)
    requires { r * record_words + record_words ≤ length list.old }
    ensures { RecordWritten list.old r capacity value bound depth bytes list.new }
{
    let at = r * RECORD_WORDS;
    list[at] = capacity;
    list[at + 1] = value;
    list[at + 2] = bound;
    list[at + 3] = depth;
    write_path(list, at + 4, bytes);
}
