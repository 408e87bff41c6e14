// The answer to a job's text over tables and lists of the sizes that the job programs lend: those of document 01, and larger ones.
#![tactic(auto)]

ghost use Rattle.std.specs.Prelude.{◌<◌, min, replicate};
ghost use Rattle.compile.specs.Asked.{lent_of};
ghost use Rattle.job.specs.Answered.{empty_places, Answers};

use page_text::Output;

// Document 01's tables: 1,024 node rows of 8 words and 1,792 edge rows of 5.
const NODE_WORDS: usize = 8192;

const EDGE_WORDS: usize = 8960;

// Document 01's lists: 128 drained records of 68 words, and how many records can be open.
const SCRATCH_WORDS: usize = 8704;

const OPEN_PLACES: usize = 384;

// The larger tables: 29,238 node rows and 43,317 edge rows, the most that 64 items at width 256 need. The first 9 layers have 511 nodes
// at most, the 56 behind them 512 each, and every node but the root comes by an edge; each of 55 merges adds a node and 257 edges.
const LARGE_NODE_WORDS: usize = 233904;

const LARGE_EDGE_WORDS: usize = 216585;

// The larger lists, which a stack of 8 MiB holds with the tables: 4,096 drained records of 68 words, and the longest open list that `job::answer` makes.
const LARGE_SCRATCH_WORDS: usize = 278528;

const LARGE_OPEN_PLACES: usize = 16384;

// The answer over tables and a scratch list of those sizes, 0 at first, and an open list of so many places. The sizes are
// bounded so that each table has fewer than 2 ^ 63 bytes.
fn answer_over<const NODES: usize, const EDGES: usize, const SCRATCH: usize>(
    text: &[u8],
    open_places: usize,
) -> Output
    requires { (NODES < 1000000) × ((EDGES < 1000000) × (SCRATCH < 1000000)) }
    ensures { Answers text.now (lent_of (replicate NODES 0) (replicate EDGES 0) (replicate SCRATCH 0)) (empty_places (min open_places 16384)) result }
{
    let mut nodes = [0u64; NODES];
    let mut edges = [0u64; EDGES];
    let mut scratch = [0u64; SCRATCH];
    job::answer(text, &mut nodes, &mut edges, &mut scratch, open_places)
}

// The answer over document 01's sizes; all that is lent is 0 at first.
pub fn answer(text: &[u8]) -> Output
    ensures { Answers text.now (lent_of (replicate 8192 0) (replicate 8960 0) (replicate 8704 0)) (empty_places 384) result }
{
    answer_over::<NODE_WORDS, EDGE_WORDS, SCRATCH_WORDS>(text, OPEN_PLACES)
}

// The answer over the larger sizes.
pub fn large_answer(text: &[u8]) -> Output
    ensures { Answers text.now (lent_of (replicate 233904 0) (replicate 216585 0) (replicate 278528 0)) (empty_places 16384) result }
{
    answer_over::<LARGE_NODE_WORDS, LARGE_EDGE_WORDS, LARGE_SCRATCH_WORDS>(text, LARGE_OPEN_PLACES)
}
