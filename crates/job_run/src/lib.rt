// The run of a job whose items are read: a start at i64 minimum, then picks of the largest bound, until the list is empty or a call is refused.
#![tactic(auto)]

ghost use Rattle.std.specs.Prelude.{◌≡◌};
ghost use Rattle.std.specs.Int.Signed.{lt_z};
ghost use Rattle.reasons.specs.Numbers.{numbered};
ghost use Rattle.records.specs.Structs.{places};
ghost use Rattle.cutset.specs.Whole.{kind_of};
ghost use Rattle.search.specs.Asked.{problem_of};
ghost use Rattle.pick_steps.specs.Tried.{held_in};
ghost use Rattle.jobs.specs.Run.{largest};
ghost use Rattle.jobs.specs.Left.{left_of};
ghost use Rattle.job_run.specs.Runs.{left_in};

use reasons::Refusal;
use records::Record;
use search::{Ask, Search};

// Whether a record's bound is below another's. A function of its own, since the check knows the range of a field that is passed by value.
fn is_below(first: Record, other: Record) -> bool
    ensures { result ≡ lt_z first.bound other.bound }
{
    first.bound < other.bound
}

// The place of the largest bound, the lowest on a tie.
fn largest(list: &[Record]) -> usize
    ensures { result ≡ largest (places list.now) }
{
    let mut best = 0;
    for j in 1..list.len() {
        if is_below(list[best], list[j]) {
            best = j;
        }
    }
    best
}

// The run, to its end: the search that it came to, or why a call was refused. Lists and tables hold what its calls left.
// Four slices lent one by one: no plainer in a struct, of which each function that is lent it would say besides that it keeps its references.
pub fn run(
    weights: &[u64],
    profits: &[u64],
    nodes: &mut [u64],
    edges: &mut [u64],
    list: &mut [Record],
    scratch: &mut [u64],
    ask: Ask,
) -> Result<Search, Refusal>
    ensures { left_in (numbered result) (held_in (places list.new) nodes.new edges.new scratch.new) ≡ left_of
        (problem_of weights.now profits.now ask.page ask.width) (kind_of ask.kind)
        (held_in (places list.old) nodes.old edges.old scratch.old) }
{
    let mut s = search::start(weights, profits, ask, i64::MIN, list)?;
    while s.opened > 0 {
        let place = largest(&list[..s.opened]);
        s = pick::pick(weights, profits, nodes, edges, list, scratch, ask, place, s)?;
    }
    Ok(s)
}
