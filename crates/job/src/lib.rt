// A job's text in, its answer out: the text is read, the search run over lent tables and lists, and the answer written.
#![tactic(auto)]

ghost use Rattle.std.specs.Prelude.{◌≡◌, min};
ghost use Rattle.reasons.specs.Numbers.{numbered};
ghost use Rattle.records.specs.Structs.{places};
ghost use Rattle.compile.specs.Asked.{lent_of};
ghost use Rattle.page_text.specs.Says.{Says};
ghost use Rattle.pick_steps.specs.Tried.{held_in};
ghost use Rattle.job_run.specs.Runs.{left_in};
ghost use Rattle.job.specs.Answered.{left_if, text_of, Runs, Writable, Answers, Leaves, LeavesLent, empty_places};

use job_text::Job;
use page_text::Output;
use reasons::Refusal;
use records::Record;
use search::{Ask, Search};

// A run that no refusal ended: how many items its job has, and the search that it came to.
#[derive(Clone, Copy)]
pub struct Ran {
    pub items: usize,
    pub search: Search,
}

// The run of a job that was read, over the first places for its items. What refused the reading refuses the run, and one of more than 64 items is refused: all that is lent is as it was.
// Four slices lent one by one, here and below: `job_run::run` has the reason.
pub fn run_if(
    read: Result<Job, Refusal>,
    nodes: &mut [u64],
    edges: &mut [u64],
    list: &mut [Record],
    scratch: &mut [u64],
) -> Result<Search, Refusal>
    ensures { left_in (numbered result) (held_in (places list.new) nodes.new edges.new scratch.new) ≡ left_if (numbered read)
        (held_in (places list.old) nodes.old edges.old scratch.old) }
{
    let job = read?;
    if job.count > 64 {
        return Err(Refusal::TooManyItems);
    }
    let ask = Ask {
        page: job.page,
        width: job.width,
        kind: job.kind,
    };
    job_run::run(
        &job.weights[..job.count],
        &job.profits[..job.count],
        nodes,
        edges,
        list,
        scratch,
        ask,
    )
}

// The run of the job that a text is of, or why there is none.
pub fn run_text(
    text: &[u8],
    nodes: &mut [u64],
    edges: &mut [u64],
    list: &mut [Record],
    scratch: &mut [u64],
) -> Result<Ran, Refusal>
    ensures runs { Runs text.now (held_in (places list.old) nodes.old edges.old scratch.old) (numbered result)
        (held_in (places list.new) nodes.new edges.new scratch.new) }
    ensures writable { Writable (numbered result) }
{
    let job = job_text::read(text)?;
    let search = run_if(Ok(job), nodes, edges, list, scratch)?;
    Ok(Ran {
        items: job.count,
        search,
    })
}

// The answer that is written of a run.
pub fn written(ran: Result<Ran, Refusal>) -> Output
    requires { Writable (numbered ran) }
    ensures { Says (text_of (numbered ran)) 671 result }
{
    match ran {
        Ok(Ran { items, search }) => page_text::page(search.best, search.path, items, search.picks),
        Err(refusal) => page_text::refusal(refusal.number()),
    }
}

// Answers a job's text. Lists and tables hold what its run left.
pub fn run_job(
    text: &[u8],
    nodes: &mut [u64],
    edges: &mut [u64],
    list: &mut [Record],
    scratch: &mut [u64],
) -> Output
    ensures { Answers text.now (lent_of nodes.old edges.old scratch.old) (places list.old) result
        × Leaves text.now (held_in (places list.old) nodes.old edges.old scratch.old)
        (held_in (places list.new) nodes.new edges.new scratch.new) }
{
    let ran = run_text(text, nodes, edges, list, scratch);
    written(ran)
}

// The same over an open list of its own: so many places, all empty, and no more than 16,384. One function for programs of all sizes.
pub fn answer(
    text: &[u8],
    nodes: &mut [u64],
    edges: &mut [u64],
    scratch: &mut [u64],
    open_places: usize,
) -> Output
    ensures { Answers text.now (lent_of nodes.old edges.old scratch.old) (empty_places (min open_places 16384)) result
        × LeavesLent text.now (held_in (empty_places (min open_places 16384)) nodes.old edges.old scratch.old)
        (lent_of nodes.new edges.new scratch.new) }
{
    let none = records::empty();
    let mut list = [none; 16384];
    let n = open_places.min(16384);
    run_job(text, nodes, edges, &mut list[..n], scratch)
}
