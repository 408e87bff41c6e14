// The call `pick`: one open record taken from the lent list, compiled in the lent tables, its drained records appended; and the same over a lent search.
#![tactic(auto)]

ghost use Rattle.std.specs.Prelude.{◌≡◌};
ghost use Rattle.reasons.specs.Numbers.{numbered};
ghost use Rattle.records.specs.Structs.{places};
ghost use Rattle.searches.specs.Pick.{pick};
ghost use Rattle.search.specs.Held.{search_of};
ghost use Rattle.pick_steps.specs.Changed.{Replaceable, replaced};
ghost use Rattle.pick_steps.specs.Tried.{asked_in, held_in};
ghost use Rattle.pick.specs.Picks.{Picks, PicksIn};

use pick_steps::Change;
use reasons::Refusal;
use records::Record;
use search::{Ask, Search};

// Takes an open record from its place, and appends those of the scratch list's first ones that are above the best value.
#[tactic(auto, using(crate::proofs::Replacing::replaced_by))]
fn replace(list: &mut [Record], scratch: &[u64], place: usize, c: Change)
    requires { Replaceable place c scratch.now (places list.old) }
    ensures { places list.new ≡ replaced place c scratch.now (places list.old) }
{
    records::remove(list, place, c.opened);
    records::append_above(list, c.opened - 1, scratch, c.drained, c.search.best);
}

// A pick takes the record in that place of the list, and compiles it if its bound is above the search's best value.
pub fn pick(
    weights: &[u64],
    profits: &[u64],
    nodes: &mut [u64],
    edges: &mut [u64],
    list: &mut [Record],
    scratch: &mut [u64],
    ask: Ask,
    place: usize,
    s: Search,
) -> Result<Search, Refusal>
    ensures { Picks
        (pick (asked_in weights.now profits.now ask place) (search_of s) (held_in (places list.old) nodes.old edges.old scratch.old))
        (numbered result) nodes.new edges.new (places list.new) scratch.new }
{
    let r = records::get(list, place);
    let c = pick_steps::tried(
        weights,
        profits,
        nodes,
        edges,
        scratch,
        ask,
        place,
        s,
        r,
        list.len(),
    )?;
    replace(list, scratch, place, c);
    Ok(c.search)
}

// The same over a lent search, which is changed in place: a refused pick leaves it as it was.
pub fn pick_in(
    weights: &[u64],
    profits: &[u64],
    nodes: &mut [u64],
    edges: &mut [u64],
    list: &mut [Record],
    scratch: &mut [u64],
    ask: Ask,
    place: usize,
    s: &mut Search,
) -> Result<(), Refusal>
    ensures { PicksIn
        (pick (asked_in weights.now profits.now ask place) (search_of s.old) (held_in (places list.old) nodes.old edges.old scratch.old))
        (numbered result) s.new nodes.new edges.new (places list.new) scratch.new }
{
    *s = pick(
        weights, profits, nodes, edges, list, scratch, ask, place, *s,
    )?;
    Ok(())
}
