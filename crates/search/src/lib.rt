// The search: the call `start` over the lent list of record structs, and what start and pick decide, by value.
#![tactic(auto)]

ghost use Rattle.std.specs.Prelude.{◌≡◌, ℕ, ◌<◌};
ghost use Rattle.calls.specs.Refusals.{first_of, record_checks};
ghost use Rattle.reasons.specs.Numbers.{numbered};
ghost use Rattle.refusals.specs.Verdict.{refusal_of, Checked};
ghost use Rattle.records.specs.Structs.{place_from, places};
ghost use Rattle.searches.specs.Places.{given_at, root_place};
ghost use Rattle.searches.specs.Search.{most_picks};
ghost use Rattle.searches.specs.Start.{begun, start};
ghost use Rattle.searches.specs.Pick.{pick_check, better, one_pick_more};
ghost use Rattle.search.specs.Held.{search_of, option_of};
ghost use Rattle.search.specs.Asked.{problem_of};
ghost use Rattle.search.specs.Begins.{Begins};
ghost use Rattle.search.specs.Refused.{pick_first};

use blocks::Items;
use cutset::Kind;
use reasons::Refusal;
use records::Record;

// How a search is asked: the page, and how each record is compiled.
#[derive(Clone, Copy)]
pub struct Ask {
    pub page: u64,
    pub width: u64,
    pub kind: Kind,
}

// What a search holds. The path is all 0 where none is held.
// `held` stands beside the path, and is no Option: a C host lends both, and searches/specs/Search.antt fixes the bytes of a path that isn't held.
#[derive(Clone, Copy)]
pub struct Search {
    pub best: i64,
    pub held: bool,
    pub path: [u8; 64],
    pub opened: usize,
    pub picks: u64,
}

impl Ask {
    // The root record, which a start writes in the list's first place.
    #[tactic(auto, unfolding(records::specs::Structs::place_from, searches::specs::Places::root_place, diagram::specs::Record::padded))]
    pub fn root_record(self) -> Record
        ensures { place_from result ≡ root_place self.page }
    {
        Record {
            capacity: self.page,
            value: 0,
            bound: i64::MAX,
            depth: 0,
            path: [0u8; 64],
        }
    }
}

impl Search {
    // The search before its first pick.
    #[tactic(auto, unfolding(searches::specs::Start::begun, diagram::specs::Record::padded))]
    fn begun(bound: i64) -> Search
        ensures { search_of result ≡ begun bound }
    {
        Search {
            best: bound,
            held: false,
            path: [0u8; 64],
            opened: 1,
            picks: 0,
        }
    }

    // Whether 14 applies: the place is not open, the list is too short for the open count, or no pick more can be counted.
    #[tactic(auto, unfolding(searches::specs::Pick::pick_check))]
    fn unpickable(self, place: usize, places: usize) -> bool
        ensures { result ≡ (pick_check (search_of self) place places).applies }
    {
        place >= self.opened || self.opened > places || self.picks == u64::MAX
    }

    // A strictly larger best exact value replaces best and path.
    #[tactic(auto, unfolding(searches::specs::Pick::better))]
    pub fn better(self, best_exact: Option<i64>, path: [u8; 64]) -> Search
        ensures { search_of result ≡ better (option_of best_exact) path (search_of self) }
    {
        match best_exact {
            Some(value) if self.best < value => Search {
                best: value,
                held: true,
                path,
                ..self
            },
            _ => self,
        }
    }

    // One accepted pick more, with that many records open.
    #[tactic(auto, unfolding(searches::specs::Pick::one_pick_more))]
    pub fn one_pick_more(self, opened: usize) -> Search
        requires { self.picks < most_picks }
        ensures { search_of result ≡ one_pick_more opened (search_of self) }
    {
        Search {
            opened,
            picks: self.picks + 1,
            ..self
        }
    }
}

// Refusals 1 to 6, then 14; what passes them is the problem's items. The rest of a pick's refusals are the record's, for which it must
// be read.
#[tactic(auto, using(crate::proofs::Firsts::pick_rules))]
pub fn pick_verdict<'a>(
    weights: &'a [u64],
    profits: &'a [u64],
    page: u64,
    width: u64,
    s: Search,
    place: usize,
    places: usize,
) -> Result<Items<'a>, Refusal>
    ensures refused { refusal_of result ≡ pick_first (problem_of weights.now profits.now page width) (search_of s) place places }
    ensures checked { Checked weights.now profits.now result }
{
    let items = refusals::problem_refusal(weights, profits, page, width)?;
    if s.unpickable(place, places) {
        return Err(Refusal::NotPickable);
    }
    Ok(items)
}

// Refusals 7 to 9 of the record in a place. A depth above the path's room is above every item count.
pub fn record_verdict(items: Items, page: u64, r: Record) -> Result<(), Refusal>
    ensures { (width : ℕ) → refusal_of result ≡ first_of (record_checks
        (problem_of items.entry.weights.now items.entry.profits.now page width) (given_at (place_from r))) }
{
    if r.depth > 64 {
        return Err(Refusal::DepthMismatch);
    }
    let depth = r.depth as usize;
    refusals::record_refusal(items, page, r.capacity, r.value, r.depth, &r.path[..depth])
}

// A start checks 1 to 6, then 13, and writes the root record in the list's first place. Refused, it gives no search and leaves the list unchanged.
pub fn start(
    weights: &[u64],
    profits: &[u64],
    ask: Ask,
    bound: i64,
    list: &mut [Record],
) -> Result<Search, Refusal>
    ensures { Begins (start (problem_of weights.now profits.now ask.page ask.width) bound (places list.old)) (numbered result)
        (places list.new) }
{
    refusals::problem_refusal(weights, profits, ask.page, ask.width)?;
    if list.is_empty() {
        return Err(Refusal::RecordsFull);
    }
    list[0] = ask.root_record();
    Ok(Search::begun(bound))
}
