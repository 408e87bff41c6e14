// Refusals 1 to 9 in code: whether a block problem and a record are refused before anything is written, and with which number.
#![tactic(auto)]

ghost use Rattle.std.specs.Prelude.{◌≡◌, ℕ, ◌+◌, ◌≤◌, eqb, ℤ, length, get_or};
ghost use Rattle.knapsack.specs.Items.{items_of};
ghost use Rattle.calls.specs.Rows.{namings, taken_weight, taken_profit};
ghost use Rattle.calls.specs.Refusals.{first_of, some_above, each_once, is_natural, problem_checks, record_checks, compile_refusal};
ghost use Rattle.refusals.specs.Verdict.{refusal_of, Checked};

use blocks::{Items, counted, is_take, item_of};
use reasons::Refusal;

// Whether some number is above the limit.
fn some_above(limit: u64, xs: &[u64]) -> bool
    ensures { result ≡ some_above limit xs.now }
{
    xs.iter().any(|x| limit < *x)
}

// How often a path names the item.
fn namings(item: u64, path: &[u8]) -> usize
    ensures { result ≡ namings item path.now }
{
    path.iter()
        .filter(|byte| item_of(**byte) as u64 == item)
        .count()
}

// Whether a path names each item below the depth exactly once.
fn each_once(depth: u64, path: &[u8]) -> bool
    ensures { result ≡ each_once depth path.now }
{
    (0..depth).all(|item| namings(item, path) == 1)
}

// The number at that place, or 0 past the end, as the definitions read a list.
fn at_or_zero(xs: &[u64], place: usize) -> u64
    ensures { result ≡ get_or xs.now place 0 }
{
    xs.get(place).copied().unwrap_or(0)
}

// What the bytes of a path take and earn.
#[derive(Drop)]
struct Taken {
    weight: u64,
    profit: u64,
}

// The limits keep both sums in u64.
fn taken_by(items: Items, path: &[u8]) -> Taken
    requires { length path.now ≤ 64 }
    ensures { (result.weight ≡ taken_weight (items_of items.entry.weights.now items.entry.profits.now) path.now)
        × (result.profit ≡ taken_profit (items_of items.entry.weights.now items.entry.profits.now) path.now) }
{
    let mut weight = 0;
    let mut profit = 0;
    for byte in path {
        if is_take(*byte) {
            weight += counted(at_or_zero(items.weights, item_of(*byte)));
            profit += at_or_zero(items.profits, item_of(*byte));
        }
    }
    Taken { weight, profit }
}

// Whether what is taken and what is left make the page. Their sum may pass the end of u64, so the code takes the difference.
fn makes_page(taken: u64, left: u64, page: u64) -> bool
    ensures { result ≡ eqb (taken + left) page }
{
    left <= page && taken == page - left
}

// Whether an i64 is that number.
fn is_natural(value: i64, n: u64) -> bool
    ensures { result ≡ is_natural value n }
{
    match u64::try_from(value) {
        Ok(natural) => natural == n,
        Err(_) => false,
    }
}

// Refusals 1 to 6: of weights and profits, page capacity and width. What passes them is the problem's items. All four stay parameters,
// here and below: each caller has them in a struct of its own (what a compile, a search or a job asks), and would only make one more for
// the call.
#[tactic(auto, using(crate::proofs::Accepted::in_limits), unfolding(calls::specs::Refusals::first_of, calls::specs::Refusals::problem_checks))]
pub fn problem_refusal<'a>(
    weights: &'a [u64],
    profits: &'a [u64],
    page: u64,
    width: u64,
) -> Result<Items<'a>, Refusal>
    ensures refused { refusal_of result ≡ first_of (problem_checks (record { weights = weights.now; profits = profits.now; page = page; width = width })) }
    ensures checked { Checked weights.now profits.now result }
{
    if weights.len() != profits.len() {
        return Err(Refusal::LengthsDiffer);
    }
    if weights.len() > 64 {
        return Err(Refusal::TooManyItems);
    }
    if page > 65535 {
        return Err(Refusal::PageTooLarge);
    }
    if some_above(65535, weights) {
        return Err(Refusal::WeightTooLarge);
    }
    if some_above(1000000, profits) {
        return Err(Refusal::ProfitTooLarge);
    }
    if width == 0 || width > 256 {
        return Err(Refusal::WidthOutOfRange);
    }
    Ok(Items { weights, profits })
}

// Refusals 7 to 9: of a record, for items that passed 1 to 6. They read neither the width nor the record's bound.
#[tactic(auto, unfolding(calls::specs::Refusals::first_of, calls::specs::Refusals::record_checks))]
pub fn record_refusal(
    items: Items,
    page: u64,
    capacity: u64,
    value: i64,
    depth: u64,
    path: &[u8],
) -> Result<(), Refusal>
    ensures { (width : ℕ) (bound : ℤ) → refusal_of result ≡ first_of (record_checks
        (record { weights = items.entry.weights.now; profits = items.entry.profits.now; page = page; width = width })
        (record { capacity = capacity; value = value; bound = bound; depth = depth; path = path.now })) }
{
    if depth > items.len() as u64 || path.len() as u64 != depth {
        return Err(Refusal::DepthMismatch);
    }
    if !each_once(depth, path) {
        return Err(Refusal::PathMismatch);
    }
    let taken = taken_by(items, path);
    if !makes_page(taken.weight, capacity, page) || !is_natural(value, taken.profit) {
        return Err(Refusal::RecordMismatch);
    }
    Ok(())
}

// Refusals 1 to 9, as a compile gives them.
pub fn compile_refusal<'a>(
    weights: &'a [u64],
    profits: &'a [u64],
    page: u64,
    width: u64,
    capacity: u64,
    value: i64,
    depth: u64,
    path: &[u8],
) -> Result<Items<'a>, Refusal>
    ensures refused { (bound : ℤ) → refusal_of result ≡ compile_refusal
        (record { weights = weights.now; profits = profits.now; page = page; width = width })
        (record { capacity = capacity; value = value; bound = bound; depth = depth; path = path.now }) }
    ensures checked { Checked weights.now profits.now result }
{
    let items = problem_refusal(weights, profits, page, width)?;
    record_refusal(items, page, capacity, value, depth, path)?;
    Ok(items)
}
