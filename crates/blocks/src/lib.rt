// The block problem in code: what a weight counts as, what a decision's byte says, and the fast bound of a state.
#![tactic(auto)]

ghost use Rattle.std.specs.Prelude.{◌≡◌, ◌≤◌, length, drop};
ghost use Rattle.knapsack.specs.Items.{items_of, counted, item_of, is_take};
ghost use Rattle.knapsack.specs.FastBound.{fast_bound};
ghost use Rattle.knapsack.specs.Limits.{InLimits};

// What a block of that byte length takes of a page: every use of a weight goes through this one function.
#[tactic(auto, unfolding(knapsack::specs::Items::counted))]
pub fn counted(weight: u64) -> u64
    ensures { result ≡ counted weight }
{
    weight
}

// The item that a decision's byte decides.
#[tactic(auto, unfolding(knapsack::specs::Items::item_of))]
pub fn item_of(byte: u8) -> usize
    ensures { result ≡ item_of byte }
{
    usize::from(byte / 2)
}

// Whether a decision's byte takes its item.
#[tactic(auto, unfolding(knapsack::specs::Items::is_take))]
pub fn is_take(byte: u8) -> bool
    ensures { result ≡ is_take byte }
{
    byte % 2 == 1
}

// The items of a block problem within the limits: item d has the weight and the profit at place d.
#[derive(Clone, Copy)]
pub struct Items<'a> {
    pub weights: &'a [u64],
    pub profits: &'a [u64],
    pub ghost limits: { InLimits weights.now profits.now },
}

impl Items<'_> {
    // How many items there are.
    pub fn len(self) -> usize
        ensures { result ≡ length self.entry.weights.now }
    {
        self.weights.len()
    }

    // The fast bound of a state at that depth with that capacity left.
    pub fn fast_upper_bound(self, depth: usize, capacity: u64) -> u64
        ensures value { result ≡ fast_bound (drop depth (items_of self.entry.weights.now self.entry.profits.now)) capacity }
        ensures within { result ≤ 64000000 }
    {
        let from = depth.min(self.weights.len());
        let mut sum = 0;
        for (weight, profit) in self.weights[from..].iter().zip(&self.profits[from..]) {
            if counted(*weight) <= capacity {
                sum += *profit;
            }
        }
        sum
    }
}
