// The stored layers of a diagram, each a range of rows, by value: the Rust's Vec<Layer> in fixed memory; and which of them is the last exact one.
#![tactic(auto)]

ghost use Rattle.std.specs.Prelude.{◌≡◌, ℕ, ◌+◌, ◌<◌, ◌≤◌, length, get_or};
ghost use Rattle.layers.specs.Layer.{no_layer};

// One for each depth from 0 to 64.
pub const MOST: usize = 65;

// A layer: the rows from .. to of the node table.
#[derive(Clone, Copy, PartialEq, Eq, Debug)]
pub struct Layer {
    pub from: usize,
    pub to: usize,
}

// Layer i, the oldest first, is rows[i]. Places past the count are empty, so that equal layers are equal values.
#[derive(Clone, Copy)]
pub struct Layers {
    pub rows: [Layer; MOST],
    pub count: usize,
    pub ghost sized: { length rows ≡ 65 },
    pub ghost few: { count ≤ 65 },
    pub ghost clear: { (i : ℕ) → count ≤ i → get_or rows i no_layer ≡ no_layer },
}

impl Layers {
    ghost use Rattle.std.specs.Prelude.{[], ◌∷◌};
    ghost use Rattle.diagram.specs.Rule5.{name_last};
    ghost use Rattle.layers.specs.Stored.{stored, range_of, last_of};

    // No layer yet.
    pub fn new() -> Layers
        ensures layers { stored result ≡ [] }
        ensures count { result.count ≡ 0 }
    {
        Layers {
            rows: [Layer { from: 0, to: 0 }; MOST],
            count: 0,
        }
    }

    // One more layer behind those that are stored.
    pub fn push(self, layer: Layer) -> Layers
        requires { self.count < 65 }
        ensures layers { stored result ≡ range_of layer ∷ stored self }
        ensures count { result.count ≡ self.count + 1 }
    {
        let mut out = self;
        out.rows[out.count] = layer;
        out.count += 1;
        out
    }

    // Layer i, the oldest first.
    pub fn get(&self, i: usize) -> Layer
        requires { i < self.now.count }
        ensures { result ≡ get_or self.now.rows i no_layer }
    {
        self.rows[i]
    }

    // 'The first squash names the layer before it the last exact layer.' The layer before it is the newest that is stored.
    pub fn name_last(&self, last: Option<Layer>) -> Option<Layer>
        ensures { last_of result ≡ name_last (last_of last) (stored self.now) }
    {
        match last {
            Some(_) => last,
            None if self.count == 0 => Some(Layer { from: 0, to: 0 }),
            None => Some(self.get(self.count - 1)),
        }
    }
}
