// A request: its numbers as they are read, and what they ask. The first 19 stand in `head`, in the order of tools/search/README.md.
ghost use Rattle.std.specs.Prelude.{◌≤◌};

use lines::input::{Input, Stop};
use lines::{ANY, at_most, fits, kind_of};
use records::Record;
use search::{Ask, Search};
use std::array;

// There is room for lists of these lengths, and call and cutset kind have their numbers.
const MOST: [u64; 19] = [
    1, 192, 192, ANY, ANY, 1, ANY, ANY, ANY, ANY, ANY, 64, 16384, 16384, 16384, ANY, ANY, ANY, ANY,
];

// The numbers of a request: its weights, profits and records stand first in their lists.
#[derive(Drop)]
pub struct Asked {
    pub head: [u64; 19],
    weights: [u64; 192],
    profits: [u64; 192],
    path: [u8; 64],
    pub list: [Record; 64],
}

// The 64 records of a flat list of words.
fn records_of(words: &[u64; 4352]) -> [Record; 64] {
    array::from_fn(|i| records::from_words(words, i))
}

impl Asked {
    // The next request. At the input's end there is none; what ends before its last number is none either.
    pub fn read<R: std::io::Input>(input: &mut Input<R>) -> Result<Asked, Stop> {
        let mut head = [0; 19];
        let mut weights = [0; 192];
        let mut profits = [0; 192];
        let mut path = [0; 64];
        let mut list = [0; 4352];
        input.list(&mut head, 19)?;
        if !fits(&head, &MOST) {
            return Err(Stop::Broken);
        }
        input.rest(&mut weights, head[1])?;
        input.rest(&mut profits, head[2])?;
        input.rest(&mut path, 64)?;
        let places = at_most(head[11], 64);
        input.rest(&mut list, places as u64 * 68)?;
        Ok(Asked {
            head,
            weights,
            profits,
            path: path.map(|n| (n % 256) as u8),
            list: records_of(&list),
        })
    }

    pub fn weights(&self) -> &[u64] {
        &self.weights[..at_most(self.head[1], 192)]
    }

    pub fn profits(&self) -> &[u64] {
        &self.profits[..at_most(self.head[2], 192)]
    }

    // Whether a start is asked, else a pick.
    pub fn is_start(&self) -> bool {
        self.head[0] == 0
    }

    pub fn ask(&self) -> Ask {
        Ask {
            page: self.head[3],
            width: self.head[4],
            kind: kind_of(self.head[5]),
        }
    }

    // The bound that a start is asked with.
    pub fn bound(&self) -> i64 {
        words::number(self.head[6])
    }

    // The search that a pick is asked of.
    pub fn search(&self) -> Search {
        let head = self.head;
        Search {
            best: words::number(head[6]),
            held: head[7] == 1,
            path: self.path,
            opened: head[8] as usize,
            picks: head[9],
        }
    }

    // The place that is picked.
    pub fn place(&self) -> usize {
        self.head[10] as usize
    }

    // How many places of the list are lent.
    pub fn places(&self) -> usize
        ensures { result ≤ 64 }
    {
        at_most(self.head[11], 64)
    }
}
