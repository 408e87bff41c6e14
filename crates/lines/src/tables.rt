// Lent tables: contents to begin with, which two numbers tell, and what a call changed of them.
ghost use Rattle.std.specs.Prelude.{◌≡◌, length, min};
ghost use Rattle.io.specs.Counts.{IsPrefixLen};

use crate::at_most;
use crate::output::Output;

// A table's first words, so many and no more than it has.
pub fn first_words(table: &mut [u64], count: u64) -> &mut [u64]
    ensures { length result.now ≡ min count (length table.old) }
{
    let n = at_most(count, table.len());
    &mut table[..n]
}

// Old contents of a lent table: word i is start + i * step, modulo 2^64. A running sum: a product for each word took longer.
pub fn fill(table: &mut [u64], start: u64, step: u64) {
    let mut old = start;
    for word in table {
        *word = old;
        old = old.wrapping_add(step);
    }
}

// How many words there are up to the last that isn't as before. From the first word on, for the same reason.
fn changed(table: &[u64], start: u64, step: u64) -> usize
    ensures { IsPrefixLen result table.now }
{
    let mut old = start;
    let mut last = 0;
    for (i, word) in table.iter().enumerate() {
        if *word != old {
            last = i + 1;
        }
        old = old.wrapping_add(step);
    }
    last
}

// A table after the call: the number of words up to the last that changed, and these words.
fn put_table<R: Print>(output: &mut Output<R>, table: &[u64], start: u64, step: u64) {
    let count = changed(table, start, step);
    output.put(count as u64);
    output.put_all(&table[..count]);
}

// The three tables after a call that began with old contents of this request's.
pub fn put_tables<R: Print>(
    output: &mut Output<R>,
    nodes: &[u64],
    edges: &[u64],
    records: &[u64],
    head: &[u64; 19],
) {
    let step = head[18];
    put_table(output, nodes, head[15], step);
    put_table(output, edges, head[16], step);
    put_table(output, records, head[17], step);
}

// The tables that a request lends.
#[derive(Drop)]
pub struct Tables<'a> {
    pub nodes: &'a mut [u64],
    pub edges: &'a mut [u64],
    pub records: &'a mut [u64],
}

impl Tables<'_> {
    // Old contents of the three. A request's first 19 numbers end in the first word of each and the step.
    pub fn fill(&mut self, head: &[u64; 19]) {
        let step = head[18];
        fill(self.nodes, head[15], step);
        fill(self.edges, head[16], step);
        fill(self.records, head[17], step);
    }

    // The three after the call.
    pub fn put<R: Print>(&self, output: &mut Output<R>, head: &[u64; 19]) {
        put_tables(output, self.nodes, self.edges, self.records, head);
    }
}
