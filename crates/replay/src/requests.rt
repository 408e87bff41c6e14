// A request: its numbers as they are read, and what they ask. The first 19 stand in `head`, in the order of tools/oracle/README.md.
use compile::Request;
use grow::Mode;
use lines::input::{Input, Stop};
use lines::{ANY, at_most, fits, kind_of};

// There is room for lists of these lengths, mode and cutset kind have their numbers, and the largest tables are what 64 items can need at
// width 256, and 2,048 records.
const MOST: [u64; 19] = [
    192, 192, 320, ANY, ANY, 2, 1, ANY, ANY, ANY, ANY, ANY, 233904, 216585, 139264, ANY, ANY, ANY,
    ANY,
];

// The numbers of a request: its weights, profits and path stand first in their lists.
#[derive(Drop)]
pub struct Asked {
    pub head: [u64; 19],
    weights: [u64; 192],
    profits: [u64; 192],
    path: [u8; 320],
}

fn mode_of(n: u64) -> Mode {
    match n {
        0 => Mode::Exact,
        1 => Mode::Restricted,
        _ => Mode::Relaxed,
    }
}

// The numbers of a path as bytes, or none where one is no byte.
fn narrow(numbers: &[u64; 320]) -> Option<[u8; 320]> {
    let mut path = [0; 320];
    for (byte, n) in path.iter_mut().zip(numbers) {
        *byte = u8::try_from(*n).ok()?;
    }
    Some(path)
}

impl Asked {
    // The next request. At the input's end there is none; what ends before its last number is none either.
    pub fn read<R: std::io::Input>(input: &mut Input<R>) -> Result<Asked, Stop> {
        let mut head = [0; 19];
        let mut weights = [0; 192];
        let mut profits = [0; 192];
        let mut path = [0; 320];
        input.list(&mut head, 19)?;
        if !fits(&head, &MOST) {
            return Err(Stop::Broken);
        }
        input.rest(&mut weights, head[0])?;
        input.rest(&mut profits, head[1])?;
        input.rest(&mut path, head[2])?;
        let path = narrow(&path).ok_or(Stop::Broken)?;
        Ok(Asked {
            head,
            weights,
            profits,
            path,
        })
    }

    pub fn weights(&self) -> &[u64] {
        &self.weights[..at_most(self.head[0], 192)]
    }

    pub fn profits(&self) -> &[u64] {
        &self.profits[..at_most(self.head[1], 192)]
    }

    pub fn path(&self) -> &[u8] {
        &self.path[..at_most(self.head[2], 320)]
    }

    pub fn request(&self) -> Request {
        let head = self.head;
        Request {
            page: head[3],
            width: head[4],
            mode: mode_of(head[5]),
            kind: kind_of(head[6]),
            lower: words::number(head[7]),
            capacity: head[8],
            value: words::number(head[9]),
            bound: words::number(head[10]),
            depth: head[11],
        }
    }
}
