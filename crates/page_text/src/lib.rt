// A job's answer as text: best, a line for each item and picks, or the refusal alone.
#![tactic(auto)]

ghost use Rattle.std.specs.Prelude.{◌≡◌, cond, [], ◌∷◌, ◌++◌, ◌+◌, ◌<◌, ◌≤◌, length};
ghost use Rattle.numbers.specs.Decimal.{decimal};
ghost use Rattle.jobs.specs.Text.{line, line3, item};
ghost use Rattle.jobs.specs.Page.{natural, taken, item_lines, refusal_of};
ghost use Rattle.page_text.specs.Page.{page_from};
ghost use Rattle.page_text.specs.Put.{empty, Puts};
ghost use Rattle.page_text.specs.Says.{Says};

// An answer: the first `count` of the bytes, with 0 behind them. No answer is longer than 671 bytes.
// An array with its count, and no String: the memory is fixed.
#[derive(Drop)]
pub struct Output {
    pub bytes: [u8; 671],
    pub count: usize,
}

impl Output {
    // Nothing yet.
    fn empty() -> Output
        ensures { result ≡ empty }
    {
        Output {
            bytes: [0u8; 671],
            count: 0,
        }
    }

    // Puts a text behind what stands there.
    fn put(&mut self, text: &[u8])
        requires { self.old.count + length text.now ≤ length self.old.bytes }
        ensures { Puts text.now self.old self.new }
    {
        let end = self.count + text.len();
        self.bytes[self.count..end].copy_from_slice(text);
        self.count = end;
    }

    // Puts a text and then the byte that ends it.
    fn put_field(&mut self, text: &[u8], end: u8)
        requires { self.old.count + length text.now < length self.old.bytes }
        ensures { Puts (text.now ++ (end ∷ [])) self.old self.new }
    {
        self.put(text);
        self.bytes[self.count] = end;
        self.count += 1;
    }

    // Puts a number's digits and then the byte that ends them. They are written into an array of their own first, since a
    // number may be put where there is no room for 20 digits.
    fn put_number(&mut self, n: u64, end: u8)
        requires { self.old.count + length (decimal n) < length self.old.bytes }
        ensures { Puts (decimal n ++ (end ∷ [])) self.old self.new }
    {
        let mut digits = [0u8; 20];
        let k = numbers::write(&mut digits, 0, n);
        self.put_field(&digits[..k], end);
    }

    // Puts a line of a name and a number.
    fn put_line(&mut self, name: &[u8], n: u64)
        requires { self.old.count + length (line name.now (decimal n)) ≤ length self.old.bytes }
        ensures { Puts (line name.now (decimal n)) self.old self.new }
    {
        self.put_field(name, b'\t');
        self.put_number(n, b'\n');
    }

    // Puts an item's line: `item`, its number, 1 where it is taken and 0 where not.
    fn put_item(&mut self, d: usize, mark: u64)
        requires { self.old.count + length (line3 item (decimal d) (decimal mark)) ≤ length self.old.bytes }
        ensures { Puts (line3 item (decimal d) (decimal mark)) self.old self.new }
    {
        self.put_field(b"item", b'\t');
        self.put_number(d as u64, b'\t');
        self.put_number(mark, b'\n');
    }

    // Puts the lines of all items: as many as the path has bytes.
    fn put_items(&mut self, path: &[u8])
        requires { (length path.now ≤ 64)
            × (self.old.count + length (item_lines (length path.now) 0 path.now) ≤ length self.old.bytes) }
        ensures { Puts (item_lines (length path.now) 0 path.now) self.old self.new }
    {
        for d in 0..path.len() {
            self.put_item(d, mark_of(path, d));
        }
    }
}

// 1 where one of the path's bytes takes item d, 0 where none does.
fn mark_of(path: &[u8], d: usize) -> u64
    requires { d < 64 }
    ensures { result ≡ cond (taken d path.now) 1 0 }
{
    let takes = 2 * d + 1;
    let is_taken = path.iter().any(|byte| usize::from(*byte) == takes);
    if is_taken { 1 } else { 0 }
}

// The best value as the natural number that it is, and 0 for one below 0, which no search of an answered job has.
fn natural(best: i64) -> u64
    ensures { result ≡ natural best }
{
    best.max(0) as u64
}

// The answer of a search that ended with that best value, path and number of picks.
pub fn page(best: i64, path: [u8; 64], items: usize, picks: u64) -> Output
    requires { (natural best < 100000000) × (items ≤ 64) }
    ensures { Says (page_from best path items picks) 671 result }
{
    let mut page = Output::empty();
    page.put_line(b"best", natural(best));
    page.put_items(&path[..items]);
    page.put_line(b"picks", picks);
    page
}

// The answer of a run that a refusal ended. It takes every number, since documents name it.
pub fn refusal(number: u64) -> Output
    ensures { Says (refusal_of number) 29 result }
{
    let mut page = Output::empty();
    page.put_line(b"refused", number);
    page
}
