// Programs that answer lines of numbers with lines of numbers: the loop over requests, reading, writing, lent tables before and after a call, and the small numbers of a request and an answer.
#![tactic(auto)]

pub mod input;
pub mod output;
pub mod tables;

ghost use Rattle.std.specs.Prelude.{◌≡◌, ◌≤◌, ◌==◌, if◌then◌else◌, min, nat_le, zip, MatchResult};
ghost use Rattle.std.specs.List.{list_all};
ghost use Rattle.reasons.specs.Numbers.{number};

use cutset::Kind;
use input::{Input, Stop};
use output::Output;
use reasons::Refusal;

// A program that answers requests.
pub trait Answering {
    // Reads a request and answers it.
    fn turn<R: std::io::Input + Print>(
        &mut self,
        input: &mut Input<R>,
        output: &mut Output<R>,
    ) -> Result<(), Stop>;
}

// Request after request. A proved loop has to end, so it counts its turns, up to a number that no run uses up.
fn turns<R: std::io::Input + Print, A: Answering>(
    program: &mut A,
    input: &mut Input<R>,
    output: &mut Output<R>,
) -> Result<(), Stop> {
    for _ in 0..u64::MAX {
        program.turn(input, output)?;
    }
    Ok(())
}

// A whole run of a program of that name. It says what is wrong where the input didn't end behind a request.
pub fn serve<R: std::io::Input + Print + Eprint, A: Answering>(
    rt: &R,
    name: &str,
    program: &mut A,
) {
    let mut input = Input::new(rt);
    let mut output = Output::new(rt);
    let stop = turns(program, &mut input, &mut output);
    output.flush();
    if let Err(Stop::Broken) = stop {
        let _ = eprintln!(rt; "{name}: this is no request");
    }
}

// A number's limit where it has none.
pub const ANY: u64 = u64::MAX;

// Whether each of a request's first 19 numbers is at most its limit.
pub fn fits(head: &[u64; 19], most: &[u64; 19]) -> bool
    ensures { result ≡ list_all (λ p. nat_le p.0 p.1) (zip head.now most.now) }
{
    head.iter().zip(most).all(|(n, limit)| *n <= *limit)
}

// The cutset kind of that number.
pub fn kind_of(n: u64) -> Kind
    ensures { result ≡ (if n == 0 then Kind.LastExactLayer else Kind.Frontier) }
{
    match n {
        0 => Kind::LastExactLayer,
        _ => Kind::Frontier,
    }
}

// The refusal's number, 0 where nothing is refused.
pub fn number_of<T>(answer: &Result<T, Refusal>) -> u64
    ensures { MatchResult answer.now (λ _. result ≡ 0) (λ r. result ≡ number r) }
{
    match answer {
        Ok(_) => 0,
        Err(refusal) => refusal.number(),
    }
}

// So many, and no more than there are.
pub fn at_most(n: u64, most: usize) -> usize
    ensures few { result ≤ most }
    ensures value { result ≡ min n most }
{
    n.min(most as u64) as usize
}
