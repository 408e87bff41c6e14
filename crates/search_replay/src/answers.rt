// The parts of an answer.
use lines::number_of;
use lines::output::Output;
use reasons::Refusal;
use records::Record;
use search::Search;

fn put_record<R: Print>(output: &mut Output<R>, r: &Record) {
    let value = words::word(r.value);
    let bound = words::word(r.bound);
    output.put_all(&[r.capacity, value, bound, r.depth]);
    output.put_all(&r.path);
}

// Each record of a list.
pub fn put_records<R: Print>(output: &mut Output<R>, list: &[Record]) {
    for r in list {
        put_record(output, r);
    }
}

// The refusal's number, and the search after the call: that before it, where it was refused.
pub fn put_search<R: Print>(
    output: &mut Output<R>,
    answer: Result<Search, Refusal>,
    before: Search,
) {
    output.put(number_of(&answer));
    let s = answer.unwrap_or(before);
    let best = words::word(s.best);
    output.put_all(&[best, u64::from(s.held), s.opened as u64, s.picks]);
    output.put_all(&s.path);
}
