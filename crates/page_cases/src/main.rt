// Answers, over document 01's sizes, the jobs of the files that its arguments name, in turn: for each its name, a line end and the answer.
#![tactic(auto)]

use std::env::Env;
use std::rt::Runtime;

// Writes argument i and a line end. Where they can't be written, the answer behind them can't either, and standard error says so.
fn write_name<R: Runtime>(rt: &R, i: usize) {
    let mut name = io::buffer();
    let length = rt.arg(i, &mut name).unwrap_or(0);
    let _ = rt.write_all(&name[..length]);
    let _ = rt.write_all(b"\n");
}

// Answers the job of the file that argument i names.
fn answer_named<R: Runtime>(rt: &R, i: usize) {
    let mut text = io::large_buffer();
    if let Some(count) = job_io::read_named(rt, i, &mut text) {
        let answer = job_tables::answer(&text[..count]);
        job_io::write(rt, answer);
    }
}

fn main(rt: HostRuntime) {
    for i in 1..usize::MAX {
        if !job_io::is_given(&rt, i) {
            break;
        }
        write_name(&rt, i);
        answer_named(&rt, i);
    }
}
