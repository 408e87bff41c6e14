// Where a job's text comes from and where its answer goes: a file that an argument names or standard input, and standard output.
#![tactic(auto)]

ghost use Rattle.std.specs.Prelude.{◌≤◌, length, IfSome};
ghost use Rattle.io.specs.Counts.{IsPrefixLen};

use page_text::Output;
use std::env::{Env, FillError};
use std::fs;
use std::io::{Error, ErrorKind, Input, Read};
use std::rt::Files;

// The system's number for a name that is too long: that of an argument longer than the buffer for it.
const NAME_TOO_LONG: i32 = 36;

// A line on standard error: what failed, and why. Where it can't be written there is no place left to say so.
fn tell(rt: &impl Eprint, what: &str, why: Error) {
    let _ = eprintln!(rt; "{what}: {why}");
}

// Reads once, and answers how many bytes came: none where the input has ended. If it can't be read, standard error says why.
fn read_some<R: Eprint, S: Read>(rt: &R, name: &str, from: &mut S, into: &mut [u8]) -> Option<usize>
    ensures { IfSome result (λ n. n ≤ length into.old) }
{
    match from.read(into) {
        Ok(n) => Some(n),
        Err(e) => {
            tell(rt, name, e);
            None
        }
    }
}

// Reads until the input ends or the buffer is full, and answers how many bytes stand in the buffer, if all could be read.
// A text that fills the buffer is longer than any job's text, and needn't be read on.
fn read_all<R: Eprint, S: Read>(rt: &R, name: &str, from: &mut S, buf: &mut [u8]) -> Option<usize>
    ensures { IfSome result (λ n. IsPrefixLen n buf.new) }
{
    let mut at = 0;
    while at < buf.len() {
        let n = read_some(rt, name, from, &mut buf[at..])?;
        if n == 0 {
            break;
        }
        at += n;
    }
    Some(at)
}

// The text of a file.
fn read_file<R: Files + Eprint>(rt: &R, path: &str, buf: &mut [u8]) -> Option<usize>
    ensures { IfSome result (λ n. IsPrefixLen n buf.new) }
{
    match fs::open(rt, path) {
        Ok(mut file) => read_all(rt, path, &mut file, buf),
        Err(e) => {
            tell(rt, path, e);
            None
        }
    }
}

// The text of standard input.
fn read_input<R: Input + Eprint>(rt: &R, buf: &mut [u8]) -> Option<usize>
    ensures { IfSome result (λ n. IsPrefixLen n buf.new) }
{
    let mut input = rt.reader();
    read_all(rt, "standard input", &mut input, buf)
}

// Whether the program was started with an argument i. Argument 0 is its own name.
pub fn is_given<R: Env>(rt: &R, i: usize) -> bool {
    let mut name = io::buffer();
    !matches!(rt.arg(i, &mut name), Err(FillError::NotPresent))
}

// The text of the file that argument i names.
pub fn read_named<R: Env + Files + Eprint>(rt: &R, i: usize, buf: &mut [u8]) -> Option<usize>
    ensures { IfSome result (λ n. IsPrefixLen n buf.new) }
{
    let mut path = io::buffer();
    let Ok(length) = rt.arg(i, &mut path) else {
        tell(
            rt,
            "the job file's name",
            Error::from_raw_os_error(NAME_TOO_LONG),
        );
        return None;
    };
    let Ok(name) = str::from_utf8(&path[..length]) else {
        tell(
            rt,
            "the job file's name",
            Error::from(ErrorKind::InvalidData),
        );
        return None;
    };
    read_file(rt, name, buf)
}

// The text of the file that the one argument names, or of standard input where there is none.
pub fn read_job<R: Env + Files + Input + Eprint>(rt: &R, buf: &mut [u8]) -> Option<usize>
    ensures { IfSome result (λ n. IsPrefixLen n buf.new) }
{
    if !is_given(rt, 1) {
        return read_input(rt, buf);
    }
    if is_given(rt, 2) {
        let _ = eprintln!(rt; "one job file at most");
        return None;
    }
    read_named(rt, 1, buf)
}

// Writes the first n bytes out.
fn emit<R: Print + Eprint>(rt: &R, bytes: &[u8], n: usize) {
    if n <= bytes.len() {
        if let Err(e) = rt.write_all(&bytes[..n]) {
            tell(rt, "standard output", e);
        }
    }
}

// Writes an answer out.
pub fn write<R: Print + Eprint>(rt: &R, o: Output) {
    let bytes = o.bytes;
    emit(rt, &bytes, o.count);
}
