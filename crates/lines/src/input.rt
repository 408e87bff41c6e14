// Numbers of a request, from standard input: decimal, each with one space or line end behind it. What was read ahead stands in a buffer.
ghost use Rattle.std.specs.Prelude.{◌≡◌, ⊤};

use crate::at_most;
use std::alloc::AllocError;
use std::io::Read;

// Why the reading stops: at the input's end, or at text that is no request.
#[derive(Clone, Copy, PartialEq, Eq, Debug)]
pub enum Stop {
    Ended,
    Broken,
}

// The program's standard input, and where its reading stands: the buffer's bytes from `at` to `end` are yet to be taken. Any place is
// taken: where no such byte is in the buffer it is filled anew. A copy goes on from the same place, with the bytes that were read ahead.
pub struct Input<'a, R> {
    rt: &'a R,
    pub bytes: [u8; 65536],
    pub at: usize,
    pub end: usize,
}

impl<'a, R> Copy for Input<'a, R> {}

impl<'a, R> Clone for Input<'a, R> {
    ghost is_clone = { λ x y. y ≡ x };

    ghost is_infallible = { λ _. ⊤ };

    fn clone(&self) -> Result<Self, AllocError> {
        Ok(*self)
    }
}

impl<'a, R: std::io::Input> Input<'a, R> {
    // The reading before the first byte.
    pub fn new(rt: &'a R) -> Input<'a, R> {
        Input {
            rt,
            bytes: [0; 65536],
            at: 0,
            end: 0,
        }
    }

    // The next byte. Where all are taken the buffer is filled anew; a read that fails counts as the input's end.
    fn next_byte(&mut self) -> Option<u8> {
        if self.at >= self.end || self.at >= self.bytes.len() {
            let n = self.rt.reader().read(&mut self.bytes).unwrap_or(0);
            self.at = 0;
            self.end = n;
            if n == 0 {
                return None;
            }
        }
        let byte = self.bytes[self.at];
        self.at += 1;
        Some(byte)
    }

    // The next number. A u64 has at most 20 digits. The input's end is no place for it behind a digit.
    fn number(&mut self) -> Result<u64, Stop> {
        let mut value = 0;
        for digits in 0..21 {
            let Some(byte) = self.next_byte() else {
                return Err(if digits == 0 {
                    Stop::Ended
                } else {
                    Stop::Broken
                });
            };
            if byte == b' ' || byte == b'\n' {
                return if digits == 0 {
                    Err(Stop::Broken)
                } else {
                    Ok(value)
                };
            }
            value = numbers::push(value, byte).ok_or(Stop::Broken)?;
        }
        Err(Stop::Broken)
    }

    // The next `count` numbers, into the list's first places. More numbers than places are no part of a request. The input's end is no
    // place for it behind the first number.
    pub fn list(&mut self, into: &mut [u64], count: u64) -> Result<(), Stop> {
        let places = at_most(count, into.len());
        for (k, place) in into[..places].iter_mut().enumerate() {
            *place = self
                .number()
                .map_err(|stop| if k == 0 { stop } else { Stop::Broken })?;
        }
        if (places as u64) < count {
            return Err(Stop::Broken);
        }
        Ok(())
    }

    // The same behind a request's first numbers: the input's end is no place for it here at all.
    pub fn rest(&mut self, into: &mut [u64], count: u64) -> Result<(), Stop> {
        self.list(into, count).map_err(|_| Stop::Broken)
    }
}
