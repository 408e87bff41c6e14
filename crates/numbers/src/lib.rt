// Decimal numbers as text: every u64 written as its digits, and read back from them.
#![tactic(auto)]

ghost use Rattle.std.specs.Prelude.{◌≡◌, ◌+◌, ◌≤◌, length};
ghost use Rattle.numbers.specs.Decimal.{pushed, number_of};
ghost use Rattle.numbers.specs.Read.{read_of};
ghost use Rattle.numbers.specs.Written.{Written};

// The number whose digits are those of `value` and then the byte. There is none where the byte is no digit or a u64 can't hold it.
pub fn push(value: u64, byte: u8) -> Option<u64>
    ensures { read_of result ≡ pushed value byte }
{
    if !matches!(byte, b'0'..=b'9') {
        return None;
    }
    let digit = u64::from(byte - b'0');
    value.checked_mul(10)?.checked_add(digit)
}

// The number that a text of digits stands for.
pub fn read(text: &[u8]) -> Option<u64>
    ensures { read_of result ≡ number_of text.now }
{
    if text.is_empty() {
        return None;
    }
    let mut value = 0;
    for byte in text {
        value = push(value, *byte)?;
    }
    Some(value)
}

// Puts n's digits into the buffer from place `at` on, and gives the place behind them. The place stays beside the buffer, since the promise speaks of what stands before it too.
pub fn write(out: &mut [u8], at: usize, n: u64) -> usize
    requires { at + 20 ≤ length out.old }
    ensures { Written n at out.old result out.new }
{
    let mut text = [0u8; 20];
    let k = io::decimal(n, &mut text);
    out[at..at + k].copy_from_slice(&text[..k]);
    at + k
}
