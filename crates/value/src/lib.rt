// The values of a plan file: groups of seven bits, lowest first.
#![tactic(auto)]

ghost use Rattle.std.specs.Prelude.{◌≡◌, ◌+◌, ◌<◌, ◌≤◌, length, drop};
ghost use Rattle.refusal.specs.Refusal.{answer_of};
ghost use Rattle.value.specs.Value.{value_of, encode};
ghost use Rattle.text.specs.Text.{Put};

use refusal::{Refusal, ask};

// A value and how many bytes it takes.
#[derive(Clone, Copy)]
pub struct Value {
    pub value: usize,
    pub bytes: usize,
}

// The value whose first byte stands at a place.
#[inline(always)]
pub fn read(s: &[u8], at: usize) -> Result<Value, Refusal>
    ensures { answer_of result ≡ value_of (drop at s.now) }
{
    ask(at < s.len(), Refusal::Cut)?;
    let a = usize::from(s[at]);
    if a < 128 {
        return Ok(Value { value: a, bytes: 1 });
    }
    ask(1 < s.len() - at, Refusal::Cut)?;
    let b = usize::from(s[at + 1]);
    ask(0 < b, Refusal::Form)?;
    if b < 128 {
        return Ok(Value {
            value: a % 128 + 128 * b,
            bytes: 2,
        });
    }
    ask(2 < s.len() - at, Refusal::Cut)?;
    let c = usize::from(s[at + 2]);
    ask(0 < c, Refusal::Form)?;
    ask(c < 128, Refusal::Form)?;
    Ok(Value {
        value: a % 128 + 128 * (b % 128 + 128 * c),
        bytes: 3,
    })
}

// Puts a value below 2^21 at a place where it fits; answers the place after it.
pub fn write(dest: &mut [u8], at: usize, x: usize) -> usize
    requires { (x < 2097152) × (at + length (encode x) ≤ length dest.old) }
    ensures { Put dest.old at (encode x) result dest.new }
{
    if x < 128 {
        dest[at] = x as u8;
        return at + 1;
    }
    dest[at] = (x % 128 + 128) as u8;
    if x < 16384 {
        dest[at + 1] = (x / 128) as u8;
        return at + 2;
    }
    dest[at + 1] = (x / 128 % 128 + 128) as u8;
    dest[at + 2] = (x / 16384) as u8;
    at + 3
}
