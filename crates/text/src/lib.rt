// Text in byte buffers: bytes and numbers in base ten put one behind the other.
//
// Each `put_` function answers the place after what it wrote, where the next one goes on. Its
// contract is `Put`: the text at the place, all else as it was, and that answer.
#![tactic(auto)]

ghost use Rattle.std.specs.Prelude.{[], ◌∷◌, ◌+◌, ◌≤◌, ◌<◌, length};
ghost use Rattle.text.specs.Text.{decimal, Put};

// Puts one byte.
pub fn put_byte(dest: &mut [u8], at: usize, byte: u8) -> usize
    requires { at < length dest.old }
    ensures { Put dest.old at (byte ∷ []) result dest.new }
{
    dest[at] = byte;
    at + 1
}

// Puts all bytes of `bytes`.
pub fn put_bytes(dest: &mut [u8], at: usize, bytes: &[u8]) -> usize
    requires { at + length bytes.now ≤ length dest.old }
    ensures { Put dest.old at bytes.now result dest.new }
{
    let next = at + bytes.len();
    dest[at..next].copy_from_slice(bytes);
    next
}

// Puts a number in base ten, where there is room for the 20 digits of the largest.
pub fn put_number(dest: &mut [u8], at: usize, x: usize) -> usize
    requires { at + 20 ≤ length dest.old }
    ensures { Put dest.old at (decimal x) result dest.new }
{
    put_digits(dest, at, x)
}

// Puts a number in base ten, where there is room for its own digits.
fn put_digits(dest: &mut [u8], at: usize, x: usize) -> usize
    requires { at + length (decimal x) ≤ length dest.old }
    ensures { Put dest.old at (decimal x) result dest.new }
{
    if x < 10 {
        return put_byte(dest, at, 48 + x as u8);
    }
    let next = put_digits(dest, at, x / 10);
    put_byte(dest, next, 48 + (x % 10) as u8)
}
