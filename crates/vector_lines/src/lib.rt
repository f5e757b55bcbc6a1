// What the programs that answer the stored vectors have in common: the lines of the input, and the numbers of a line.
#![tactic(auto)]

ghost use Rattle.std.specs.Prelude.{◌≡◌, ◌≤◌, ◌<◌, length, get_or, drop, IfOk};
ghost use Rattle.vector_lines.specs.Model.{numeral, digit_of, as_digit, past_spaces, parsed_at};

use std::io;

// A number read from text, and the place after its last digit.
#[derive(Clone, Copy)]
pub struct Number {
    pub value: usize,
    pub next: usize,
}

// Reads the number in base ten that stands at a place of `src`, past spaces. It is 0 where no digit
// stands there, and usize::MAX where it is larger than that.
pub fn read_number(src: &[u8], at: usize) -> Number
    ensures { numeral result.value result.next ≡ parsed_at src.now at }
{
    let mut next = past_spaces(src, at);
    let mut value = 0usize;
    while let Some(digit) = digit_at(src, next) {
        value = value.saturating_mul(10).saturating_add(digit);
        next += 1;
    }
    Number {
        value: value,
        next: next,
    }
}

// The first place of `src`, from a given one on, that has no space.
fn past_spaces(src: &[u8], at: usize) -> usize
    ensures { result ≡ past_spaces at (drop at src.now) }
{
    match src.get(at..) {
        Some(rest) => at + rest.iter().take_while(|&&byte| byte == b' ').count(),
        None => at,
    }
}

// The digit at a place of `src`.
fn digit_at(src: &[u8], at: usize) -> Option<usize>
    ensures { result ≡ as_digit (digit_of (get_or src.now at 0)) }
{
    let byte = *src.get(at)?;
    if byte < b'0' || byte > b'9' {
        return None;
    }
    Some(usize::from(byte - b'0'))
}

// The place of the line feed that ends the line at a place of `src`, or src's length.
pub fn line_end(src: &[u8], at: usize) -> usize
    requires { at ≤ length src.now }
    ensures { (at ≤ result) × (result ≤ length src.now) }
{
    match src[at..].iter().position(|&byte| byte == b'\n') {
        Some(n) => at + n,
        None => src.len(),
    }
}

// The numbers of a line from a place on, 192 at most; those that it does not have are 0.
pub fn fields(input: &[u8], from: usize) -> [usize; 192] {
    let mut fields = [0usize; 192];
    let mut at = from;
    for field in &mut fields {
        let number = read_number(input, at);
        *field = number.value;
        at = number.next;
    }
    fields
}

// Writes each line of the input back, with a colon and its answer behind it. The answer is that of the line's first byte and
// the numbers behind it.
pub fn answer_lines<P: Print, F: Fn(u8, [usize; 192]) -> io::Result<()>>(
    rt: &P,
    input: &[u8],
    answer: F,
) -> io::Result<()>
    requires { F.IsAlwaysCallable answer }
{
    let mut at = 0;
    while at < input.len() {
        at = answer_line(rt, input, at, &answer)?;
    }
    Ok(())
}

// Answers the line at a place of the input, and gives the place of the next one.
fn answer_line<P: Print, F: Fn(u8, [usize; 192]) -> io::Result<()>>(
    rt: &P,
    input: &[u8],
    at: usize,
    answer: &F,
) -> io::Result<usize>
    requires at { at < length input.now }
    requires answer { F.IsAlwaysCallable answer.now }
    ensures { IfOk result (λ next. at < next) }
{
    let end = line_end(input, at);
    rt.write_all(&input[at..end])?;
    rt.write_all(b":")?;
    answer(input[at], fields(input, at + 1))?;
    rt.write_all(b"\n")?;
    Ok(end + 1)
}
