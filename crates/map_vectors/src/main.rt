// Answers requests to the map, one a line of standard input, numbers in base ten:
//
//     p mode size cell slot subchannel index n    n points from this index on: symbol.carrier
//     l mode size cell symbol carrier n           n carriers from this one on: guard, dc, pilot
//                                                 or slot.subchannel.index
//     m mode size cell symbol carrier n           n carriers from minus this one on, as with l
//
// Behind the numbers of a line stands the pilot list that is lent, its length first; a line that
// ends before it has the empty list. Each line is written back with its answers behind a colon.
// The input and what must come out are made by tests/vectors.py.
#![tactic(auto)]

ghost use Rattle.std.specs.Prelude.{◌<◌};

use map::{Located, Placed};
use modes::Setup;
use std::io;
use vector_lines::answer_lines;

fn main(rt: HostRuntime) -> io::Result<()> {
    let mut input = [0u8; 262144];
    let n = reading::read_full(&mut rt.stdin(), &mut input)?;
    answer_lines(&rt, &input[..n], |operation, f| answer(&rt, operation, f))
}

fn answer(rt: &impl Print, operation: u8, f: [usize; 192]) -> io::Result<()> {
    let k = numbers_of(operation);
    let pilots = list_behind(f, k);
    let n = f[k].min(176);
    answer_lent(rt, operation, f, &pilots[..n])
}

fn answer_lent(rt: &impl Print, operation: u8, f: [usize; 192], pilots: &[u32]) -> io::Result<()> {
    let setup = Setup {
        mode: f[0],
        size: f[1],
        cell: f[2],
    };
    match operation {
        b'p' => points(rt, setup, f[3], f[4], f[5], f[6], pilots),
        b'm' => carriers(rt, setup, f[3], below_dc(f[4]), f[5], pilots),
        _ => carriers(rt, setup, f[3], above_dc(f[4]), f[5], pilots),
    }
}

// How many numbers of a line stand before its pilot list.
fn numbers_of(operation: u8) -> usize
    ensures { result < 8 }
{
    match operation {
        b'p' => 7,
        _ => 6,
    }
}

// The numbers of a line behind one of its first eight.
fn list_behind(f: [usize; 192], k: usize) -> [u32; 176]
    requires { k < 8 }
{
    let mut pilots = [0u32; 176];
    for i in 0..176 {
        pilots[i] = (f[k + 1 + i] % 4294967296) as u32;
    }
    pilots
}

// A number as a carrier, and its opposite; one that 32 bits do not hold is the nearest that they do.
fn above_dc(number: usize) -> i32 {
    i32::try_from(number).unwrap_or(i32::MAX)
}

fn below_dc(number: usize) -> i32 {
    match i32::try_from(number) {
        Ok(k) => -k,
        Err(_) => i32::MIN,
    }
}

fn points(
    rt: &impl Print,
    setup: Setup,
    slot: usize,
    subchannel: usize,
    first: usize,
    n: usize,
    pilots: &[u32],
) -> io::Result<()> {
    for i in 0..n {
        match map::place(setup, slot, subchannel, first.wrapping_add(i), pilots) {
            Ok(Placed { symbol, carrier }) => print!(rt; " {symbol}.{carrier}")?,
            Err(refusal) => print!(rt; " {refusal}")?,
        }
    }
    Ok(())
}

// Answers n carriers from the first on, as far as 32 bits hold them.
fn carriers(
    rt: &impl Print,
    setup: Setup,
    symbol: usize,
    first: i32,
    n: usize,
    pilots: &[u32],
) -> io::Result<()> {
    let mut carrier = first;
    for _ in 0..n {
        match map::locate(setup, symbol, carrier, pilots) {
            Ok(located) => print_located(rt, located)?,
            Err(refusal) => print!(rt; " {refusal}")?,
        }
        let Some(next) = carrier.checked_add(1) else {
            break;
        };
        carrier = next;
    }
    Ok(())
}

// A word goes out as it is: `print!` takes half as long again.
fn print_located(rt: &impl Print, located: Located) -> io::Result<()> {
    match located {
        Located::Guard => rt.write_all(b" guard"),
        Located::Dc => rt.write_all(b" dc"),
        Located::Pilot => rt.write_all(b" pilot"),
        Located::Data {
            slot,
            subchannel,
            index,
        } => print!(rt; " {slot}.{subchannel}.{index}"),
    }
}
