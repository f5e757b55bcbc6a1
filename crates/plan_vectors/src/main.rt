// Answers requests to read and to write plans, one a line of standard input, numbers in base ten:
//
//     r n byte ..                              reads the n bytes: the refusal, the count, the size, then
//                                              mode, cell, slots and mask of each of the eight places
//     w n count size mode cell slots mask ..   writes a plan of eight places to a destination of n bytes:
//                                              the refusal, the bytes written, and a buffer of 56 bytes
//                                              whose start is the destination; every byte was 238 before
//
// Each line is written back with its answer behind a colon. The input and what must come out are
// made by tests/vectors.py.
#![tactic(auto)]

use plan::Plan;
use std::{fmt, io};
use vector_lines::answer_lines;
use zone::{UNUSED, Zone};

fn main(rt: HostRuntime) -> io::Result<()> {
    let mut input = [0u8; 262144];
    let n = reading::read_full(&mut rt.stdin(), &mut input)?;
    answer_lines(&rt, &input[..n], |operation, f| answer(&rt, operation, f))
}

fn answer(rt: &impl Print, operation: u8, f: [usize; 192]) -> io::Result<()> {
    match operation {
        b'r' => answer_read(rt, f),
        _ => answer_write(rt, f),
    }
}

fn answer_read(rt: &impl Print, f: [usize; 192]) -> io::Result<()> {
    let bytes = bytes_of(f);
    let n = f[0].min(63);
    let answer = plan_read::read(&bytes[..n]);
    let number = match answer {
        Ok(_) => 0,
        Err(refusal) => u32::from(refusal),
    };
    print!(rt; " {number}")?;
    print_plan(rt, plan_read::said(answer))
}

// The bytes behind the first number of a line.
fn bytes_of(f: [usize; 192]) -> [u8; 63] {
    let mut bytes = [0u8; 63];
    for i in 0..63 {
        bytes[i] = (f[i + 1] % 256) as u8;
    }
    bytes
}

fn answer_write(rt: &impl Print, f: [usize; 192]) -> io::Result<()> {
    let zones = zones_of(f);
    let plan = Plan {
        count: f[1],
        size: f[2],
        zones: zones,
    };
    let mut dest = [238u8; 56];
    let n = f[0].min(56);
    match plan_write::write(plan, &mut dest[..n]) {
        Ok(written) => print!(rt; " 0 {written}")?,
        Err(refusal) => print!(rt; " {} 0", u32::from(refusal))?,
    }
    print!(rt; "{}", Buffer(dest))
}

// The buffer whose start is the destination. Its text goes out in one piece: a write for each byte took most of a line's time.
#[derive(Clone, Copy)]
struct Buffer([u8; 56]);

impl fmt::Display for Buffer {
    fn fmt<W: fmt::Write>(&self, f: &mut fmt::Formatter<W>) -> fmt::Result {
        for byte in &self.0 {
            write!(f, " {byte}")?;
        }
        Ok(())
    }
}

// The eight places behind the first three numbers of a line.
fn zones_of(f: [usize; 192]) -> [Zone; 8] {
    let mut zones = [UNUSED; 8];
    for k in 0..8 {
        zones[k] = Zone {
            mode: f[4 * k + 3],
            cell: f[4 * k + 4],
            slots: f[4 * k + 5],
            mask: f[4 * k + 6],
        };
    }
    zones
}

fn print_plan(rt: &impl Print, plan: Plan) -> io::Result<()> {
    print!(rt; " {} {}", plan.count, plan.size)?;
    let zones = plan.zones;
    for zone in &zones {
        print!(rt; " {} {} {} {}", zone.mode, zone.cell, zone.slots, zone.mask)?;
    }
    Ok(())
}
