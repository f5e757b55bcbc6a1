// Answers requests for collisions, one a line of standard input, numbers in base ten:
//
//     o size cell subchannel cell subchannel    optional FUSC: the refusal, the count, the 48 marks
//     s size cell subchannel cell               optional FUSC: the sum of the counts over all
//                                               subchannels of the second cell
//     a cell cell                               AMC: as o
//
// Each line is written back with its answer behind a colon. The input and what must come out are
// made by tests/vectors.py.
#![tactic(auto)]

use collision::Collisions;
use refusal::Refusal;
use std::io;
use vector_lines::answer_lines;

fn main(rt: HostRuntime) -> io::Result<()> {
    let mut input = [0u8; 262144];
    let n = reading::read_full(&mut rt.stdin(), &mut input)?;
    answer_lines(&rt, &input[..n], |operation, f| answer(&rt, operation, f))
}

fn answer(rt: &impl Print, operation: u8, f: [usize; 192]) -> io::Result<()> {
    match operation {
        b'o' => print_collisions(rt, collision::ofusc(f[0], f[1], f[2], f[3], f[4])),
        b's' => print!(rt; " {}", sum(f[0], f[1], f[2], f[3])),
        _ => print_collisions(rt, collision::amc(f[0], f[1])),
    }
}

// The counts added up over the subchannels of the second cell, of which no size has more than 32.
fn sum(size: usize, cell_a: usize, subchannel: usize, cell_b: usize) -> usize {
    let mut sum = 0usize;
    for t in 0..32 {
        let answer = collision::ofusc(size, cell_a, subchannel, cell_b, t);
        sum = sum.wrapping_add(collision::said(answer).count);
    }
    sum
}

// Prints the refusal, or 0, the count, and the marks, 1 where set and 0 elsewhere.
fn print_collisions(rt: &impl Print, answer: Result<Collisions, Refusal>) -> io::Result<()> {
    let number = match answer {
        Ok(_) => 0,
        Err(refusal) => u32::from(refusal),
    };
    let said = collision::said(answer);
    print!(rt; " {number} {} ", said.count)?;
    let hits = said.hits;
    // A loop, since `map` over the array takes longer.
    let mut marks = [b'0'; 48];
    for k in 0..48 {
        if hits[k] {
            marks[k] = b'1';
        }
    }
    rt.write_all(&marks)
}
