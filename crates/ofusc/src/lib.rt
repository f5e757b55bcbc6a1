// Optional FUSC: the field's sequences and the group permutation.
#![tactic(auto)]

ghost use Rattle.std.specs.Prelude.{◌≡◌, ◌+◌, ◌*◌, ◌-◌, ◌/◌, ◌%◌, ◌<◌};
ghost use Rattle.base.specs.Steps.{entry};
ghost use Rattle.ofusc.specs.Width.{Width as IsWidth, width_prop};
ghost use Rattle.ofusc.specs.Map.{group_of, term as Term, cell_term, data_number, address_of};

use base::{reduce, unrotate};
use carriers::Address;

// The basic permutation sequences of document 002, table 6. The row of N, which has N-1 entries, starts at place N.
pub const SEQUENCE_1: [u8; 63] = [
    0, 0, 0, 0, 1, 2, 3, 0, 1, 2, 4, 3, 6, 7, 5, 0, 1, 2, 4, 8, 3, 6, 12, 11, 5, 10, 7, 14, 15, 13,
    9, 0, 1, 2, 4, 8, 16, 5, 10, 20, 13, 26, 17, 7, 14, 28, 29, 31, 27, 19, 3, 6, 12, 24, 21, 15,
    30, 25, 23, 11, 22, 9, 18,
];

pub const SEQUENCE_2: [u8; 63] = [
    0, 0, 0, 0, 1, 3, 2, 0, 1, 4, 6, 5, 2, 3, 7, 0, 1, 4, 3, 12, 5, 7, 15, 9, 2, 8, 6, 11, 10, 14,
    13, 0, 1, 4, 16, 10, 13, 17, 14, 29, 27, 3, 12, 21, 30, 23, 22, 18, 2, 8, 5, 20, 26, 7, 28, 31,
    19, 6, 24, 15, 25, 11, 9,
];

// N of the modes over bins, 4, 8, 16 or 32: the size is 64N.
#[derive(Clone, Copy)]
pub struct Width {
    pub n: usize,
    pub ghost is_width: { IsWidth n } by { width_prop n },
}

// x mod (N-1), by a constant at each width.
#[tactic(auto, using(crate::proofs::Sequence::no_other))]
fn turn(width: Width, x: usize) -> usize
    ensures { result ≡ x % (width.n - 1) }
{
    match width.n {
        4 => x % 3,
        8 => x % 7,
        16 => x % 15,
        _ => x % 31,
    }
}

// A number's quotient and remainder by N.
#[derive(Clone, Copy)]
pub struct ByWidth {
    pub quotient: usize,
    pub remainder: usize,
}

impl ByWidth {
    // Those by a width that the compiler knows, so without a division.
    fn new<const N: usize>(x: usize) -> ByWidth
        requires { 0 < N }
        ensures { (result.quotient ≡ x / N) × (result.remainder ≡ x % N) }
    {
        ByWidth {
            quotient: x / N,
            remainder: x % N,
        }
    }
}

// A number's quotient and remainder by the width, each by a constant.
#[tactic(auto, using(crate::proofs::Sequence::no_other))]
pub fn parts(width: Width, x: usize) -> ByWidth
    ensures { (result.quotient ≡ x / width.n) × (result.remainder ≡ x % width.n) }
{
    match width.n {
        4 => ByWidth::new::<4>(x),
        8 => ByWidth::new::<8>(x),
        16 => ByWidth::new::<16>(x),
        _ => ByWidth::new::<32>(x),
    }
}

// What the cell adds by one sequence in group k, below N-1: its entry at (k+c) mod (N-1), or nothing where c is 0.
#[tactic(auto, using(crate::proofs::Sequence::size, crate::proofs::Sequence::place_lt, crate::proofs::Sequence::term_zero, crate::proofs::Sequence::term_turn))]
pub fn term(rows: &[u8; 63], width: Width, c: usize, k: usize) -> usize
    requires c_lt_n { (c < width.n) × (k < width.n - 1) }
    ensures { result ≡ Term (λ i. entry rows.now (width.n + i)) width.n c k }
{
    if c == 0 {
        return 0;
    }
    let i = width.n + reduce(width.n - 1, k + c);
    usize::from(rows[i])
}

// What the cell adds to the subchannel in group k.
fn cell_term(width: Width, cell: usize, k: usize) -> usize
    requires cell_bound { (cell < width.n * width.n) × (k < 48) }
    ensures { result ≡ cell_term width.n cell k }
{
    let first = SEQUENCE_1;
    let second = SEQUENCE_2;
    let c = parts(width, cell);
    let turned = turn(width, k);
    term(&first, width, c.remainder, turned) ^ term(&second, width, c.quotient, turned)
}

// The group of index m of subchannel s.
#[tactic(auto, unfolding(crate::specs::Map::group_of))]
fn group(s: usize, m: usize) -> usize
    requires { (s < 32) × (m < 48) }
    ensures { result ≡ group_of s m }
{
    (m + 23 * s) % 48
}

// The data number of a point.
#[tactic(auto, using(crate::proofs::Sequence::size, crate::proofs::Law::group_lt, crate::proofs::Law::start_lt, crate::proofs::Law::element_lt), unfolding(crate::specs::Map::data_number))]
pub fn data_number(width: Width, cell: usize, subchannel: usize, index: usize) -> usize
    requires cell_bound { (cell < width.n * width.n) × (subchannel < width.n) × (index < 48) }
    ensures { result ≡ data_number width.n cell subchannel index }
{
    let k = group(subchannel, index);
    k * width.n + (subchannel ^ cell_term(width, cell, k))
}

// The reverse: the point of a data number.
#[tactic(auto, using(crate::proofs::Sequence::size, crate::proofs::Law::subchannel_lt), unfolding(crate::specs::Map::address_of))]
pub fn address(width: Width, cell: usize, d: usize) -> Address
    requires cell_bound { (cell < width.n * width.n) × (d < 48 * width.n) }
    ensures { result ≡ address_of width.n cell d }
{
    let p = parts(width, d);
    let k = p.quotient;
    let s = p.remainder ^ cell_term(width, cell, k);
    Address {
        subchannel: s,
        index: unrotate(48, 23 * s, k),
    }
}
