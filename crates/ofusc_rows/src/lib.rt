// Optional FUSC's rows: the data numbers of a subchannel, and the points of a bin, by a table that is worked out once for a cell.
#![tactic(auto)]

ghost use Rattle.std.specs.Prelude.{◌≡◌, ◌+◌, ◌*◌, ◌-◌, ◌<◌, ltb};
ghost use Rattle.std.specs.Int.Bits.{bit_xor};
ghost use Rattle.base.specs.Choice.{pick};
ghost use Rattle.base.specs.Tabulate.{tabulate};
ghost use Rattle.base.specs.Model.{Starts};
ghost use Rattle.carriers.specs.Model.{address_number};
ghost use Rattle.ofusc.specs.Map.{address_of};
ghost use Rattle.ofusc_rows.specs.Model.{cell_number, group_number, point_in_group};

use ofusc::{SEQUENCE_1, SEQUENCE_2, Width, parts, term};

// What the cell alone fixes of the data number in each of the first N-1 groups.
#[tactic(auto, using(ofusc::proofs::Sequence::pos, ofusc::proofs::Sequence::size, ofusc::proofs::Law::start_lt, crate::proofs::Row::written))]
fn first_groups(width: Width, cell: usize) -> [u16; 48]
    requires cell_bound { cell < width.n * width.n }
    ensures { Starts (width.n - 1) (cell_number width.n cell) result }
{
    let first = SEQUENCE_1;
    let second = SEQUENCE_2;
    let c = parts(width, cell);
    let c1 = c.remainder;
    let c2 = c.quotient;
    let mut table = [0; 48];
    for k in 0..width.n - 1 {
        let element = term(&first, width, c1, k) ^ term(&second, width, c2, k);
        table[k] = (k * width.n + element) as u16;
    }
    table
}

// The data number of subchannel 0 in each group: what the cell adds comes again after N-1 groups.
#[tactic(auto, using(ofusc::proofs::Sequence::pos, ofusc::proofs::Sequence::size, ofusc::proofs::Law::start_lt, crate::proofs::Row::written))]
pub fn table(width: Width, cell: usize) -> [u16; 48]
    requires cell_bound { cell < width.n * width.n }
    ensures { Starts 48 (cell_number width.n cell) result }
{
    let period = width.n - 1;
    let step = (period * width.n) as u16;
    let mut table = first_groups(width, cell);
    for k in period..48 {
        table[k] = table[k - period] + step;
    }
    table
}

// The data numbers of a subchannel, by group.
#[tactic(auto, using(ofusc::proofs::Sequence::size, crate::proofs::Row::written))]
pub fn numbers(width: Width, cell: usize, subchannel: usize, table: &[u16; 48]) -> [u16; 48]
    requires subchannel_lt_n { subchannel < width.n }
    requires starts { Starts 48 (cell_number width.n cell) table.now }
    ensures { result ≡ tabulate 48 (group_number width.n cell subchannel) }
{
    let s = subchannel as u16;
    // A loop, since array::from_fn does not prove here.
    let mut row = [0; 48];
    for k in 0..48 {
        row[k] = table[k] ^ s;
    }
    row
}

// What holds of the first four data numbers of a bin, or of its last four. (A group has four or more.)
fn by_half(j: usize, first: u16, last: u16) -> u16
    ensures { result ≡ pick (ltb j 4) first last }
{
    if j < 4 { first } else { last }
}

// The number of the point on data number d of group k, by what the cell fixes of the numbers of the group. The index is
// (k+25s) mod 48, since 25 and 23 make 48.
#[tactic(auto, unfolding(crate::specs::Model::point_in_group))]
fn point(fixed: u16, k: u16, d: u16) -> u16
    requires { (bit_xor d fixed < 32) × (k < 48) }
    ensures { result ≡ point_in_group (bit_xor d fixed) k }
{
    let s = d ^ fixed;
    s * 48 + (k + 25 * s) % 48
}

// The numbers of the eight points of bin i, by rising carrier.
#[tactic(auto, using(ofusc::proofs::Sequence::size, crate::proofs::Points::group_lt, crate::proofs::Row::written))]
pub fn bin_points(width: Width, cell: usize, i: usize, table: &[u16; 48]) -> [u16; 12]
    requires i_bound { (i < 6 * width.n) × Starts 48 (cell_number width.n cell) table.now }
    ensures { Starts 8 (λ j. address_number (address_of width.n cell (i * 8 + j))) result }
{
    let p = parts(width, i * 8);
    let q = parts(width, i * 8 + 4);
    let k = p.quotient;
    let l = q.quotient;
    let first = table[k];
    let last = table[l];
    let d = (i * 8) as u16;
    let mut points = [0; 12];
    for j in 0..8 {
        points[j] = point(
            by_half(j, first, last),
            by_half(j, k as u16, l as u16),
            d + j as u16,
        );
    }
    points
}
