// The points of a symbol of FUSC: the reverse, for all data numbers at once.
#![tactic(auto)]

ghost use Rattle.std.specs.Prelude.{◌≡◌, ◌+◌, ◌*◌, ◌<◌, length};
ghost use Rattle.base.specs.Tabulate.{tabulate};
ghost use Rattle.base.specs.Model.{Starts};
ghost use Rattle.fusc.specs.Map.{data_subchannel, data_index};
ghost use Rattle.fusc_points.specs.Model.{turned_inverse, point_of_data};

use fusc::SEQUENCE_INVERSE;

// The inverse of the sequence, turned by the cell.
#[tactic(auto, using(crate::proofs::Points::written), unfolding(crate::specs::Model::turned_inverse))]
fn turned_inverse(cell: usize) -> [u16; 32]
    ensures { Starts 32 (turned_inverse cell) result }
{
    let inverse = SEQUENCE_INVERSE;
    let back = 32 - cell % 32;
    let mut row = [0; 32];
    for x in 0..32 {
        let i = (x + back) % 32;
        row[x] = u16::from(inverse[i]);
    }
    row
}

// Writes the numbers of the points on the 32 data numbers of n, by the inverse turned by the cell. The index is
// (n+35s) mod 48, since 35 and 13 make 48.
#[tactic(auto, using(crate::proofs::Points::turned_lt, crate::proofs::Points::written))]
fn put_numbers(row: &mut [u16; 1536], inverse: &[u16; 32], cell: usize, n: usize)
    requires n_bound { (n < 48) × Starts 32 (turned_inverse cell) inverse.now }
    requires starts { Starts (n * 32) (point_of_data cell) row.old }
    ensures { (length row.new ≡ 1536) × Starts (n * 32 + 32) (point_of_data cell) row.new }
{
    let turn = n as u16;
    let back = 64 - turn;
    for x in 0..32 {
        let s = (inverse[x] + back) % 32;
        row[n * 32 + x] = s * 48 + (turn + 35 * s) % 48;
    }
}

// For each data number the number of its point, 48 a subchannel.
pub fn point_numbers(cell: usize) -> [u16; 1536]
    requires { cell < 32 }
    ensures { result ≡ tabulate 1536 (λ d. data_subchannel cell d * 48 + data_index cell d) }
{
    let inverse = turned_inverse(cell);
    let mut row = [0; 1536];
    for n in 0..48 {
        put_numbers(&mut row, &inverse, cell, n);
    }
    row
}
