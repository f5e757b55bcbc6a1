// PUSC uplink's rows: the carriers of a subchannel, and the points of a symbol by the subchannels of its tiles, which are
// worked out once for a slot.
#![tactic(auto)]

ghost use Rattle.std.specs.Prelude.{◌≡◌, ◌+◌, ◌*◌, ◌<◌};
ghost use Rattle.base.specs.Tabulate.{tabulate};
ghost use Rattle.base.specs.Model.{Starts};
ghost use Rattle.pusc_ul.specs.Table.{tile_permutation};
ghost use Rattle.pusc_ul.specs.Tile.{tile_subchannel};
ghost use Rattle.pusc_ul_rows.specs.Model.{place_number, tile_start, put_two, tile_points, row_number, TileRow};

use base::reduce;
use pusc_ul::{
    TILE_PERMUTATION, TILE_PERMUTATION_INVERSE, data_place, tile_of_seventy, tile_subchannel,
};

// The first carrier of tile t of a subchannel. Seventy tiles lie on one side of DC.
#[tactic(auto, using(crate::proofs::Row::start_lt), unfolding(crate::specs::Model::tile_start))]
fn tile_start(permutation: &[u8; 70], cell: usize, subchannel: usize, t: usize) -> u16
    requires { (permutation.now ≡ tile_permutation) × (cell < 70) × (subchannel < 70) × (t < 6) }
    ensures { (result ≡ tile_start cell subchannel t) × (result < 4096) }
{
    let tile = tile_of_seventy(permutation, cell, subchannel, t);
    (tile * 4 + carriers::carrier(carriers::pusc_band(), t * 280)) as u16
}

// Writes x and the next number as pair j of a row.
#[tactic(auto, unfolding(crate::specs::Model::put_two))]
fn put_two(row: &mut [u16; 48], j: usize, x: u16)
    requires { (j < 24) × (x < 65535) }
    ensures { row.new ≡ put_two row.old j x }
{
    row[j * 2] = x;
    row[j * 2 + 1] = x + 1;
}

// The carriers of a subchannel as numbers, by data place: tile after tile, its inner carriers in the first and the last
// symbol, all four in the middle one.
#[tactic(auto, using(crate::proofs::Row::tiles_none, crate::proofs::Row::tiles_all))]
pub fn carrier_row(cell: usize, subchannel: usize) -> [u16; 48]
    requires { (cell < 70) × (subchannel < 70) }
    ensures { result ≡ tabulate 48 (place_number cell subchannel) }
{
    let permutation = TILE_PERMUTATION;
    let mut row = [0; 48];
    for t in 0..6 {
        let first = tile_start(&permutation, cell, subchannel, t);
        put_two(&mut row, t, first + 1);
        put_two(&mut row, t * 2 + 6, first + 2048);
        put_two(&mut row, t * 2 + 7, first + 2050);
        put_two(&mut row, t + 18, first + 4097);
    }
    row
}

// The subchannels of the first seventy tiles, once for a slot; what follows them is left open. Those of the seventy from
// 70t on are these less t, modulo 70.
#[tactic(auto, using(crate::proofs::Row::written))]
pub fn tiles(cell: usize) -> [u16; 120]
    requires { cell < 70 }
    ensures { Starts 70 (tile_subchannel cell) result }
{
    let inverse = TILE_PERMUTATION_INVERSE;
    let mut row = [0; 120];
    for k in 0..70 {
        row[k] = tile_subchannel(&inverse, cell, k) as u16;
    }
    row
}

// Writes the number of point j of each of the seventy tiles from 70t on; m is 6j + t. They have one data place, q.
// The indices of subchannel s go up with the data places, and on from 47 to 0. Data place 0 has index 35s mod 48, since
// 35 and 13 make 48.
#[tactic(auto, using(pusc_ul::proofs::Law::subchannel_lt, crate::proofs::Points::carrier_is, crate::proofs::Points::carrier_lt, crate::proofs::Points::few_points, crate::proofs::Row::written))]
fn put_numbers(row: &mut [u16; 1680], tiles: &[u16; 120], cell: usize, offset: usize, m: usize)
    requires offset_bound { (offset < 3) × (m < tile_points offset * 6) × Starts 70 (tile_subchannel cell) tiles.now }
    requires starts { Starts (m * 70) (row_number cell offset) row.old }
    ensures { Starts (m * 70 + 70) (row_number cell offset) row.new }
{
    let q = data_place(offset, m % 6, m / 6 + (offset != 1) as usize) as u16;
    let back = (70 - m % 6) as u16;
    for x in 0..70 {
        let s = reduce(70, tiles[x] + back);
        row[m * 70 + x] = s * 48 + reduce(48, s * 35 % 48 + q);
    }
}

// The numbers of the points in a symbol of the slot: on the first data carriers of all tiles, on the second, and so on.
// (Where a tile has two, what follows is no point.)
#[tactic(auto, using(crate::proofs::Points::seventies_are, crate::proofs::Points::seventies_few, crate::proofs::Points::row_is))]
pub fn row_numbers(cell: usize, offset: usize, tiles: &[u16; 120]) -> [u16; 1680]
    requires cell_bound { (cell < 70) × (offset < 3) }
    requires starts { Starts 70 (tile_subchannel cell) tiles.now }
    ensures { TileRow cell offset result }
{
    let seventies = 12 + (offset == 1) as usize * 12;
    let mut row = [0; 1680];
    for m in 0..seventies {
        put_numbers(&mut row, tiles, cell, offset, m);
    }
    row
}
