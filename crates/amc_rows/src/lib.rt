// AMC's rows: the carriers of a subchannel, and the points of a bin, by tables that are worked out once for a cell.
#![tactic(auto)]

ghost use Rattle.std.specs.Prelude.{◌≡◌, ◌+◌, ◌*◌, ◌<◌};
ghost use Rattle.base.specs.Model.{Starts};
ghost use Rattle.carriers.specs.Model.{address_number};
ghost use Rattle.amc.specs.Map.{index_of, address_of};
ghost use Rattle.amc.specs.Model.{IsShape, sequence_place};
ghost use Rattle.amc_rows.specs.Model.{EvenWidth, traffic_carrier, subchannel_step, sequence_carrier};

use amc::{SEQUENCE, Shape, bin_symbol, sequence_place};
use base::reduce;
use std::array;

// v of each entry of P.
pub fn places(cell: usize) -> [u16; 48]
    requires { cell < 2352 }
    ensures { Starts 48 (sequence_place cell) result }
{
    let p = SEQUENCE;
    array::from_fn(|i| sequence_place(&p, cell, i))
}

// The carrier of traffic place v of subchannel 0, in a slot whose first symbol has the number `first`.
#[tactic(auto, using(amc::proofs::Parts::by_shape, base::proofs::LeaveOut::step_fits, crate::proofs::Row::rows_few, crate::proofs::Row::first_is))]
fn first_carrier(shape: Shape, n: u16, first: u16, v: u16) -> u16
    requires { IsShape shape × EvenWidth n × (first < 3) × (v < 48) }
    ensures { result ≡ traffic_carrier shape n first 0 v }
{
    let offset = bin_symbol(shape, v / 8);
    let pilot = 3 * ((first + offset) % 3) + 1;
    offset * (64 * n - 9 * shape.bins as u16) + 5 * n + v + v / 8 + (pilot <= v % 8) as u16
}

// The carriers of P's entries in subchannel 0 of a slot, once for all subchannels.
#[tactic(auto, using(amc::proofs::Parts::by_shape, amc::proofs::Sequence::sequence_place_lt, crate::proofs::Row::table_entry, crate::proofs::Row::written))]
pub fn table(shape: Shape, n: usize, slot: usize, cell: usize) -> [u16; 48]
    requires { IsShape shape × EvenWidth n × (cell < 2352) }
    ensures { Starts 48 (sequence_carrier shape n (slot * shape.symbols) cell 0) result }
{
    let p = SEQUENCE;
    let first = (slot % 3 * shape.symbols % 3) as u16;
    // A loop, since array::from_fn does not prove here.
    let mut table = [0; 48];
    for i in 0..48 {
        table[i] = first_carrier(shape, n as u16, first, sequence_place(&p, cell, i));
    }
    table
}

// How far a subchannel's carriers are from those of subchannel 0: by the used numbers before it, and by DC, which lies
// between two subchannels.
#[tactic(auto, using(base::proofs::LeaveOut::step_is, crate::proofs::Row::used_few, crate::proofs::Row::step_few), unfolding(crate::specs::Model::subchannel_step))]
fn subchannel_step(shape: Shape, n: usize, subchannel: usize) -> u16
    requires { IsShape shape × EvenWidth n × (subchannel < n * shape.symbols) }
    ensures { (result ≡ subchannel_step shape n subchannel) × (result < 1729) }
{
    let used = subchannel * shape.bins * 9;
    (used + (27 * n <= used) as usize) as u16
}

// The carriers of P's entries in a subchannel.
#[tactic(auto, using(crate::proofs::Row::entry_few, crate::proofs::Row::row_entry, crate::proofs::Row::written))]
pub fn carrier_row(
    shape: Shape,
    n: usize,
    slot: usize,
    cell: usize,
    subchannel: usize,
    table: &[u16; 48],
) -> [u16; 48]
    requires shape { IsShape shape × EvenWidth n × (cell < 2352) × (subchannel < n * shape.symbols) }
    requires starts { Starts 48 (sequence_carrier shape n (slot * shape.symbols) cell 0) table.now }
    ensures { Starts 48 (sequence_carrier shape n (slot * shape.symbols) cell subchannel) result }
{
    let step = subchannel_step(shape, n, subchannel);
    // A loop, since array::from_fn does not prove here.
    let mut row = [0; 48];
    for i in 0..48 {
        row[i] = table[i] + step;
    }
    row
}

// The index of each v, once for all bins of a slot: of v of entry i of P it is i moved back by the cell.
#[tactic(auto, using(amc::proofs::Sequence::sequence_place_lt, crate::proofs::Points::indexed_none, crate::proofs::Points::indexed_next, crate::proofs::Points::indexed_all))]
pub fn indices(cell: usize) -> [u16; 48]
    requires { cell < 2352 }
    ensures { Starts 48 (index_of cell) result }
{
    let places = places(cell);
    let back = (48 - cell % 48) as u16;
    let mut indices = [0; 48];
    for i in 0..48 {
        let v = usize::from(places[i]);
        indices[v] = reduce(48, i as u16 + back);
    }
    indices
}

// The numbers of the eight points of bin i in a symbol of the slot, by rising carrier.
#[tactic(auto, using(amc::proofs::Parts::by_shape, amc::proofs::Law::index_lt, crate::proofs::Points::subchannel_le, crate::proofs::Points::places_lt, crate::proofs::Points::point_number, crate::proofs::Row::written))]
pub fn bin_points(
    shape: Shape,
    cell: usize,
    offset: usize,
    i: usize,
    indices: &[u16; 48],
) -> [u16; 12]
    requires shape { IsShape shape × (offset < shape.symbols) × (i < 192) }
    requires starts { Starts 48 (index_of cell) indices.now }
    ensures { Starts 8 (λ j. address_number (address_of shape cell offset (i * 8 + j))) result }
{
    let subchannel = i * shape.symbols / 6;
    let bin = i - subchannel * shape.bins;
    let start = subchannel as u16 * 48;
    let first = (offset * shape.bins + bin) * 8;
    let mut points = [0; 12];
    for j in 0..8 {
        points[j] = start + indices[first + j];
    }
    points
}
