// PUSC uplink: tiles, their permutation, and the data places of a slot.
#![tactic(auto)]

ghost use Rattle.std.specs.Prelude.{◌≡◌, false, ◌+◌, ◌*◌, ◌<◌};
ghost use Rattle.pusc_ul.specs.Table.{tile_permutation, tile_permutation_inverse};
ghost use Rattle.pusc_ul.specs.Tile.{tile_of, tile_subchannel, is_tile_pilot, place_symbol, place_tile, place_carrier, data_place};
ghost use Rattle.pusc_ul.specs.Map.{spot_of, address_of};
ghost use Rattle.pusc_ul.specs.Model.{tile_of_seventy};

use base::reduce;
use carriers::{Address, Spot};

// Q of document 01, as document 000 prints it, and its inverse.
pub const TILE_PERMUTATION: [u8; 70] = [
    6, 48, 58, 57, 50, 1, 13, 26, 46, 44, 30, 3, 27, 53, 22, 18, 61, 7, 55, 36, 45, 37, 52, 15, 40,
    2, 20, 4, 34, 31, 10, 5, 41, 9, 69, 63, 21, 11, 12, 19, 68, 56, 43, 23, 25, 39, 66, 42, 16, 47,
    51, 8, 62, 14, 33, 24, 32, 17, 54, 29, 67, 49, 65, 35, 38, 59, 64, 28, 60, 0,
];

pub const TILE_PERMUTATION_INVERSE: [u8; 70] = [
    69, 5, 25, 11, 27, 31, 0, 17, 51, 33, 30, 37, 38, 6, 53, 23, 48, 57, 15, 39, 26, 36, 14, 43,
    55, 44, 7, 12, 67, 59, 10, 29, 56, 54, 28, 63, 19, 21, 64, 45, 24, 32, 47, 42, 9, 20, 8, 49, 1,
    61, 4, 50, 22, 13, 58, 18, 41, 3, 2, 65, 68, 16, 52, 35, 66, 62, 46, 60, 40, 34,
];

// Tile t of a subchannel, counted from the first of its seventy tiles, by a copy of Q, which a loop takes once.
#[tactic(auto, unfolding(crate::specs::Model::tile_of_seventy))]
pub fn tile_of_seventy(permutation: &[u8; 70], cell: usize, subchannel: usize, t: usize) -> usize
    requires { (permutation.now ≡ tile_permutation) × (cell < 70) × (subchannel < 70) × (t < 6) }
    ensures { (result ≡ tile_of_seventy cell subchannel t) × (result < 70) }
{
    let i = reduce(70, subchannel + t);
    reduce(70, usize::from(permutation[i]) + cell)
}

// Tile t of a subchannel.
#[tactic(auto, unfolding(crate::specs::Tile::tile_of, crate::specs::Model::tile_of_seventy))]
fn tile(cell: usize, subchannel: usize, t: usize) -> usize
    requires { (cell < 70) × (subchannel < 70) × (t < 6) }
    ensures { (result ≡ tile_of cell subchannel t) × (result < 420) }
{
    t * 70 + tile_of_seventy(&TILE_PERMUTATION, cell, subchannel, t)
}

// The reverse: the subchannel that has a tile, by a copy of the inverse of Q, which a loop takes once.
#[tactic(auto, unfolding(crate::specs::Tile::tile_subchannel))]
pub fn tile_subchannel(inverse: &[u8; 70], cell: usize, tile: usize) -> usize
    requires { (inverse.now ≡ tile_permutation_inverse) × (cell < 70) × (tile < 420) }
    ensures { (result ≡ tile_subchannel cell tile) × (result < 70) }
{
    let x = reduce(70, tile % 70 + (70 - cell));
    reduce(70, usize::from(inverse[x]) + (70 - tile / 70))
}

// A data carrier of a subchannel's tiles: its symbol in the slot, its tile t, and its place in the tile.
#[derive(Clone, Copy)]
struct DataCarrier {
    symbol: usize,
    tile: usize,
    carrier: usize,
}

#[tactic(auto, unfolding(crate::specs::Tile::place_symbol, crate::specs::Tile::place_tile, crate::specs::Tile::place_carrier))]
fn data_carrier(q: usize) -> DataCarrier
    requires { q < 48 }
    ensures symbol_value { (result.symbol ≡ place_symbol q) × (result.tile ≡ place_tile q) × (result.carrier ≡ place_carrier q) }
    ensures tile_bound { (result.tile < 6) × (result.carrier < 4) }
{
    match q {
        0..12 => DataCarrier {
            symbol: 0,
            tile: q / 2,
            carrier: q % 2 + 1,
        },
        12..36 => DataCarrier {
            symbol: 1,
            tile: (q - 12) / 4,
            carrier: (q - 12) % 4,
        },
        _ => DataCarrier {
            symbol: 2,
            tile: (q - 36) / 2,
            carrier: (q - 36) % 2 + 1,
        },
    }
}

// The reverse: the data place of a carrier that is no pilot.
#[tactic(auto, unfolding(crate::specs::Tile::data_place, crate::specs::Tile::is_tile_pilot))]
pub fn data_place(offset: usize, t: usize, carrier: usize) -> usize
    requires { (offset < 3) × (t < 6) × (carrier < 4) × (is_tile_pilot offset carrier ≡ false) }
    ensures { (result ≡ data_place offset t carrier) × (result < 48) }
{
    match offset {
        0 => t * 2 + (carrier - 1),
        1 => 12 + (t * 4 + carrier),
        _ => 36 + (t * 2 + (carrier - 1)),
    }
}

// Where point `index` of a subchannel lies.
#[tactic(auto, unfolding(crate::specs::Map::spot_of))]
pub fn spot(cell: usize, subchannel: usize, index: usize) -> Spot
    requires { (cell < 70) × (subchannel < 70) × (index < 48) }
    ensures { result ≡ spot_of cell subchannel index }
{
    let q = (index + 13 * subchannel) % 48;
    let at = data_carrier(q);
    Spot {
        offset: at.symbol,
        used: tile(cell, subchannel, at.tile) * 4 + at.carrier,
    }
}

// Whether a used number is a pilot in a symbol of a slot.
#[tactic(auto, unfolding(crate::specs::Tile::is_tile_pilot))]
pub fn is_pilot(offset: usize, used: usize) -> bool
    ensures { result ≡ is_tile_pilot offset used }
{
    offset != 1 && matches!(used % 4, 0 | 3)
}

// The reverse: the point that lies on a carrier that is no pilot.
#[tactic(auto, using(crate::proofs::Law::pilot_carrier), unfolding(crate::specs::Map::address_of))]
pub fn address(cell: usize, offset: usize, used: usize) -> Address
    requires { (cell < 70) × (offset < 3) × (used < 1680) × (is_tile_pilot offset used ≡ false) }
    ensures { result ≡ address_of cell offset used }
{
    let tile = used / 4;
    let subchannel = tile_subchannel(&TILE_PERMUTATION_INVERSE, cell, tile);
    let q = data_place(offset, tile / 70, used % 4);
    Address {
        subchannel,
        index: (q + (48 - 13 * subchannel % 48)) % 48,
    }
}
