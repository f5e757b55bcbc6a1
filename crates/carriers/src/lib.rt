// The carriers of a symbol: guards, DC, used numbers; bins with their pilots.
#![tactic(auto)]

ghost use Rattle.std.specs.Prelude.{◌≡◌, false, ◌+◌, ◌≤◌, ◌<◌};
ghost use Rattle.base.specs.Steps.{entry};
ghost use Rattle.base.specs.Tabulate.{tabulate};
ghost use Rattle.base.specs.Model.{Below};
ghost use Rattle.carriers.specs.Band.{bin_band, pusc_band, fusc_band, carrier_of, used_of, is_guard, is_dc};
ghost use Rattle.carriers.specs.Model.{carrier_step};
ghost use Rattle.carriers.specs.Bin.{bin_pilot_place, is_bin_pilot, used_of_data, data_of_used};

use base::{skip, unskip};

// A symbol's carriers, rising: left guards, the used carriers with DC among them, right guards.
#[derive(Clone, Copy)]
pub struct Band {
    pub left: usize,
    pub right: usize,
    pub dc: usize,
    // How many used numbers there are, DC not counted.
    pub used: usize,
    // The used number from which on a carrier is one more, since DC lies below it.
    pub half: usize,
}

// Where a point of a slot lies: the symbol, counted in the slot, and the used number.
#[derive(Clone, Copy)]
pub struct Spot {
    pub offset: usize,
    pub used: usize,
}

// Where a point lies in a mode over bins, pilots not counted: the symbol, counted in the slot, and the data number.
#[derive(Clone, Copy)]
pub struct DataNumber {
    pub offset: usize,
    pub number: usize,
}

// Which point of a slot it is.
#[derive(Clone, Copy)]
pub struct Address {
    pub subchannel: usize,
    pub index: usize,
}

pub fn bin_band(n: usize) -> Band
    requires { (0 < n) × (n ≤ 32) }
    ensures { result ≡ bin_band n }
{
    Band {
        left: 5 * n,
        right: 5 * n - 1,
        dc: 32 * n,
        used: 54 * n,
        half: 27 * n,
    }
}

pub fn pusc_band() -> Band
    ensures { result ≡ pusc_band }
{
    Band {
        left: 184,
        right: 183,
        dc: 1024,
        used: 1680,
        half: 840,
    }
}

pub fn fusc_band() -> Band
    ensures { result ≡ fusc_band }
{
    Band {
        left: 173,
        right: 172,
        dc: 1024,
        used: 1702,
        half: 851,
    }
}

pub fn carrier(b: Band, u: usize) -> usize
    requires { (b.left < 65536) × (u < 65536) }
    ensures { result ≡ carrier_of b u }
{
    b.left + skip(b.half, u)
}

pub fn used(b: Band, carrier: usize) -> usize
    requires { b.left ≤ carrier }
    ensures { result ≡ used_of b carrier }
{
    unskip(b.half, carrier - b.left)
}

pub fn is_guard(b: Band, size: usize, carrier: usize) -> bool
    requires { b.right ≤ size }
    ensures { result ≡ is_guard b size carrier }
{
    if carrier < b.left {
        return true;
    }
    size - b.right <= carrier
}

pub fn is_dc(b: Band, carrier: usize) -> bool
    ensures { result ≡ is_dc b carrier }
{
    carrier == b.dc
}

// The pilot's place in each bin of symbol y.
pub fn bin_pilot_place(y: usize) -> usize
    ensures { result ≡ bin_pilot_place y }
{
    3 * (y % 3) + 1
}

pub fn is_bin_pilot(y: usize, u: usize) -> bool
    ensures { result ≡ is_bin_pilot y u }
{
    u % 9 == bin_pilot_place(y)
}

pub fn used_of_data(y: usize, d: usize) -> usize
    requires { d < 65536 }
    ensures { result ≡ used_of_data y d }
{
    d / 8 * 9 + skip(bin_pilot_place(y), d % 8)
}

pub fn data_of_used(y: usize, u: usize) -> usize
    requires { u < 65536 }
    ensures { result ≡ data_of_used y u }
{
    u / 9 * 8 + unskip(bin_pilot_place(y), u % 9)
}

// The used numbers of a row of data numbers.
pub fn used_numbers(y: usize, numbers: [u16; 48]) -> [u16; 48]
    requires { Below 48 2048 numbers }
    ensures { result ≡ tabulate 48 (λ m. used_of_data y (entry numbers m)) }
{
    let pilot = bin_pilot_place(y) as u16;
    let mut row = [0; 48];
    for m in 0..48 {
        let d = numbers[m];
        row[m] = d + d / 8 + (pilot <= d % 8) as u16;
    }
    row
}

// The carriers of a row of spots, both as numbers.
pub fn carrier_row(b: Band, spots: [u16; 48]) -> [u16; 48]
    requires { (b.left < 8192) × (b.half < 8192) × Below 48 8192 spots }
    ensures { result ≡ tabulate 48 (λ k. carrier_step b (entry spots k)) }
{
    let left = b.left as u16;
    let half = b.half as u16;
    let mut row = [0; 48];
    for k in 0..48 {
        let x = spots[k];
        row[k] = x + left + (half <= x % 2048) as u16;
    }
    row
}
