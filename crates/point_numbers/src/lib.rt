// The numbers of the points on the runs of a row, among those of the lit subchannels. The map's own definitions say what they are.
#![tactic(auto)]

ghost use Rattle.std.specs.Prelude.{◌≡◌, true, ◌+◌, ◌*◌, ◌<◌, ◌≤◌, length};
ghost use Rattle.base.specs.Model.{Starts};
ghost use Rattle.modes.specs.Setup.{alone};
ghost use Rattle.modes.specs.Mode.{symbols};
ghost use Rattle.modes.specs.Model.{Unlent};
ghost use Rattle.mask.specs.Mask.{is_used_lit};
ghost use Rattle.runs.specs.Model.{run_step, run_count, runs_of, run_points};
ghost use Rattle.point_numbers.specs.Model.{run_number, run_stride, point_stride, RowNumbers, RunPut, RunTable, PlaceTable};

use modes::{Mode, Setup};
use ofusc::Width;

// What setup and mask fix of the clusters or of the first seventy tiles, in PUSC; no other mode reads it.
pub fn run_table(setup: Setup, mask: usize) -> [u16; 120]
    requires unlent { Unlent (alone setup) }
    requires mask_bound { mask < 64 }
    ensures { RunTable (alone setup) mask result }
{
    match Mode::try_from(setup.mode) {
        Ok(Mode::PuscDl) => pusc_dl_points::clusters(setup.cell, mask),
        Ok(Mode::PuscUl) => pusc_ul_rows::tiles(setup.cell),
        Ok(Mode::Ofusc) => [0; 120],
        Ok(Mode::Amc(_)) => [0; 120],
        Ok(Mode::Fusc) => [0; 120],
        Err(_) => [0; 120],
    }
}

// What the setup fixes of the places of all runs; nothing in PUSC uplink.
pub fn place_table(setup: Setup) -> [u16; 48]
    requires { Unlent (alone setup) }
    ensures { PlaceTable (alone setup) result }
{
    match Mode::try_from(setup.mode) {
        Ok(Mode::PuscDl) => pusc_dl_points::inverses(setup.cell),
        Ok(Mode::PuscUl) => [0; 48],
        Ok(Mode::Ofusc) => {
            let width = Width {
                n: modes::width(setup),
            };
            ofusc_rows::table(width, setup.cell)
        }
        Ok(Mode::Amc(_)) => amc_rows::indices(setup.cell),
        Ok(Mode::Fusc) => [0; 48],
        Err(_) => [0; 48],
    }
}

// How far apart the numbers of two runs in a row are in a row's table, and those of two points of a run.
#[derive(Clone, Copy)]
pub struct Strides {
    pub run: usize,
    pub point: usize,
}

pub fn row_strides(setup: Setup) -> Strides
    requires { Unlent (alone setup) }
    ensures { (result.run ≡ run_stride (alone setup)) × (result.point ≡ point_stride (alone setup)) }
{
    match Mode::try_from(setup.mode) {
        Ok(Mode::PuscDl) => Strides { run: 12, point: 1 },
        Ok(Mode::PuscUl) => Strides { run: 1, point: 420 },
        Ok(Mode::Ofusc) => Strides { run: 8, point: 1 },
        Ok(Mode::Amc(_)) => Strides { run: 8, point: 1 },
        Ok(Mode::Fusc) => Strides { run: 0, point: 0 },
        Err(_) => Strides { run: 0, point: 0 },
    }
}

// The numbers of the points on run i of a row of the slot, by rising carrier, where it is lit; not in PUSC uplink. As closures
// handed to the loop over runs the arms are no plainer: each would repeat the contract of the function it calls.
fn run_numbers(
    setup: Setup,
    mask: usize,
    slot: usize,
    row: usize,
    i: usize,
    runs: &[u16; 120],
    places: &[u16; 48],
) -> [u16; 12]
    requires unlent { Unlent (alone setup) }
    requires fact { (setup.mode ≡ 1 → ⊥) × (row < symbols (alone setup)) × (i < run_count (alone setup)) }
    requires run_table { RunTable (alone setup) mask runs.now × PlaceTable (alone setup) places.now }
    ensures { is_used_lit (alone setup) mask (i * run_step (alone setup)) ≡ true → Starts (run_points (runs_of (alone setup) (slot * symbols (alone setup) + row))) (run_number (alone setup) mask (slot * symbols (alone setup) + row) i) result }
{
    match Mode::try_from(setup.mode) {
        Ok(Mode::PuscDl) => {
            pusc_dl_points::cluster_points(setup.cell, mask, row, i, runs, places)
        }
        Ok(Mode::PuscUl) => [0; 12],
        Ok(Mode::Ofusc) => {
            let width = Width {
                n: modes::width(setup),
            };
            ofusc_rows::bin_points(width, setup.cell, i, places)
        }
        Ok(Mode::Amc(shape)) => amc_rows::bin_points(shape, setup.cell, row, i, places),
        Ok(Mode::Fusc) => [0; 12],
        Err(_) => [0; 12],
    }
}

// A run's numbers put into a row's table.
fn put_run(numbers: &mut [u16; 1680], from: usize, own: &[u16; 12])
    requires { (from + 12 ≤ 1680) × (length numbers.old ≡ 1680) }
    ensures { RunPut numbers.old own.now from numbers.new }
{
    for j in 0..12 {
        numbers[from + j] = own[j];
    }
}

// The numbers of a row's points, run after run; not in PUSC uplink.
fn numbers_by_run(
    setup: Setup,
    mask: usize,
    slot: usize,
    row: usize,
    count: usize,
    runs: &[u16; 120],
    places: &[u16; 48],
) -> [u16; 1680]
    requires unlent { Unlent (alone setup) }
    requires fact { (setup.mode ≡ 1 → ⊥) × (row < symbols (alone setup)) × (count ≡ run_count (alone setup)) }
    requires run_table { RunTable (alone setup) mask runs.now × PlaceTable (alone setup) places.now }
    ensures { RowNumbers (alone setup) mask (slot * symbols (alone setup) + row) result }
{
    let stride = row_strides(setup).run;
    let mut numbers = [0; 1680];
    for i in 0..count {
        let own = run_numbers(setup, mask, slot, row, i, runs, places);
        put_run(&mut numbers, i * stride, &own);
    }
    numbers
}

// The numbers of the points on the lit runs of a row of the slot, in one table.
pub fn row_numbers(
    setup: Setup,
    mask: usize,
    slot: usize,
    row: usize,
    count: usize,
    runs: &[u16; 120],
    places: &[u16; 48],
) -> [u16; 1680]
    requires unlent { Unlent (alone setup) }
    requires row_bound { (row < symbols (alone setup)) × (count ≡ run_count (alone setup)) }
    requires run_table { RunTable (alone setup) mask runs.now × PlaceTable (alone setup) places.now }
    ensures { RowNumbers (alone setup) mask (slot * symbols (alone setup) + row) result }
{
    // By the number, since a match with three equal arms is slower: the loop over runs is then no longer part of its caller.
    if setup.mode == 1 {
        return pusc_ul_rows::row_numbers(setup.cell, row, runs);
    }
    numbers_by_run(setup, mask, slot, row, count, runs, places)
}
