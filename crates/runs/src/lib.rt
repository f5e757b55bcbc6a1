// The runs of a symbol's carriers (clusters, tiles, bins): where their pilots and points stand, and which are lit. The map's own
// definitions say what they are.
#![tactic(auto)]

ghost use Rattle.std.specs.Prelude.{◌≡◌, ◌<◌, ◌≤◌};
ghost use Rattle.base.specs.Tabulate.{tabulate};
ghost use Rattle.modes.specs.Setup.{alone};
ghost use Rattle.modes.specs.Model.{Unlent, Ranged};
ghost use Rattle.runs.specs.Model.{LitRuns, IsRun, run_lit, cluster_runs, tile_runs, bin_runs, runs_of, run_place, points_below, run_points, points_within};

use modes::{Mode, Setup};

// The runs of a symbol's used numbers: `count` runs of `step` numbers, and in each the places of its two pilots, rising. One that
// is not there stands past the run's end.
#[derive(Clone, Copy)]
pub struct Runs {
    pub first: usize,
    pub second: usize,
    pub step: usize,
    pub count: usize,
}

// Where a mode has none.
const NO_RUNS: Runs = Runs {
    first: 0,
    second: 0,
    step: 1,
    count: 0,
};

// The runs of a symbol of the zone.
pub fn symbol_runs(setup: Setup, symbol: usize) -> Runs
    requires { Unlent (alone setup) }
    ensures { result ≡ runs_of (alone setup) symbol }
{
    match Mode::try_from(setup.mode) {
        Ok(Mode::PuscDl) => cluster_runs(symbol),
        Ok(Mode::PuscUl) => tile_runs(symbol),
        Ok(Mode::Ofusc) => bin_runs(modes::width(setup), symbol),
        Ok(Mode::Amc(_)) => bin_runs(modes::width(setup), symbol),
        Ok(Mode::Fusc) => NO_RUNS,
        Err(_) => NO_RUNS,
    }
}

// The clusters.
fn cluster_runs(symbol: usize) -> Runs
    ensures { result ≡ cluster_runs symbol }
{
    let p = clusters::pilots(symbol);
    Runs {
        first: p.first,
        second: p.second,
        step: 14,
        count: 120,
    }
}

// The tiles: in the middle symbol of a slot without pilots, in the others with pilots at their corners.
fn tile_runs(symbol: usize) -> Runs
    ensures { result ≡ tile_runs symbol }
{
    if symbol % 3 == 1 {
        return Runs {
            first: 4,
            second: 5,
            step: 4,
            count: 420,
        };
    }
    Runs {
        first: 0,
        second: 3,
        step: 4,
        count: 420,
    }
}

// The bins of width n: one pilot each.
fn bin_runs(n: usize, symbol: usize) -> Runs
    requires { n ≤ 32 }
    ensures { result ≡ bin_runs n symbol }
{
    Runs {
        first: carriers::bin_pilot_place(symbol),
        second: 9,
        step: 9,
        count: 6 * n,
    }
}

// Which runs a mask lights: the clusters of PUSC downlink, 1 for each; no other mode reads it.
pub fn lit_runs(setup: Setup, mask: usize) -> [u8; 120]
    requires ranged { Ranged (alone setup) }
    requires mask_bound { mask < 64 }
    ensures { LitRuns (alone setup) mask result }
{
    if modes::takes_mask(setup.mode) {
        return pusc_dl_lit::lit_clusters(setup.cell, mask);
    }
    [0; 120]
}

// 1 where run i is lit, else 0.
pub fn run_lit(setup: Setup, lit: &[u8; 120], i: usize) -> usize
    requires { IsRun (alone setup) i }
    ensures { result ≡ run_lit (alone setup) lit.now i }
{
    if modes::takes_mask(setup.mode) {
        return usize::from(lit[i]);
    }
    1
}

// The places of a run's points, rising.
pub fn run_places(b: Runs) -> [u16; 12]
    ensures { result ≡ tabulate 12 (run_place b) }
{
    let mut places = [0; 12];
    for j in 0..12 {
        places[j] = base::skip(b.second, base::skip(b.first, j)) as u16;
    }
    places
}

// How many points of a run lie below a place.
#[tactic(auto, unfolding(crate::specs::Model::points_below))]
fn points_below(b: Runs, place: usize) -> usize
    ensures { result ≡ points_below b place }
{
    base::unskip(b.first, base::unskip(b.second, place))
}

// How many points a run has.
pub fn run_points(b: Runs) -> usize
    ensures { result ≡ run_points b }
{
    points_below(b, b.step)
}

// How many of all its points lie on the first `room` places of a run.
#[tactic(auto, unfolding(crate::specs::Model::points_within))]
pub fn points_within(b: Runs, all: usize, room: usize) -> usize
    requires { all ≡ run_points b }
    ensures { result ≡ points_within b room }
{
    if room < b.step {
        return points_below(b, room);
    }
    all
}
