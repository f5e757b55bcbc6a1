// The ground of a slot's grid: pilots and zeros.
#![tactic(auto)]

ghost use Rattle.std.specs.Prelude.{◌≡◌, ◌+◌, ◌*◌, ◌<◌, length};
ghost use Rattle.refusal.specs.Refusal.{refusal_in};
ghost use Rattle.modes.specs.Setup.{alone, lent};
ghost use Rattle.modes.specs.Mode.{symbols, band as BandOf};
ghost use Rattle.modes.specs.Model.{Unlent, Valid};
ghost use Rattle.runs.specs.Model.{LitRuns, run_step, run_count};
ghost use Rattle.points.specs.Model.{put_point};
ghost use Rattle.lengths.specs.Length.{grid_points};
ghost use Rattle.grid.specs.Row.{used_position};
ghost use Rattle.ground.specs.Ground.{grounded, ground_of};
ghost use Rattle.ground.specs.Model.{last_pilot, PilotsBelow};

use carriers::Band;
use modes::Setup;
use points::Point;
use refusal::Refusal;
use runs::Runs;

// A point on a place of run i of a row, whose runs have `step` places. (The band is the mode's, found once for a row.)
fn put_pilot(
    setup: Setup,
    band: Band,
    row: usize,
    step: usize,
    i: usize,
    place: usize,
    p: Point,
    grid: &mut [f32],
)
    requires unlent { Unlent (alone setup) }
    requires row_bound { (row < symbols (alone setup)) × (i < run_count (alone setup)) × (step ≡ run_step (alone setup)) × (place < step) × (length grid.old ≡ 2 * grid_points (alone setup)) }
    requires band_value { band ≡ BandOf (alone setup) }
    ensures { grid.new ≡ put_point grid.old (used_position (alone setup) row (i * run_step (alone setup) + place)) p }
{
    let used = i * step + place;
    let at = row * setup.size + carriers::carrier(band, used);
    points::put_point(grid, at, p);
}

// The place of the second pilot of a run that has pilots, or of its only one.
fn last_pilot(shape: Runs) -> usize
    ensures { result ≡ last_pilot shape }
{
    if shape.second < shape.step {
        return shape.second;
    }
    shape.first
}

// The pilot point on the lit pilots of a row, 0.0 on the others.
fn pilot_row(
    setup: Setup,
    mask: usize,
    lit: &[u8; 120],
    slot: usize,
    row: usize,
    p: Point,
    grid: &mut [f32],
)
    requires unlent { Unlent (alone setup) }
    requires slot_bound { (slot < 512) × (row < symbols (alone setup)) × (length grid.old ≡ 2 * grid_points (alone setup)) }
    requires lit_runs { LitRuns (alone setup) mask lit.now }
    ensures { PilotsBelow (alone setup) mask slot p row (BandOf (alone setup)).used grid.old grid.new }
{
    let shape = runs::symbol_runs(setup, slot * modes::symbols(setup) + row);
    if shape.step <= shape.first {
        return;
    }
    let last = last_pilot(shape);
    let points = [Point { i: 0.0, q: 0.0 }, p];
    let band = modes::band(setup);
    for i in 0..shape.count {
        let own = points[runs::run_lit(setup, lit, i)];
        put_pilot(setup, band, row, shape.step, i, shape.first, own, grid);
        // A run of one pilot is put once: putting it twice took half as long again.
        if last != shape.first {
            put_pilot(setup, band, row, shape.step, i, last, own, grid);
        }
    }
}

// Zeros, and the pilot point on the lit pilots.
fn zeros_and_pilots(setup: Setup, mask: usize, slot: usize, p: Point, grid: &mut [f32])
    requires unlent { Unlent (alone setup) }
    requires mask_bound { (mask < 64) × (slot < 512) × (length grid.old ≡ 2 * grid_points (alone setup)) }
    ensures { grid.new ≡ grounded (alone setup) mask slot p }
{
    points::clear(grid);
    let lit = runs::lit_runs(setup, mask);
    let symbols = modes::symbols(setup);
    for row in 0..symbols {
        pilot_row(setup, mask, &lit, slot, row, p, grid);
    }
}

// The pilot point on the pilots of FUSC's only row, which are lent: all are lit.
fn list_pilots(setup: Setup, mask: usize, slot: usize, pilots: &[u32], p: Point, grid: &mut [f32])
    requires valid { Valid (lent setup pilots.now) }
    requires mode_value { (setup.mode ≡ 7) × (length grid.old ≡ 2 * grid_points (alone setup)) }
    ensures { PilotsBelow (lent setup pilots.now) mask slot p 0 (BandOf (alone setup)).used grid.old grid.new }
{
    let band = modes::band(setup);
    for i in 0..166 {
        let used = pilots[i] as usize;
        points::put_point(grid, carriers::carrier(band, used), p);
    }
}

// Zeros, and the pilot point on the pilots that are lent.
fn zeros_and_list(
    setup: Setup,
    mask: usize,
    slot: usize,
    pilots: &[u32],
    p: Point,
    grid: &mut [f32],
)
    requires valid { Valid (lent setup pilots.now) }
    requires mode_value { (setup.mode ≡ 7) × (slot < 512) × (length grid.old ≡ 2 * grid_points (alone setup)) }
    ensures { grid.new ≡ grounded (lent setup pilots.now) mask slot p }
{
    points::clear(grid);
    list_pilots(setup, mask, slot, pilots, p, grid);
}

// Lays the ground of a slot's grid, the pilot point on lit pilots and 0.0 elsewhere; or the first refusal of 1, 2, 3, 17, 4, 20, 9.
pub fn ground(
    setup: Setup,
    mask: usize,
    slot: usize,
    pilots: &[u32],
    pilot: Point,
    grid: &mut [f32],
) -> Result<(), Refusal>
    ensures { record { refusal = refusal_in result; buffer = grid.new } ≡ ground_of (lent setup pilots.now) mask slot pilot grid.old }
{
    questions::ask_ground(setup, mask, slot, pilots, grid.len())?;
    if modes::takes_list(setup.mode) {
        zeros_and_list(setup, mask, slot, pilots, pilot, grid);
        return Ok(());
    }
    zeros_and_pilots(setup, mask, slot, pilot, grid);
    Ok(())
}
