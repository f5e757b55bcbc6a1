// The points on one row of a slot's grid taken off, by rising carrier: run after run, each point dropped at its number.
#![tactic(auto)]

ghost use Rattle.std.specs.Prelude.{◌≡◌, ◌+◌, ◌*◌, ◌<◌, length};
ghost use Rattle.modes.specs.Setup.{alone};
ghost use Rattle.modes.specs.Mode.{symbols};
ghost use Rattle.modes.specs.Model.{Unlent};
ghost use Rattle.mask.specs.Mask.{lit_subchannels};
ghost use Rattle.runs.specs.Model.{LitRuns};
ghost use Rattle.point_numbers.specs.Model.{RunTable, PlaceTable};
ghost use Rattle.lengths.specs.Length.{grid_points};
ghost use Rattle.run_walk.specs.Model.{Took};

use modes::Setup;

// The points on all runs of a row dropped at their numbers, up to the first run that lies past the first `carriers` of the grid.
pub fn empty_row(
    setup: Setup,
    mask: usize,
    slot: usize,
    row: usize,
    carriers: usize,
    lit: &[u8; 120],
    runs: &[u16; 120],
    places: &[u16; 48],
    grid: &[f32],
    points: &mut [f32],
)
    requires unlent { Unlent (alone setup) }
    requires slot_bound { (slot < 512) × (row < symbols (alone setup)) × (length points.old ≡ 96 * lit_subchannels (alone setup) mask) × (length grid.now ≡ 2 * grid_points (alone setup)) }
    requires lit_runs { LitRuns (alone setup) mask lit.now × RunTable (alone setup) mask runs.now × PlaceTable (alone setup) places.now }
    ensures { Took (alone setup) mask slot carriers grid.now (row * setup.size) ((row + 1) * setup.size) points.old points.new }
{
    let first = row * setup.size;
    if carriers <= first {
        return;
    }
    let own = run_walk::row_runs(setup, slot, row);
    let numbers = point_numbers::row_numbers(setup, mask, slot, row, own.shape.count, runs, places);
    let band = modes::band(setup);
    for i in 0..own.shape.count {
        let start = first + carriers::carrier(band, i * own.shape.step);
        if carriers <= start {
            return;
        }
        run_walk::drop_run(
            setup, mask, slot, row, i, start, carriers, &own, lit, &numbers, grid, points,
        );
    }
}
