// The points on one run of a row of a slot's grid taken off, each dropped at its number.
#![tactic(auto)]

ghost use Rattle.std.specs.Prelude.{◌≡◌, ◌+◌, ◌*◌, ◌<◌, ◌≤◌, length};
ghost use Rattle.modes.specs.Setup.{alone};
ghost use Rattle.modes.specs.Mode.{symbols};
ghost use Rattle.modes.specs.Model.{Unlent};
ghost use Rattle.mask.specs.Mask.{lit_subchannels};
ghost use Rattle.runs.specs.Model.{LitRuns, run_count};
ghost use Rattle.point_numbers.specs.Model.{RowNumbers};
ghost use Rattle.lengths.specs.Length.{grid_points};
ghost use Rattle.run_walk.specs.Model.{Took, RunsOfRow, run_start};

use modes::Setup;
use point_numbers::Strides;
use runs::Runs;

// The runs of a row's symbol, and what is found once for all of them: how many points a run has, on which of its places these
// lie, and how far apart the numbers of two runs and of two points are in the row's table.
#[derive(Clone, Copy)]
pub struct RowRuns {
    pub shape: Runs,
    pub all: usize,
    pub places: [u16; 12],
    pub strides: Strides,
}

// The runs of a row of a slot.
pub fn row_runs(setup: Setup, slot: usize, row: usize) -> RowRuns
    requires unlent { Unlent (alone setup) }
    requires slot_bound { (slot < 512) × (row < symbols (alone setup)) }
    ensures { RunsOfRow (alone setup) (slot * symbols (alone setup) + row) result }
{
    let shape = runs::symbol_runs(setup, slot * modes::symbols(setup) + row);
    RowRuns {
        shape,
        all: runs::run_points(shape),
        places: runs::run_places(shape),
        strides: point_numbers::row_strides(setup),
    }
}

// The points on run i of a row, those among the first `carriers` of the grid, dropped at their numbers; none where it is not
// lit.
pub fn drop_run(
    setup: Setup,
    mask: usize,
    slot: usize,
    row: usize,
    i: usize,
    start: usize,
    carriers: usize,
    own: &RowRuns,
    lit: &[u8; 120],
    numbers: &[u16; 1680],
    grid: &[f32],
    points: &mut [f32],
)
    requires unlent { Unlent (alone setup) }
    requires row_bound { (row < symbols (alone setup)) × (i < run_count (alone setup)) × (start ≡ run_start (alone setup) row i) × (start ≤ carriers) × (length points.old ≡ 96 * lit_subchannels (alone setup) mask) × (length grid.now ≡ 2 * grid_points (alone setup)) }
    requires own_value { RunsOfRow (alone setup) (slot * symbols (alone setup) + row) own.now }
    requires tables { LitRuns (alone setup) mask lit.now × RowNumbers (alone setup) mask (slot * symbols (alone setup) + row) numbers.now }
    ensures { Took (alone setup) mask slot carriers grid.now (run_start (alone setup) row i) (run_start (alone setup) row (i + 1)) points.old points.new }
{
    if runs::run_lit(setup, lit, i) == 0 {
        return;
    }
    let n = runs::points_within(own.shape, own.all, carriers - start);
    copies::drop_run(
        numbers,
        i * own.strides.run,
        own.strides.point,
        &own.places,
        start,
        n,
        grid,
        points,
    );
}
