// The points on the one symbol of a slot of FUSC taken off its grid, by rising carrier.
#![tactic(auto)]

ghost use Rattle.std.specs.Prelude.{◌≡◌, ◌*◌, length};
ghost use Rattle.modes.specs.Setup.{alone, lent};
ghost use Rattle.modes.specs.Model.{Valid};
ghost use Rattle.mask.specs.Mask.{lit_subchannels};
ghost use Rattle.lengths.specs.Length.{grid_points};
ghost use Rattle.run_walk.specs.Model.{Took};
ghost use Rattle.fusc_walk.specs.Model.{ColumnsWithin, Dropped};

use modes::Setup;
use points::{point_at, put_point};

// The points on the columns one after another dropped at their numbers, up to the first column that lies past the first
// `carriers`.
fn drop_points(
    columns: &[u16; 1536],
    numbers: &[u16; 1536],
    carriers: usize,
    grid: &[f32],
    points: &mut [f32],
)
    requires { ColumnsWithin columns.now numbers.now (length grid.now) (length points.old) }
    ensures { Dropped columns.now numbers.now carriers grid.now points.old points.new }
{
    for d in 0..1536 {
        let column = usize::from(columns[d]);
        if carriers <= column {
            return;
        }
        let number = usize::from(numbers[d]);
        put_point(points, number, point_at(grid, column));
    }
}

// Each point on the first `carriers` of the grid dropped at its number: by the columns of all data numbers, which the list fixes,
// and the numbers of their points, which the cell fixes.
pub fn empty_symbol(
    setup: Setup,
    mask: usize,
    slot: usize,
    carriers: usize,
    pilots: &[u32],
    grid: &[f32],
    points: &mut [f32],
)
    requires valid { Valid (lent setup pilots.now) }
    requires mode_value { (setup.mode ≡ 7) × (length points.old ≡ 96 * lit_subchannels (alone setup) mask) × (length grid.now ≡ 2 * grid_points (alone setup)) }
    ensures { Took (lent setup pilots.now) mask slot carriers grid.now 0 setup.size points.old points.new }
{
    let columns = fusc_rows::data_carriers(pilots);
    let numbers = fusc_points::point_numbers(setup.cell);
    drop_points(&columns, &numbers, carriers, grid, points);
}
