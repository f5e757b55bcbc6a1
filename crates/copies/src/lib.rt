// Points copied from one lent buffer to another: by a row of places to a grid, and from a run of a grid to their numbers.
#![tactic(auto)]

ghost use Rattle.std.specs.Prelude.{◌≡◌, ◌+◌, ◌*◌, ◌<◌, ◌≤◌, length};
ghost use Rattle.base.specs.Steps.{entry};
ghost use Rattle.points.specs.Points.{point_at};
ghost use Rattle.points.specs.Model.{puts};
ghost use Rattle.copies.specs.Model.{turned, Within, RunWithin};

use points::{point_at, put_point};

// The n points from `first` on laid on the places of a row from q on.
fn lay_run(row: &[u16; 48], q: usize, n: usize, first: usize, points: &[f32], grid: &mut [f32])
    requires { (q + n ≤ 48) × ((first + n) * 2 ≤ length points.now) × Within row.now (length grid.old) }
    ensures { grid.new ≡ puts (λ m. entry row.now (q + m)) (λ m. point_at points.now (first + m)) n grid.old }
{
    for m in 0..n {
        let k = usize::from(row[q + m]);
        put_point(grid, k, point_at(points, first + m));
    }
}

// The first 48 points laid on the places of a row, the first at place `by`; they go on at the row's start.
pub fn lay_row(row: &[u16; 48], by: usize, points: &[f32], grid: &mut [f32])
    requires { (by < 48) × (96 ≤ length points.now) × Within row.now (length grid.old) }
    ensures { grid.new ≡ puts (turned row.now by) (point_at points.now) 48 grid.old }
{
    lay_run(row, by, 48 - by, 0, points, grid);
    lay_run(row, 0, by, 48 - by, points, grid);
}

// The first n points of a run of the grid, at their places from `start` on, dropped at their numbers, which stand from `from` on
// in a table, `stride` apart.
pub fn drop_run(
    numbers: &[u16; 1680],
    from: usize,
    stride: usize,
    places: &[u16; 12],
    start: usize,
    n: usize,
    grid: &[f32],
    points: &mut [f32],
)
    requires { (n ≤ 12) × (start < 65536) × RunWithin numbers.now from stride places.now start n (length grid.now) (length points.old) }
    ensures { points.new ≡ puts (λ j. entry numbers.now (from + j * stride)) (λ j. point_at grid.now (start + entry places.now j)) n points.old }
{
    for j in 0..n {
        let number = usize::from(numbers[from + j * stride]);
        let place = start + usize::from(places[j]);
        put_point(points, number, point_at(grid, place));
    }
}
