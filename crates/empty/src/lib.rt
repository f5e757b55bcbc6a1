// The lit subchannels' points taken off a slot's grid, row after row.
#![tactic(auto)]

ghost use Rattle.std.specs.Prelude.{◌≡◌, ◌*◌, ◌<◌, length};
ghost use Rattle.refusal.specs.Refusal.{refusal_in};
ghost use Rattle.modes.specs.Setup.{alone, lent};
ghost use Rattle.modes.specs.Model.{Unlent, Valid};
ghost use Rattle.mask.specs.Mask.{lit_subchannels};
ghost use Rattle.lengths.specs.Length.{grid_points};
ghost use Rattle.empty.specs.Empty.{emptied_first, empty_of, empty_first_of};

use modes::Setup;
use refusal::Refusal;

// The points on the first `carriers` of the grid dropped at their numbers, row after row.
fn empty_rows(
    setup: Setup,
    mask: usize,
    slot: usize,
    carriers: usize,
    grid: &[f32],
    points: &mut [f32],
)
    requires unlent { Unlent (alone setup) }
    requires mask_bound { (mask < 64) × (slot < 512) × (length points.old ≡ 96 * lit_subchannels (alone setup) mask) × (length grid.now ≡ 2 * grid_points (alone setup)) }
    ensures { points.new ≡ emptied_first (alone setup) mask slot carriers grid.now points.old }
{
    let lit = runs::lit_runs(setup, mask);
    let runs = point_numbers::run_table(setup, mask);
    let places = point_numbers::place_table(setup);
    let symbols = modes::symbols(setup);
    for row in 0..symbols {
        row_walk::empty_row(
            setup, mask, slot, row, carriers, &lit, &runs, &places, grid, points,
        );
    }
}

// The same in every mode, by the list that is lent: in FUSC over its only row, in the others row after row.
fn take_off(
    setup: Setup,
    mask: usize,
    slot: usize,
    carriers: usize,
    pilots: &[u32],
    grid: &[f32],
    points: &mut [f32],
)
    requires valid { Valid (lent setup pilots.now) }
    requires mask_bound { (mask < 64) × (slot < 512) × (length points.old ≡ 96 * lit_subchannels (alone setup) mask) × (length grid.now ≡ 2 * grid_points (alone setup)) }
    ensures { points.new ≡ emptied_first (lent setup pilots.now) mask slot carriers grid.now points.old }
{
    if modes::takes_list(setup.mode) {
        fusc_walk::empty_symbol(setup, mask, slot, carriers, pilots, grid, points);
        return;
    }
    empty_rows(setup, mask, slot, carriers, grid, points);
}

// Takes a slot's points off its grid, those of the lit subchannels; or the first refusal of 1, 2, 3, 17, 4, 20, 8, 9.
pub fn empty(
    setup: Setup,
    mask: usize,
    slot: usize,
    pilots: &[u32],
    grid: &[f32],
    points: &mut [f32],
) -> Result<(), Refusal>
    ensures { record { refusal = refusal_in result; buffer = points.new } ≡ empty_of (lent setup pilots.now) mask slot grid.now points.old }
{
    questions::ask_empty(setup, mask, slot, pilots, points.len(), grid.len())?;
    let all = lengths::grid_points(setup);
    take_off(setup, mask, slot, all, pilots, grid, points);
    Ok(())
}

// Takes the points off the first `carriers` of the grid alone, guards, DC and pilots counted, and leaves the other points as
// they are; or the first refusal of 1, 2, 3, 17, 4, 20, 8, 9.
pub fn empty_first(
    setup: Setup,
    mask: usize,
    slot: usize,
    carriers: usize,
    pilots: &[u32],
    grid: &[f32],
    points: &mut [f32],
) -> Result<(), Refusal>
    ensures { record { refusal = refusal_in result; buffer = points.new } ≡ empty_first_of (lent setup pilots.now) mask slot carriers grid.now points.old }
{
    questions::ask_empty(setup, mask, slot, pilots, points.len(), grid.len())?;
    take_off(setup, mask, slot, carriers, pilots, grid, points);
    Ok(())
}
