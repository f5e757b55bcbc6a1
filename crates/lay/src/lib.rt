// A subchannel's points laid on a slot's grid.
#![tactic(auto)]

ghost use Rattle.std.specs.Prelude.{◌≡◌};
ghost use Rattle.refusal.specs.Refusal.{refusal_in};
ghost use Rattle.modes.specs.Setup.{lent};
ghost use Rattle.lay.specs.Lay.{lay_of};

use modes::Setup;
use refusal::Refusal;

// Lays a lit subchannel's 48 points on a slot's grid and leaves the rest of it; or the first refusal of 1, 2, 3, 17, 4, 5, 20,
// 8, 9.
pub fn lay(
    setup: Setup,
    mask: usize,
    slot: usize,
    subchannel: usize,
    pilots: &[u32],
    points: &[f32],
    grid: &mut [f32],
) -> Result<(), Refusal>
    ensures { record { refusal = refusal_in result; buffer = grid.new } ≡ lay_of (lent setup pilots.now) mask slot subchannel points.now grid.old }
{
    lay_questions::ask_lay(
        setup,
        mask,
        slot,
        subchannel,
        pilots,
        points.len(),
        grid.len(),
    )?;
    let row = rows::subchannel_row(setup, slot, subchannel, pilots);
    copies::lay_row(&row.carriers, row.shift, points, grid);
    Ok(())
}
