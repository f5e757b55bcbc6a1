// The questions of a slot with its buffers: of ground, empty and look.
#![tactic(auto)]

ghost use Rattle.std.specs.Prelude.{◌≡◌};
ghost use Rattle.refusal.specs.Refusal.{refusal_in};
ghost use Rattle.modes.specs.Setup.{alone, lent};
ghost use Rattle.modes.specs.Model.{Ranged};
ghost use Rattle.questions.specs.Model.{slot_refusal, grid_refusal, ground_refusal, empty_refusal, look_refusal};

use modes::Setup;
use refusal::{Refusal, ask};

// Questions 1, 2, 3, 17 and 4.
#[inline(always)]
pub fn ask_slot(setup: Setup, mask: usize, slot: usize) -> Result<(), Refusal>
    ensures { refusal_in result ≡ slot_refusal (alone setup) mask slot }
{
    lengths::ask_mask(setup, mask)?;
    ask(slot < 512, Refusal::Slot)
}

// Question 9, which comes last in each call.
pub fn ask_grid(setup: Setup, grid: usize) -> Result<(), Refusal>
    requires { Ranged (alone setup) }
    ensures { refusal_in result ≡ grid_refusal (alone setup) grid }
{
    ask(grid == 2 * lengths::grid_points(setup), Refusal::Grid)
}

// Ground's questions: 1, 2, 3, 17, 4, 20, 9.
pub fn ask_ground(
    setup: Setup,
    mask: usize,
    slot: usize,
    pilots: &[u32],
    grid: usize,
) -> Result<(), Refusal>
    ensures { refusal_in result ≡ ground_refusal (lent setup pilots.now) mask slot grid }
{
    ask_slot(setup, mask, slot)?;
    ask(modes::is_lent(setup, pilots), Refusal::Pilots)?;
    ask_grid(setup, grid)
}

// Empty's questions: 1, 2, 3, 17, 4, 20, 8, 9.
#[inline(always)]
pub fn ask_empty(
    setup: Setup,
    mask: usize,
    slot: usize,
    pilots: &[u32],
    points: usize,
    grid: usize,
) -> Result<(), Refusal>
    ensures { refusal_in result ≡ empty_refusal (lent setup pilots.now) mask slot points grid }
{
    ask_slot(setup, mask, slot)?;
    ask(modes::is_lent(setup, pilots), Refusal::Pilots)?;
    ask(
        points == 96 * mask::lit_subchannels(setup, mask),
        Refusal::Points,
    )?;
    ask_grid(setup, grid)
}

// Look's questions: 1, 2, 3, 17, 4, 7, 20, 9.
pub fn ask_look(
    setup: Setup,
    mask: usize,
    symbol: usize,
    carrier: i32,
    pilots: &[u32],
    grid: usize,
) -> Result<(), Refusal>
    ensures { refusal_in result ≡ look_refusal (lent setup pilots.now) mask symbol carrier grid }
{
    lengths::ask_mask(setup, mask)?;
    ask(symbol < 512 * modes::symbols(setup), Refusal::Slot)?;
    ask(centre::in_range(setup.size, carrier), Refusal::Carrier)?;
    ask(modes::is_lent(setup, pilots), Refusal::Pilots)?;
    ask_grid(setup, grid)
}
