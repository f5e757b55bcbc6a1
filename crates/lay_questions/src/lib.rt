// The questions of laying a subchannel's points.
#![tactic(auto)]

ghost use Rattle.std.specs.Prelude.{◌≡◌};
ghost use Rattle.refusal.specs.Refusal.{refusal_in};
ghost use Rattle.modes.specs.Setup.{lent};
ghost use Rattle.lay_questions.specs.Model.{lay_refusal};

use modes::Setup;
use refusal::{Refusal, ask};

// Lay's questions: 1, 2, 3, 17, 4, 5, 20, 8, 9.
pub fn ask_lay(
    setup: Setup,
    mask: usize,
    slot: usize,
    subchannel: usize,
    pilots: &[u32],
    points: usize,
    grid: usize,
) -> Result<(), Refusal>
    ensures { refusal_in result ≡ lay_refusal (lent setup pilots.now) mask slot subchannel points grid }
{
    questions::ask_slot(setup, mask, slot)?;
    let in_range = subchannel < modes::subchannels(setup);
    let lit = mask::is_lit(setup, mask, subchannel);
    ask(in_range & lit, Refusal::Subchannel)?;
    ask(modes::is_lent(setup, pilots), Refusal::Pilots)?;
    ask(points == 96, Refusal::Points)?;
    questions::ask_grid(setup, grid)
}
