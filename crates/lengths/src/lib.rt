// The lengths of a slot's buffers, and the questions of a setup with a mask.
#![tactic(auto)]

ghost use Rattle.std.specs.Prelude.{◌≡◌, ◌<◌};
ghost use Rattle.refusal.specs.Refusal.{refusal_in};
ghost use Rattle.modes.specs.Setup.{alone};
ghost use Rattle.modes.specs.Model.{Ranged};
ghost use Rattle.lengths.specs.Length.{grid_points, points_length, lit_points_length, grid_length};
ghost use Rattle.lengths.specs.Model.{mask_refusal};

use modes::Setup;
use refusal::{Refusal, ask};

// The points of a slot's grid.
pub fn grid_points(setup: Setup) -> usize
    requires { Ranged (alone setup) }
    ensures { (result ≡ grid_points (alone setup)) × (result < 65536) }
{
    modes::symbols(setup) * setup.size
}

// The floats of a slot's points; 0 for a mode and size that the map does not have.
pub fn points_length(mode: usize, size: usize) -> usize
    ensures { result ≡ points_length mode size }
{
    let setup = Setup {
        mode,
        size,
        cell: 0,
    };
    match modes::ask_setup(setup) {
        Ok(()) => 96 * modes::subchannels(setup),
        Err(_) => 0,
    }
}

// The floats of the lit subchannels' points; 0 likewise, and for a mask out of its range.
pub fn lit_points_length(mode: usize, size: usize, mask: usize) -> usize
    ensures { result ≡ lit_points_length mode size mask }
{
    let setup = Setup {
        mode,
        size,
        cell: 0,
    };
    match ask_mask(setup, mask) {
        Ok(()) => 96 * mask::lit_subchannels(setup, mask),
        Err(_) => 0,
    }
}

// The floats of a slot's grid; 0 as for the points.
pub fn grid_length(mode: usize, size: usize) -> usize
    ensures { result ≡ grid_length mode size }
{
    let setup = Setup {
        mode,
        size,
        cell: 0,
    };
    match modes::ask_setup(setup) {
        Ok(()) => 2 * grid_points(setup),
        Err(_) => 0,
    }
}

// Questions 1, 2, 3 and 17.
pub fn ask_mask(setup: Setup, mask: usize) -> Result<(), Refusal>
    ensures { refusal_in result ≡ mask_refusal (alone setup) mask }
{
    modes::ask_setup(setup)?;
    ask(mask::is_mask(setup.mode, mask), Refusal::Mask)
}
