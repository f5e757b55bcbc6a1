// Masks: which major groups a sector lights, and what that makes of subchannels and used numbers.
#![tactic(auto)]

ghost use Rattle.std.specs.Prelude.{◌≡◌, ◌<◌};
ghost use Rattle.modes.specs.Setup.{alone};
ghost use Rattle.modes.specs.Mode.{band};
ghost use Rattle.modes.specs.Model.{Ranged};
ghost use Rattle.mask.specs.Mask.{is_mask, is_lit, is_used_lit, lit_subchannels};

use modes::Setup;

// Is the mask in its range?
#[tactic(auto, unfolding(crate::specs::Mask::is_mask))]
pub fn is_mask(mode: usize, mask: usize) -> bool
    ensures { result ≡ is_mask mode mask }
{
    if modes::takes_mask(mode) {
        return base::is_up_to(63, mask);
    }
    mask == 0
}

// Is a subchannel lit?
#[tactic(auto, unfolding(crate::specs::Mask::is_lit_of))]
pub fn is_lit(setup: Setup, mask: usize, subchannel: usize) -> bool
    ensures { result ≡ is_lit (alone setup) mask subchannel }
{
    if modes::takes_mask(setup.mode) {
        return pusc_dl_lit::is_subchannel_lit(mask, subchannel);
    }
    true
}

// Is a used number lit?
pub fn is_used_lit(setup: Setup, mask: usize, used: usize) -> bool
    requires ranged { Ranged (alone setup) }
    requires used_bound { used < (band (alone setup)).used }
    ensures { result ≡ is_used_lit (alone setup) mask used }
{
    if modes::takes_mask(setup.mode) {
        return pusc_dl_lit::is_used_lit(setup.cell, mask, used);
    }
    true
}

// How many subchannels are lit.
pub fn lit_subchannels(setup: Setup, mask: usize) -> usize
    requires { mask < 64 }
    ensures { result ≡ lit_subchannels (alone setup) mask }
{
    if modes::takes_mask(setup.mode) {
        return pusc_dl_lit::lit_subchannels(mask);
    }
    modes::subchannels(setup)
}
