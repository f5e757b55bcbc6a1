// A zone of a plan, and the questions put to it: to its own values, and where it stands.
#![tactic(auto)]

ghost use Rattle.std.specs.Prelude.{◌≡◌};
ghost use Rattle.zone.specs.Zone.{is_order, fields_refusal, is_unused};
ghost use Rattle.zone.specs.Model.{zone_refusal};
ghost use Rattle.refusal.specs.Refusal.{refusal_in};

use modes::Setup;
use refusal::{Refusal, ask};

// One zone: mode, cell, how many slots, and the mask, bit g for major group g (document 02, wish 5).
#[derive(Clone, Copy, PartialEq, Eq)]
pub struct Zone {
    pub mode: usize,
    pub cell: usize,
    pub slots: usize,
    pub mask: usize,
}

// An unused place of a plan.
pub const UNUSED: Zone = Zone {
    mode: 0,
    cell: 0,
    slots: 0,
    mask: 0,
};

// Does a zone stand in its place, the first or after one of a mode?
fn is_order(size: usize, prior: Option<usize>, zone: Zone) -> bool
    ensures { result ≡ is_order prior size zone }
{
    match prior {
        None => size != 2048 || zone.mode == 0,
        Some(mode) => !modes::is_amc(mode) || modes::is_amc(zone.mode),
    }
}

// The questions put to a zone's own values.
#[inline(always)]
pub fn ask_fields(size: usize, zone: Zone) -> Result<(), Refusal>
    ensures { refusal_in result ≡ fields_refusal size zone }
{
    ask(zone.mode != 1, Refusal::Mode)?;
    modes::ask_setup(Setup {
        mode: zone.mode,
        size: size,
        cell: zone.cell,
    })?;
    ask(base::is_up_to(512, zone.slots), Refusal::Slots)?;
    ask(mask::is_mask(zone.mode, zone.mask), Refusal::Mask)
}

// The questions put to a zone in its plan, after a zone of a mode or as the first.
#[inline(always)]
pub fn ask_zone(size: usize, prior: Option<usize>, zone: Zone) -> Result<(), Refusal>
    ensures { refusal_in result ≡ zone_refusal size prior zone }
{
    ask_fields(size, zone)?;
    ask(is_order(size, prior, zone), Refusal::Order)
}

// Is a place of a plan unused, all zero?
pub fn is_unused(zone: Zone) -> bool
    ensures { result ≡ is_unused zone }
{
    zone == UNUSED
}
