// Where a subchannel's points stand, found fast: a row of 48 carriers, in the order that is cheapest for its mode, and where in
// it index 0 stands. The map's own definitions say what they are.
#![tactic(auto)]

ghost use Rattle.std.specs.Prelude.{◌≡◌, ◌<◌};
ghost use Rattle.base.specs.Model.{Turned};
ghost use Rattle.modes.specs.Setup.{alone, lent};
ghost use Rattle.modes.specs.Mode.{subchannels};
ghost use Rattle.modes.specs.Model.{Valid};
ghost use Rattle.rows.specs.Model.{shift_of, point_place, RowOf};

use modes::{Mode, Setup};
use ofusc::Width;

// The carriers of a subchannel's points as numbers, the size for each symbol of the slot: index 0 at place `shift`, the others
// follow, going on at the row's start.
#[derive(Clone, Copy)]
pub struct CarrierRow {
    pub shift: usize,
    pub carriers: [u16; 48],
}

// The place in a subchannel's row at which index 0 stands.
fn shift(setup: Setup, subchannel: usize) -> usize
    requires { subchannel < 65536 }
    ensures { (result ≡ shift_of (alone setup) subchannel) × (result < 48) }
{
    match Mode::try_from(setup.mode) {
        Ok(Mode::PuscDl) => 0,
        Ok(Mode::PuscUl) => 13 * subchannel % 48,
        Ok(Mode::Ofusc) => 23 * subchannel % 48,
        Ok(Mode::Amc(_)) => setup.cell % 48,
        Ok(Mode::Fusc) => 13 * subchannel % 48,
        Err(_) => 0,
    }
}

// The carriers of a subchannel's points, index 0 at place `shift`.
fn carrier_row(setup: Setup, slot: usize, subchannel: usize, pilots: &[u32]) -> [u16; 48]
    requires valid { Valid (lent setup pilots.now) }
    requires subchannel_bound { subchannel < subchannels (alone setup) }
    ensures { Turned (shift_of (lent setup pilots.now) subchannel) (point_place (lent setup pilots.now) slot subchannel) result }
{
    match Mode::try_from(setup.mode) {
        Ok(Mode::PuscDl) => {
            let spots = pusc_dl_rows::spots(setup.cell, subchannel);
            carriers::carrier_row(modes::band(setup), spots)
        }
        Ok(Mode::PuscUl) => pusc_ul_rows::carrier_row(setup.cell, subchannel),
        Ok(Mode::Ofusc) => {
            let width = Width {
                n: modes::width(setup),
            };
            let table = ofusc_rows::table(width, setup.cell);
            let numbers = ofusc_rows::numbers(width, setup.cell, subchannel, &table);
            let spots = carriers::used_numbers(slot, numbers);
            carriers::carrier_row(modes::band(setup), spots)
        }
        Ok(Mode::Amc(shape)) => {
            let width = modes::width(setup);
            let table = amc_rows::table(shape, width, slot, setup.cell);
            amc_rows::carrier_row(shape, width, slot, setup.cell, subchannel, &table)
        }
        Ok(Mode::Fusc) => fusc_rows::carrier_row(setup.cell, subchannel, pilots),
        Err(_) => [0; 48],
    }
}

// The row of a subchannel.
pub fn subchannel_row(setup: Setup, slot: usize, subchannel: usize, pilots: &[u32]) -> CarrierRow
    requires valid { Valid (lent setup pilots.now) }
    requires subchannel_bound { subchannel < subchannels (alone setup) }
    ensures { RowOf (lent setup pilots.now) slot subchannel result }
{
    CarrierRow {
        shift: shift(setup, subchannel),
        carriers: carrier_row(setup, slot, subchannel, pilots),
    }
}
