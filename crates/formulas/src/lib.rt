// The modes' own formulas: where a point lies in its slot, which used numbers are pilots, and whose point the others hold.
#![tactic(auto)]

ghost use Rattle.std.specs.Prelude.{◌≡◌, false, ◌<◌};
ghost use Rattle.carriers.specs.Bin.{bin_spot, in_only_symbol};
ghost use Rattle.ofusc.specs.Map.{data_number as ofuscNumber};
ghost use Rattle.modes.specs.Setup.{alone, lent};
ghost use Rattle.modes.specs.Mode.{width as WidthOf, subchannels as Subchannels, band as BandOf};
ghost use Rattle.modes.specs.Model.{Ranged, Valid};
ghost use Rattle.formulas.specs.Formula.{is_pilot, spot_of, address_of};

use carriers::{Address, DataNumber, Spot};
use modes::{Mode, Setup};
use ofusc::Width;

// Where a data number of a slot lies, whose first symbol has the number `first` in the zone.
fn bin_spot(first: usize, x: DataNumber) -> Spot
    requires { (first < 65536) × (x.offset < 65536) × (x.number < 65536) }
    ensures { result ≡ bin_spot first x }
{
    Spot {
        offset: x.offset,
        used: carriers::used_of_data(first + x.offset, x.number),
    }
}

// The data number of a point of optional FUSC, in its slot of one symbol.
fn ofusc_number(setup: Setup, subchannel: usize, index: usize) -> DataNumber
    requires ranged { Ranged (alone setup) }
    requires mode_value { (setup.mode ≡ 2) × (subchannel < Subchannels (alone setup)) × (index < 48) }
    ensures { result ≡ in_only_symbol (ofuscNumber (WidthOf (alone setup)) setup.cell subchannel index) }
{
    let width = Width {
        n: modes::width(setup),
    };
    DataNumber {
        offset: 0,
        number: ofusc::data_number(width, setup.cell, subchannel, index),
    }
}

// Where a point lies in its slot.
pub fn spot(setup: Setup, slot: usize, subchannel: usize, index: usize, pilots: &[u32]) -> Spot
    requires valid { Valid (lent setup pilots.now) }
    requires slot_bound { (slot < 512) × (subchannel < Subchannels (alone setup)) × (index < 48) }
    ensures { result ≡ spot_of (lent setup pilots.now) slot subchannel index }
{
    match Mode::try_from(setup.mode) {
        Ok(Mode::PuscDl) => pusc_dl::spot(setup.cell, subchannel, index),
        Ok(Mode::PuscUl) => pusc_ul::spot(setup.cell, subchannel, index),
        Ok(Mode::Ofusc) => bin_spot(
            slot * modes::symbols(setup),
            ofusc_number(setup, subchannel, index),
        ),
        Ok(Mode::Amc(shape)) => bin_spot(
            slot * modes::symbols(setup),
            amc::data_number(shape, setup.cell, subchannel, index),
        ),
        Ok(Mode::Fusc) => fusc::spot(setup.cell, subchannel, index, pilots),
        Err(_) => Spot { offset: 0, used: 0 },
    }
}

// Is a used number a pilot in a symbol of the zone?
pub fn is_pilot(setup: Setup, symbol: usize, used: usize, pilots: &[u32]) -> bool
    requires valid { Valid (lent setup pilots.now) }
    requires used_bound { used < (BandOf (alone setup)).used }
    ensures { result ≡ is_pilot (lent setup pilots.now) symbol used }
{
    match Mode::try_from(setup.mode) {
        Ok(Mode::PuscDl) => clusters::is_pilot(symbol, used),
        Ok(Mode::PuscUl) => pusc_ul::is_pilot(symbol % 3, used),
        Ok(Mode::Ofusc) => carriers::is_bin_pilot(symbol, used),
        Ok(Mode::Amc(_)) => carriers::is_bin_pilot(symbol, used),
        Ok(Mode::Fusc) => pilot_list::is_pilot(pilots, used),
        Err(_) => false,
    }
}

// Whose point a used number holds that is no pilot.
pub fn address(setup: Setup, symbol: usize, used: usize, pilots: &[u32]) -> Address
    requires valid { Valid (lent setup pilots.now) }
    requires used_bound { used < (BandOf (alone setup)).used }
    requires used_value { is_pilot (lent setup pilots.now) symbol used ≡ false }
    ensures { result ≡ address_of (lent setup pilots.now) symbol used }
{
    match Mode::try_from(setup.mode) {
        Ok(Mode::PuscDl) => pusc_dl::address(setup.cell, symbol % 2, used),
        Ok(Mode::PuscUl) => pusc_ul::address(setup.cell, symbol % 3, used),
        Ok(Mode::Ofusc) => {
            let width = Width {
                n: modes::width(setup),
            };
            ofusc::address(width, setup.cell, carriers::data_of_used(symbol, used))
        }
        Ok(Mode::Amc(shape)) => amc::address(
            shape,
            setup.cell,
            modes::offset_of(setup, symbol),
            carriers::data_of_used(symbol, used),
        ),
        Ok(Mode::Fusc) => fusc::address(setup.cell, used, pilots),
        Err(_) => Address {
            subchannel: 0,
            index: 0,
        },
    }
}
