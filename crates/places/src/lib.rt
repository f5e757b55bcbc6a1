// The places of a subchannel's points in a slot's grid, as a row that a caller keeps and copies through.
#![tactic(auto)]

ghost use Rattle.std.specs.Prelude.{◌≡◌, ◌<◌};
ghost use Rattle.base.specs.Tabulate.{tabulate};
ghost use Rattle.modes.specs.Setup.{lent};
ghost use Rattle.copies.specs.Model.{turned};
ghost use Rattle.places.specs.Places.{given, places_of};

use base::reduce;
use modes::Setup;
use refusal::{Refusal, ask};

// A row that starts at place `by`, and goes on at its start, from its first entry on.
fn in_order(row: &[u16; 48], by: usize) -> [u32; 48]
    requires { by < 48 }
    ensures { result ≡ tabulate 48 (turned row.now by) }
{
    let mut places = [0u32; 48];
    for m in 0..48 {
        places[m] = u32::from(row[reduce(48, m + by)]);
    }
    places
}

// The places of a subchannel's points by index, or the first refusal of 1, 2, 3, 4, 5, 20.
pub fn row(
    setup: Setup,
    slot: usize,
    subchannel: usize,
    pilots: &[u32],
) -> Result<[u32; 48], Refusal>
    ensures { given result ≡ places_of (lent setup pilots.now) slot subchannel }
{
    modes::ask_setup(setup)?;
    ask(slot < 512, Refusal::Slot)?;
    ask(subchannel < modes::subchannels(setup), Refusal::Subchannel)?;
    ask(modes::is_lent(setup, pilots), Refusal::Pilots)?;
    let row = rows::subchannel_row(setup, slot, subchannel, pilots);
    Ok(in_order(&row.carriers, row.shift))
}
