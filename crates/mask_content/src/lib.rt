// What a column of a symbol's row holds, where only a mask's groups are lit.
#![tactic(auto)]

ghost use Rattle.std.specs.Prelude.{◌≡◌, ◌*◌, ◌<◌, ◌≤◌};
ghost use Rattle.carriers.specs.Band.{used_of};
ghost use Rattle.modes.specs.Setup.{alone, lent};
ghost use Rattle.modes.specs.Mode.{symbols, band};
ghost use Rattle.modes.specs.Model.{Ranged, Valid};
ghost use Rattle.map.specs.Place.{as_content};
ghost use Rattle.mask.specs.Mask.{is_used_lit, lit_content};

use map::Located;
use modes::Setup;

// Is a column lit, by its used number? DC counts as the used number above it.
fn is_column_lit(setup: Setup, mask: usize, column: usize) -> bool
    requires ranged { Ranged (alone setup) }
    requires setup_bound { ((band (alone setup)).left ≤ column) × (used_of (band (alone setup)) column < (band (alone setup)).used) }
    ensures { result ≡ is_used_lit (alone setup) mask (used_of (band (alone setup)) column) }
{
    mask::is_used_lit(setup, mask, carriers::used(modes::band(setup), column))
}

// What stands in a column of an accepted symbol's row, where what is not lit counts as a guard: data is lit by its subchannel.
pub fn lit_content(
    setup: Setup,
    mask: usize,
    symbol: usize,
    column: usize,
    pilots: &[u32],
) -> Located
    requires valid { Valid (lent setup pilots.now) }
    requires symbol_bound { (symbol < 512 * symbols (alone setup)) × (column < setup.size) }
    ensures { as_content result ≡ lit_content (lent setup pilots.now) mask symbol column }
{
    let content = map::content(setup, symbol, column, pilots);
    let is_lit = match content {
        Located::Guard => false,
        Located::Dc => is_column_lit(setup, mask, column),
        Located::Pilot => is_column_lit(setup, mask, column),
        Located::Data { subchannel, .. } => mask::is_lit(setup, mask, subchannel),
    };
    if is_lit { content } else { Located::Guard }
}
