// A look at one carrier of a slot's grid.
#![tactic(auto)]

ghost use Rattle.std.specs.Prelude.{◌≡◌, ◌*◌, ◌%◌, ◌<◌};
ghost use Rattle.refusal.specs.Refusal.{refusal_in};
ghost use Rattle.modes.specs.Setup.{alone, lent};
ghost use Rattle.modes.specs.Mode.{symbols};
ghost use Rattle.map.specs.Place.{as_content};
ghost use Rattle.modes.specs.Model.{Ranged};
ghost use Rattle.lengths.specs.Length.{grid_points};
ghost use Rattle.grid.specs.Row.{column_position};
ghost use Rattle.look.specs.Look.{sight as sight_of, as_sight, seen, look_of};

use map::Located;
use modes::Setup;
use points::Point;
use refusal::Refusal;

// What `look` finds on a carrier.
#[derive(Clone, Copy)]
pub enum Seen {
    Nothing,
    Pilot(Point),
    Data {
        point: Point,
        slot: usize,
        subchannel: usize,
        index: usize,
    },
}

// What is seen on a carrier that holds this, with the point p there.
fn sight(content: Located, p: Point) -> Seen
    ensures { as_sight result ≡ sight_of p (as_content content) }
{
    match content {
        Located::Guard => Seen::Nothing,
        Located::Dc => Seen::Nothing,
        Located::Pilot => Seen::Pilot(p),
        Located::Data {
            slot,
            subchannel,
            index,
        } => Seen::Data {
            point: p,
            slot,
            subchannel,
            index,
        },
    }
}

// Where a column of a zone's symbol stands in its slot's grid.
fn column_position(setup: Setup, symbol: usize, column: usize) -> usize
    requires ranged { Ranged (alone setup) }
    requires column_lt_size { column < setup.size }
    ensures { (result ≡ column_position (alone setup) (symbol % symbols (alone setup)) column) × (result < grid_points (alone setup)) }
{
    modes::offset_of(setup, symbol) * setup.size + column
}

// The point on a lit carrier of a zone's symbol, and whose it is; or the first refusal of 1, 2, 3, 17, 4, 7,
// 20, 9.
pub fn look(
    setup: Setup,
    mask: usize,
    symbol: usize,
    pilots: &[u32],
    grid: &[f32],
    carrier: i32,
) -> Result<Seen, Refusal>
    ensures { seen result ≡ look_of (lent setup pilots.now) mask symbol grid.now carrier }
{
    questions::ask_look(setup, mask, symbol, carrier, pilots, grid.len())?;
    let column = centre::column(setup.size, carrier);
    let p = points::point_at(grid, column_position(setup, symbol, column));
    let content = mask_content::lit_content(setup, mask, symbol, column, pilots);
    Ok(sight(content, p))
}
