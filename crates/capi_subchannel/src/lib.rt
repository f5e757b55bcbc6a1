// The C calls over one subchannel of a slot: that which lays its points on the slot's grid, and that which tells where they
// stand in it. Each returns 0, or document 01's refusal number; on a refusal nothing is written.
#![tactic(auto)]

ghost use Rattle.std.specs.Prelude.{◌≡◌};
ghost use Rattle.modes.specs.Setup.{setup_lent};
ghost use Rattle.lay.specs.Lay.{lay_of};
ghost use Rattle.places.specs.Places.{places_of};
ghost use Rattle.c_boundary.specs.Row.{RowOut};
ghost use Rattle.capi_subchannel.specs.Places.{places_out};

#[unsafe(no_mangle)]
pub extern "C" fn bp_lay(
    mode: u32,
    size: u32,
    cell: u32,
    mask: u32,
    slot: u32,
    subchannel: u32,
    pilots: &[u32],
    points: &[f32],
    grid: &mut [f32],
) -> u32
    ensures { record { refusal = result; buffer = grid.new } ≡ lay_of (setup_lent mode size cell pilots.now) mask slot subchannel points.now grid.old }
{
    let of = c_boundary::setup(mode, size, cell);
    let mask = mask as usize;
    let slot = slot as usize;
    let answer = lay::lay(of, mask, slot, subchannel as usize, pilots, points, grid);
    c_boundary::number(answer)
}

#[unsafe(no_mangle)]
pub extern "C" fn bp_places(
    mode: u32,
    size: u32,
    cell: u32,
    slot: u32,
    subchannel: u32,
    pilots: &[u32],
    places: &mut [u32; 48],
) -> u32
    ensures { record { refusal = result; row = places.new } ≡ places_out (places_of (setup_lent mode size cell pilots.now) slot subchannel) places.old }
{
    let of = c_boundary::setup(mode, size, cell);
    let found = places::row(of, slot as usize, subchannel as usize, pilots);
    match found {
        Ok(row) => {
            *places = row;
            0
        }
        Err(refusal) => u32::from(refusal),
    }
}
