// The C calls over the map. Each returns 0, or document 01's refusal number; on a refusal nothing is written.
#![tactic(auto)]

ghost use Rattle.std.specs.Prelude.{◌≡◌};
ghost use Rattle.modes.specs.Setup.{setup_lent};
ghost use Rattle.map.specs.Place.{place_of, locate_of};
ghost use Rattle.capi_map.specs.Map.{PlaceOut, place_out, LocateOut, locate_out};

use map::Located;

#[unsafe(no_mangle)]
pub extern "C" fn bp_place(
    mode: u32,
    size: u32,
    cell: u32,
    slot: u32,
    subchannel: u32,
    index: u32,
    pilots: &[u32],
    symbol: &mut u32,
    carrier: &mut i32,
) -> u32
    ensures { record { refusal = result; symbol = symbol.new; carrier = carrier.new } ≡ place_out (place_of (setup_lent mode size cell pilots.now) slot subchannel index) symbol.old carrier.old }
{
    let of = c_boundary::setup(mode, size, cell);
    let answer = map::place(
        of,
        slot as usize,
        subchannel as usize,
        index as usize,
        pilots,
    );
    match answer {
        Ok(placed) => {
            *symbol = placed.symbol as u32;
            *carrier = placed.carrier;
            0
        }
        Err(refusal) => u32::from(refusal),
    }
}

#[unsafe(no_mangle)]
pub extern "C" fn bp_locate(
    mode: u32,
    size: u32,
    cell: u32,
    symbol: u32,
    carrier: i32,
    pilots: &[u32],
    kind: &mut u32,
    slot: &mut u32,
    subchannel: &mut u32,
    index: &mut u32,
) -> u32
    ensures { record { refusal = result; kind = kind.new; slot = slot.new; subchannel = subchannel.new; index = index.new } ≡ locate_out (locate_of (setup_lent mode size cell pilots.now) symbol carrier) kind.old slot.old subchannel.old index.old }
{
    let of = c_boundary::setup(mode, size, cell);
    let answer = map::locate(of, symbol as usize, carrier, pilots);
    let held = match answer {
        Ok(held) => held,
        Err(refusal) => return u32::from(refusal),
    };
    match held {
        Located::Guard => {
            *kind = 0;
            0
        }
        Located::Dc => {
            *kind = 1;
            0
        }
        Located::Pilot => {
            *kind = 2;
            0
        }
        Located::Data {
            slot: a,
            subchannel: s,
            index: m,
        } => {
            *kind = 3;
            *slot = a as u32;
            *subchannel = s as u32;
            *index = m as u32;
            0
        }
    }
}
