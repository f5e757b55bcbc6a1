// The C call that looks at a grid. It returns 0, or document 01's refusal number; on a refusal nothing is written.
#![tactic(auto)]

ghost use Rattle.std.specs.Prelude.{◌≡◌};
ghost use Rattle.modes.specs.Setup.{setup_lent};
ghost use Rattle.look.specs.Look.{look_of};
ghost use Rattle.capi_look.specs.Look.{look_out};

use look::Seen;

#[unsafe(no_mangle)]
pub extern "C" fn bp_look(
    mode: u32,
    size: u32,
    cell: u32,
    mask: u32,
    symbol: u32,
    pilots: &[u32],
    grid: &[f32],
    carrier: i32,
    kind: &mut u32,
    point: &mut [f32; 2],
    slot: &mut u32,
    subchannel: &mut u32,
    index: &mut u32,
) -> u32
    ensures { record { refusal = result; kind = kind.new; point = point.new; slot = slot.new; subchannel = subchannel.new; index = index.new } ≡ look_out (look_of (setup_lent mode size cell pilots.now) mask symbol grid.now carrier) kind.old point.old slot.old subchannel.old index.old }
{
    let of = c_boundary::setup(mode, size, cell);
    let mask = mask as usize;
    let answer = look::look(of, mask, symbol as usize, pilots, grid, carrier);
    let seen = match answer {
        Ok(seen) => seen,
        Err(refusal) => return u32::from(refusal),
    };
    match seen {
        Seen::Nothing => {
            *kind = 0;
            0
        }
        Seen::Pilot(p) => {
            *kind = 2;
            *point = [p.i, p.q];
            0
        }
        Seen::Data {
            point: d,
            slot: t,
            subchannel: b,
            index: n,
        } => {
            *kind = 3;
            *point = [d.i, d.q];
            *slot = t as u32;
            *subchannel = b as u32;
            *index = n as u32;
            0
        }
    }
}
