// The C calls over a whole slot's grid: that which puts its pilots on it, and those that empty it. Each returns 0, or document
// 01's refusal number; on a refusal nothing is written.
#![tactic(auto)]

ghost use Rattle.std.specs.Prelude.{◌≡◌};
ghost use Rattle.modes.specs.Setup.{setup_lent};
ghost use Rattle.ground.specs.Ground.{ground_of};
ghost use Rattle.empty.specs.Empty.{empty_of, empty_first_of};
ghost use Rattle.capi_grid.specs.Grid.{pair_point};

use points::Point;

#[unsafe(no_mangle)]
pub extern "C" fn bp_ground(
    mode: u32,
    size: u32,
    cell: u32,
    mask: u32,
    slot: u32,
    pilots: &[u32],
    pilot: &[f32; 2],
    grid: &mut [f32],
) -> u32
    ensures { record { refusal = result; buffer = grid.new } ≡ ground_of (setup_lent mode size cell pilots.now) mask slot (pair_point pilot.now) grid.old }
{
    let p = Point {
        i: pilot[0],
        q: pilot[1],
    };
    let of = c_boundary::setup(mode, size, cell);
    let mask = mask as usize;
    let answer = ground::ground(of, mask, slot as usize, pilots, p, grid);
    c_boundary::number(answer)
}

#[unsafe(no_mangle)]
pub extern "C" fn bp_empty(
    mode: u32,
    size: u32,
    cell: u32,
    mask: u32,
    slot: u32,
    pilots: &[u32],
    grid: &[f32],
    points: &mut [f32],
) -> u32
    ensures { record { refusal = result; buffer = points.new } ≡ empty_of (setup_lent mode size cell pilots.now) mask slot grid.now points.old }
{
    let of = c_boundary::setup(mode, size, cell);
    let mask = mask as usize;
    let answer = empty::empty(of, mask, slot as usize, pilots, grid, points);
    c_boundary::number(answer)
}

#[unsafe(no_mangle)]
pub extern "C" fn bp_empty_first(
    mode: u32,
    size: u32,
    cell: u32,
    mask: u32,
    slot: u32,
    carriers: u32,
    pilots: &[u32],
    grid: &[f32],
    points: &mut [f32],
) -> u32
    ensures { record { refusal = result; buffer = points.new } ≡ empty_first_of (setup_lent mode size cell pilots.now) mask slot carriers grid.now points.old }
{
    let of = c_boundary::setup(mode, size, cell);
    let mask = mask as usize;
    let slot = slot as usize;
    let answer = empty::empty_first(of, mask, slot, carriers as usize, pilots, grid, points);
    c_boundary::number(answer)
}
