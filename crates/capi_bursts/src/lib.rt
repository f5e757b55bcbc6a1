// The C calls over lists of bursts. Each returns 0, or document 01's refusal number; on a refusal nothing is written.
#![tactic(auto)]

ghost use Rattle.std.specs.Prelude.{◌≡◌};
ghost use Rattle.bursts.specs.Burst.{check_of};
ghost use Rattle.bursts.specs.Owner.{owner_of, owners_of};
ghost use Rattle.c_boundary.specs.Row.{RowOut};
ghost use Rattle.capi_bursts.specs.Burst.{OwnerOut, owner_out, owners_out};

use zone::Zone;

fn zone(mode: u32, cell: u32, slots: u32, mask: u32) -> Zone
    ensures { result ≡ record { mode = mode; cell = cell; slots = slots; mask = mask } }
{
    Zone {
        mode: mode as usize,
        cell: cell as usize,
        slots: slots as usize,
        mask: mask as usize,
    }
}

#[unsafe(no_mangle)]
pub extern "C" fn bp_bursts_check(
    mode: u32,
    size: u32,
    cell: u32,
    slots: u32,
    mask: u32,
    bursts: &[u32],
) -> u32
    ensures { result ≡ check_of size (record { mode = mode; cell = cell; slots = slots; mask = mask }) bursts.now }
{
    let of = zone(mode, cell, slots, mask);
    let answer = bursts::check(size as usize, of, bursts);
    c_boundary::number(answer)
}

#[unsafe(no_mangle)]
pub extern "C" fn bp_burst_owner(
    mode: u32,
    size: u32,
    cell: u32,
    slots: u32,
    mask: u32,
    slot: u32,
    subchannel: u32,
    bursts: &[u32],
    owner: &mut u32,
    looked: &mut u32,
) -> u32
    ensures { record { refusal = result; owner = owner.new; looked = looked.new } ≡ owner_out (owner_of size (record { mode = mode; cell = cell; slots = slots; mask = mask }) slot subchannel bursts.now) owner.old looked.old }
{
    let of = zone(mode, cell, slots, mask);
    let at = slot as usize;
    let on = subchannel as usize;
    match bursts::owner(size as usize, of, at, on, bursts) {
        Ok(found) => {
            let position = found.owner.unwrap_or(64);
            *owner = position as u32;
            *looked = found.looked as u32;
            0
        }
        Err(refusal) => u32::from(refusal),
    }
}

#[unsafe(no_mangle)]
pub extern "C" fn bp_burst_owners(
    mode: u32,
    size: u32,
    cell: u32,
    slots: u32,
    mask: u32,
    slot: u32,
    bursts: &[u32],
    owners: &mut [u8; 192],
) -> u32
    ensures { record { refusal = result; row = owners.new } ≡ owners_out (owners_of size (record { mode = mode; cell = cell; slots = slots; mask = mask }) slot bursts.now) owners.old }
{
    let of = zone(mode, cell, slots, mask);
    let found = bursts::owners(size as usize, of, slot as usize, bursts);
    match found.refusal {
        None => {
            let row = found.owners;
            *owners = row;
            0
        }
        Some(refusal) => u32::from(refusal),
    }
}
