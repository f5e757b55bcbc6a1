// The owner of a subchannel in a slot, among the bursts of a list that was accepted; and the owners of a slot's subchannels.
#![tactic(auto)]

ghost use Rattle.std.specs.Prelude.{◌≡◌, ◌+◌, ◌≤◌, length};
ghost use Rattle.base.specs.Tabulate.{tabulate};
ghost use Rattle.burst_owner.specs.Owner.{position as Position, owner_number, IsOwner, owner_at, looked_at};
ghost use Rattle.burst_owner.specs.Model.{Accepted, marked, marked_by};

use burst::Burst;

// The owner's position in the list, if there is one, and how many bursts were looked at.
#[derive(Clone, Copy)]
pub struct Owned {
    pub owner: Option<usize>,
    pub looked: usize,
}

// The position of the first burst that covers a subchannel in a slot; past the last where none does.
fn position(bursts: &[u32], slot: usize, subchannel: usize) -> usize
    requires { length bursts.now ≤ 256 }
    ensures { result ≡ Position bursts.now slot subchannel }
{
    let count = bursts.len() / 4;
    for i in 0..count {
        if burst::is_covering(burst::burst_at(bursts, i), slot, subchannel) {
            return i;
        }
    }
    count
}

// The first burst that covers a subchannel in a slot, in an accepted list.
#[inline(always)]
pub fn first_owner(slot: usize, subchannel: usize, bursts: &[u32]) -> Owned
    requires { length bursts.now ≤ 256 }
    ensures said { (owner_number result.owner ≡ owner_at bursts.now slot subchannel) × (result.looked ≡ looked_at bursts.now slot subchannel) }
    ensures in_list { IsOwner bursts.now result.owner }
{
    let count = bursts.len() / 4;
    let i = position(bursts, slot, subchannel);
    if i < count {
        return Owned {
            owner: Some(i),
            looked: i + 1,
        };
    }
    Owned {
        owner: None,
        looked: i,
    }
}

// Sets so many entries of a row, from the first on, to a value.
fn mark(row: &mut [u8; 192], first: usize, many: usize, value: u8)
    requires { (length row.old ≡ 192) × (first + many ≤ 192) }
    ensures { row.new ≡ marked first many value row.old }
{
    for m in 0..many {
        row[first + m] = value;
    }
}

// Sets the entries of a burst's subchannels to a value, where the burst covers the slot.
fn mark_burst(row: &mut [u8; 192], burst: Burst, slot: usize, value: u8)
    requires { (length row.old ≡ 192) × (burst.subchannel + burst.subchannels ≤ 192) }
    ensures { row.new ≡ marked_by burst slot value row.old }
{
    if !burst::is_of(burst.slot, burst.slots, slot) {
        return;
    }
    mark(
        row,
        burst.subchannel as usize,
        burst.subchannels as usize,
        value,
    );
}

// The owners of a slot's subchannels, in an accepted list: none, and then each burst marks its own.
pub fn marked_row(bursts: &[u32], slot: usize) -> [u8; 192]
    requires { Accepted bursts.now }
    ensures { result ≡ tabulate 192 (owner_at bursts.now slot) }
{
    let mut row = [64u8; 192];
    for i in 0..bursts.len() / 4 {
        mark_burst(&mut row, burst::burst_at(bursts, i), slot, i as u8);
    }
    row
}
