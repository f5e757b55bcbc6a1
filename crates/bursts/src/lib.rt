// Bursts in a zone: the check of a list of them, and which owns a subchannel in a slot.
#![tactic(auto)]

ghost use Rattle.std.specs.Prelude.{◌≡◌, IfOk};
ghost use Rattle.base.specs.Answer.{accepted};
ghost use Rattle.refusal.specs.Refusal.{refusal_in, answer_of};
ghost use Rattle.modes.specs.Mode.{subchannels as Subchannels};
ghost use Rattle.zone.specs.Zone.{setup_of};
ghost use Rattle.burst_owner.specs.Owner.{IsOwner};
ghost use Rattle.bursts.specs.Burst.{check_of};
ghost use Rattle.bursts.specs.Owner.{owner_said, owner_of, ask_owners as AskOwners, row_given, owners_of};

use burst_owner::Owned;
use modes::Setup;
use refusal::{Refusal, ask};
use zone::Zone;

// What asking for a slot's owners answers: the first refusal, if any; and for each subchannel the owner's position in the list, or
// 64. It is no Result, since document 02 gives a refusal a row too: all 64.
#[derive(Clone, Copy)]
pub struct OwnerRow {
    pub refusal: Option<Refusal>,
    pub owners: [u8; 192],
}

// The subchannels of a zone's mode and size.
fn subchannels(size: usize, zone: Zone) -> usize
    ensures { result ≡ Subchannels (setup_of size zone) }
{
    modes::subchannels(Setup {
        mode: zone.mode,
        size: size,
        cell: zone.cell,
    })
}

// Is a list of bursts fit for its zone?
pub fn check(size: usize, zone: Zone, bursts: &[u32]) -> Result<(), Refusal>
    ensures { refusal_in result ≡ check_of size zone bursts.now }
{
    zone::ask_fields(size, zone)?;
    burst_list::ask_list(subchannels(size, zone), zone.slots, bursts)
}

// Who owns a subchannel in a slot, or the first refusal.
pub fn owner(
    size: usize,
    zone: Zone,
    slot: usize,
    subchannel: usize,
    bursts: &[u32],
) -> Result<Owned, Refusal>
    ensures said { owner_said result ≡ owner_of size zone slot subchannel bursts.now }
    ensures in_list { IfOk result (λ found. IsOwner bursts.now found.owner) }
{
    zone::ask_fields(size, zone)?;
    ask(slot < 512, Refusal::Slot)?;
    let subchannels = subchannels(size, zone);
    ask(subchannel < subchannels, Refusal::Subchannel)?;
    burst_list::ask_list(subchannels, zone.slots, bursts)?;
    Ok(burst_owner::first_owner(slot, subchannel, bursts))
}

// The questions to a slot's owners: 1, 2, 3, 13, 17, 4, 18, 19.
fn ask_owners(size: usize, zone: Zone, slot: usize, bursts: &[u32]) -> Result<(), Refusal>
    ensures { answer_of result ≡ AskOwners size zone slot bursts.now (accepted tt) }
{
    zone::ask_fields(size, zone)?;
    ask(slot < 512, Refusal::Slot)?;
    burst_list::ask_list(subchannels(size, zone), zone.slots, bursts)?;
    Ok(())
}

// Who owns each subchannel of a slot, with the first refusal. The row is made in the answer: out of a Result it would be copied.
pub fn owners(size: usize, zone: Zone, slot: usize, bursts: &[u32]) -> OwnerRow
    ensures { row_given result ≡ owners_of size zone slot bursts.now }
{
    match ask_owners(size, zone, slot, bursts) {
        Ok(()) => OwnerRow {
            refusal: None,
            owners: burst_owner::marked_row(bursts, slot),
        },
        Err(refusal) => OwnerRow {
            refusal: Some(refusal),
            owners: [64; 192],
        },
    }
}
