// Reading a zone plan from its bytes.
#![tactic(auto)]

ghost use Rattle.std.specs.Prelude.{◌≡◌, ◌≤◌, drop, None};
ghost use Rattle.refusal.specs.Refusal.{answer_of};
ghost use Rattle.plan_read.specs.Read.{read_zones, finish, plan_of, plan_said};
ghost use Rattle.plan_read.specs.Model.{ZoneAt};

use plan::Plan;
use refusal::{Refusal, ask};
use zone::{UNUSED, Zone};

// A zone and the place after it.
#[derive(Clone, Copy)]
pub struct ZoneFound {
    pub zone: Zone,
    pub next: usize,
}

// The zone whose first byte stands at a place: its values in a row.
fn zone_at(s: &[u8], at: usize) -> Result<ZoneFound, Refusal>
    ensures { ZoneAt s.now at result }
{
    let mut values = [0usize; 4];
    let mut next = at;
    for k in 0..4 {
        let read = value::read(s, next)?;
        values[k] = read.value;
        next += read.bytes;
    }
    Ok(ZoneFound {
        zone: Zone {
            mode: values[0],
            cell: values[1],
            slots: values[2],
            mask: values[3],
        },
        next: next,
    })
}

// The plan whose zones' first byte stands at a place, to the end of the bytes.
fn zones_at(bytes: &[u8], at: usize, count: usize, size: usize) -> Result<Plan, Refusal>
    requires { count ≤ 8 }
    ensures { answer_of result ≡ read_zones count size None (drop at bytes.now) (finish count size) }
{
    let mut zones = [UNUSED; 8];
    let mut prior = None;
    let mut next = at;
    for k in 0..count {
        let found = zone_at(bytes, next)?;
        zone::ask_zone(size, prior, found.zone)?;
        zones[k] = found.zone;
        prior = Some(found.zone.mode);
        next = found.next;
    }
    ask(bytes.len() <= next, Refusal::Rest)?;
    Ok(Plan {
        count: count,
        size: size,
        zones: zones,
    })
}

// The plan that the bytes are, or the first refusal.
pub fn read(bytes: &[u8]) -> Result<Plan, Refusal>
    ensures { answer_of result ≡ plan_of bytes.now }
{
    let count = value::read(bytes, 0)?;
    ask(base::is_up_to(8, count.value), Refusal::Count)?;
    let size = value::read(bytes, count.bytes)?;
    ask(modes::is_four_sizes(size.value), Refusal::Size)?;
    zones_at(bytes, count.bytes + size.bytes, count.value, size.value)
}

// The plan that an answer says: where it is refused there is none, and count, size and zones are all zero.
pub fn said(answer: Result<Plan, Refusal>) -> Plan
    ensures { result ≡ plan_said (answer_of answer) }
{
    match answer {
        Ok(plan) => plan,
        Err(_) => Plan {
            count: 0,
            size: 0,
            zones: [UNUSED; 8],
        },
    }
}
