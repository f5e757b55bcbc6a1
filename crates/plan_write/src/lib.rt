// Writing a zone plan as bytes.
#![tactic(auto)]

ghost use Rattle.std.specs.Prelude.{◌≡◌, ◌+◌, ◌≤◌, length};
ghost use Rattle.text.specs.Text.{Put};
ghost use Rattle.zone.specs.Model.{Small};
ghost use Rattle.plan.specs.Model.{plan_refusal};
ghost use Rattle.plan_write.specs.Write.{zone_bytes, plan_bytes, written, write_of};

use plan::Plan;
use refusal::{Refusal, ask};
use zone::Zone;

// Puts the values of a zone at a place where they fit; answers the place after them.
fn put_zone(dest: &mut [u8], at: usize, zone: Zone) -> usize
    requires { Small zone × (at + length (zone_bytes zone) ≤ length dest.old) }
    ensures { Put dest.old at (zone_bytes zone) result dest.new }
{
    let values = [zone.mode, zone.cell, zone.slots, zone.mask];
    let mut next = at;
    for k in 0..4 {
        next = value::write(dest, next, values[k]);
    }
    next
}

// Puts an accepted plan where it fits; answers how many bytes.
fn put_plan(dest: &mut [u8], plan: Plan) -> usize
    requires { (plan_refusal plan ≡ 0) × (length (plan_bytes plan) ≤ length dest.old) }
    ensures { Put dest.old 0 (plan_bytes plan) result dest.new }
{
    let after_count = value::write(dest, 0, plan.count);
    let mut at = value::write(dest, after_count, plan.size);
    for k in 0..plan.count {
        at = put_zone(dest, at, plan.zones[k]);
    }
    at
}

// Writes a plan at the destination's start: how many bytes, or the first refusal.
pub fn write(plan: Plan, dest: &mut [u8]) -> Result<usize, Refusal>
    ensures { written result dest.new ≡ write_of plan dest.old }
{
    plan::ask_plan(plan)?;
    let mut bytes = [0u8; 51];
    let n = put_plan(&mut bytes, plan);
    ask(n <= dest.len(), Refusal::Room)?;
    Ok(text::put_bytes(dest, 0, &bytes[..n]))
}
