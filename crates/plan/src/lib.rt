// A zone plan: its zones in their places, and the questions put to it.
#![tactic(auto)]

ghost use Rattle.std.specs.Prelude.{◌≡◌, ◌≤◌, drop};
ghost use Rattle.refusal.specs.Refusal.{refusal_in};
ghost use Rattle.plan.specs.Plan.{are_unused, used_zones};
ghost use Rattle.plan.specs.Model.{zones_refusal, plan_refusal};

use refusal::{Refusal, ask};
use zone::Zone;

// A plan: its zones stand in the first places, unused places are all zero.
#[derive(Clone, Copy)]
pub struct Plan {
    pub count: usize,
    pub size: usize,
    pub zones: [Zone; 8],
}

// Is every place from the count on unused?
fn are_unused(plan: Plan) -> bool
    ensures { result ≡ are_unused (drop plan.count plan.zones) }
{
    for k in plan.count..8 {
        if !zone::is_unused(plan.zones[k]) {
            return false;
        }
    }
    true
}

// The questions put to the zones of a plan, one after the other.
fn ask_zones(plan: Plan) -> Result<(), Refusal>
    requires { plan.count ≤ 8 }
    ensures { refusal_in result ≡ zones_refusal plan.size None (used_zones plan) }
{
    let mut prior = None;
    for zone in &plan.zones[..plan.count] {
        zone::ask_zone(plan.size, prior, *zone)?;
        prior = Some(zone.mode);
    }
    Ok(())
}

// The questions put to a plan.
pub fn ask_plan(plan: Plan) -> Result<(), Refusal>
    ensures { refusal_in result ≡ plan_refusal plan }
{
    ask(base::is_up_to(8, plan.count), Refusal::Count)?;
    ask(are_unused(plan), Refusal::Count)?;
    ask(modes::is_four_sizes(plan.size), Refusal::Size)?;
    ask_zones(plan)
}
