// A plan as C hands it over: its eight places are a row of 32 numbers, mode, cell, slots and mask of each.
#![tactic(auto)]

ghost use Rattle.std.specs.Prelude.{◌≡◌};
ghost use Rattle.plan_numbers.specs.Numbers.{numbers_of, places_in, plan_in};
ghost use Rattle.plan_numbers.specs.Model.{AllSmall};

use plan::Plan;
use zone::{UNUSED, Zone};

// Mode, cell, slots and mask of each place, as of a plan that was read.
pub fn numbers(zones: [Zone; 8]) -> [u32; 32]
    requires { AllSmall zones }
    ensures { result ≡ numbers_of zones }
{
    let mut numbers = [0u32; 32];
    for k in 0..8 {
        let zone = zones[k];
        numbers[4 * k] = zone.mode as u32;
        numbers[4 * k + 1] = zone.cell as u32;
        numbers[4 * k + 2] = zone.slots as u32;
        numbers[4 * k + 3] = zone.mask as u32;
    }
    numbers
}

// The eight places of 32 numbers.
fn places(numbers: &[u32; 32]) -> [Zone; 8]
    ensures { result ≡ places_in numbers.now }
{
    let mut zones = [UNUSED; 8];
    for k in 0..8 {
        zones[k] = Zone {
            mode: numbers[4 * k] as usize,
            cell: numbers[4 * k + 1] as usize,
            slots: numbers[4 * k + 2] as usize,
            mask: numbers[4 * k + 3] as usize,
        };
    }
    zones
}

// The plan of a count, a size and 32 numbers.
pub fn plan_in(count: u32, size: u32, numbers: &[u32; 32]) -> Plan
    ensures { result ≡ plan_in count size numbers.now }
{
    Plan {
        count: count as usize,
        size: size as usize,
        zones: places(numbers),
    }
}
