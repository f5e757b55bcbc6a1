// The C calls over collisions. Each returns 0, or document 01's refusal number; on a refusal nothing is written.
#![tactic(auto)]

ghost use Rattle.std.specs.Prelude.{◌≡◌, ◌≤◌, length};
ghost use Rattle.collision.specs.Collision.{met, ofusc_of, amc_of};
ghost use Rattle.capi_collisions.specs.Collision.{CollisionOut, collision_out};

use collision::Collisions;
use refusal::Refusal;

// Hands an answer over: 0, its marks as bytes and their count, or the refusal's number alone.
fn hand_over(answer: Result<Collisions, Refusal>, hits: &mut [u8; 48], count: &mut u32) -> u32
    requires { (length (met answer).hits ≡ 48) × ((met answer).count ≤ 48) }
    ensures { record { refusal = result; hits = hits.new; count = count.new } ≡ collision_out (met answer) hits.old count.old }
{
    match answer {
        Ok(collisions) => {
            let marks = collisions.hits;
            // A loop: `map` over the array makes the whole call take twice as long.
            let mut bytes = [0u8; 48];
            for k in 0..48 {
                bytes[k] = marks[k] as u8;
            }
            *hits = bytes;
            *count = collisions.count as u32;
            0
        }
        Err(refusal) => u32::from(refusal),
    }
}

#[unsafe(no_mangle)]
pub extern "C" fn bp_ofusc_collisions(
    size: u32,
    cell_a: u32,
    subchannel_a: u32,
    cell_b: u32,
    subchannel_b: u32,
    hits: &mut [u8; 48],
    count: &mut u32,
) -> u32
    ensures { record { refusal = result; hits = hits.new; count = count.new } ≡ collision_out (ofusc_of size cell_a subchannel_a cell_b subchannel_b) hits.old count.old }
{
    let answer = collision::ofusc(
        size as usize,
        cell_a as usize,
        subchannel_a as usize,
        cell_b as usize,
        subchannel_b as usize,
    );
    hand_over(answer, hits, count)
}

#[unsafe(no_mangle)]
pub extern "C" fn bp_amc_collisions(
    cell_a: u32,
    cell_b: u32,
    hits: &mut [u8; 48],
    count: &mut u32,
) -> u32
    ensures { record { refusal = result; hits = hits.new; count = count.new } ≡ collision_out (amc_of cell_a cell_b) hits.old count.old }
{
    let answer = collision::amc(cell_a as usize, cell_b as usize);
    hand_over(answer, hits, count)
}
