// Collisions: in optional FUSC the groups in which one subchannel of a cell and one of a second cell have the same carrier, in
// AMC the indices that two cells put on the same carrier of the same symbol, in every subchannel alike.
#![tactic(auto)]

ghost use Rattle.std.specs.Prelude.{◌≡◌, ℕ, Bool, ◌*◌, ◌<◌, Ok};
ghost use Rattle.base.specs.Answer.{accepted};
ghost use Rattle.collision.specs.Collision.{ofusc_hit, amc_hit, answer_of, met, ofusc_of, amc_of};
ghost use Rattle.collision.specs.Model.{Decides};

use ofusc::Width;
use refusal::{Refusal, ask};

// A mark for each group or index, set where the two meet; how many are set.
#[derive(Clone, Copy)]
pub struct Collisions {
    pub hits: [bool; 48],
    pub count: usize,
}

// One pass over the 48 groups or indices: a mark where the test says that the two meet.
fn marked<F: Fn(usize) -> bool>(meet: F) -> Collisions
    requires { (k : ℕ) → k < 48 → F.pre meet k }
    ensures { (hit : ℕ → Bool) → Decides (F.post meet) hit → met (Ok result) ≡ answer_of (accepted hit) }
{
    let mut hits = [false; 48];
    let mut count = 0;
    for k in 0..48 {
        let hit = meet(k);
        hits[k] = hit;
        count += hit as usize;
    }
    Collisions {
        hits: hits,
        count: count,
    }
}

// Both subchannels are on one carrier of a group where their elements are the same.
fn ofusc_hits(width: Width, cell_a: usize, a: usize, cell_b: usize, b: usize) -> Collisions
    requires cell_a_bound { (cell_a < width.n * width.n) × (cell_b < width.n * width.n) }
    requires a_lt_n { (a < width.n) × (b < width.n) }
    ensures { met (Ok result) ≡ answer_of (accepted (ofusc_hit (64 * width.n) cell_a a cell_b b)) }
{
    let numbers_a = ofusc_rows::table(width, cell_a);
    let numbers_b = ofusc_rows::table(width, cell_b);
    let s = a as u16;
    let t = b as u16;
    marked(
        |k|
            requires { k < 48 }
        { numbers_a[k] ^ s == numbers_b[k] ^ t },
    )
}

// Both cells give an index the same place.
fn amc_hits(cell_a: usize, cell_b: usize) -> Collisions
    requires { (cell_a < 2352) × (cell_b < 2352) }
    ensures { met (Ok result) ≡ answer_of (accepted (amc_hit cell_a cell_b)) }
{
    let places_a = amc_rows::places(cell_a);
    let places_b = amc_rows::places(cell_b);
    marked(
        |j|
            requires { j < 48 }
        { places_a[(j + cell_a % 48) % 48] == places_b[(j + cell_b % 48) % 48] },
    )
}

// The groups in which subchannel_a of cell_a and subchannel_b of cell_b are on one carrier, or the
// first refusal of 2, 3, 3, 5, 5.
pub fn ofusc(
    size: usize,
    cell_a: usize,
    subchannel_a: usize,
    cell_b: usize,
    subchannel_b: usize,
) -> Result<Collisions, Refusal>
    ensures { met result ≡ ofusc_of size cell_a subchannel_a cell_b subchannel_b }
{
    ask(modes::is_four_sizes(size), Refusal::Size)?;
    let n = size / 64;
    ask(cell_a < n * n, Refusal::Cell)?;
    ask(cell_b < n * n, Refusal::Cell)?;
    ask(subchannel_a < n, Refusal::Subchannel)?;
    ask(subchannel_b < n, Refusal::Subchannel)?;
    let width = Width { n: n };
    Ok(ofusc_hits(width, cell_a, subchannel_a, cell_b, subchannel_b))
}

// The indices that both cells put on one place of a subchannel, or refusal 3.
pub fn amc(cell_a: usize, cell_b: usize) -> Result<Collisions, Refusal>
    ensures { met result ≡ amc_of cell_a cell_b }
{
    ask(cell_a < 2352, Refusal::Cell)?;
    ask(cell_b < 2352, Refusal::Cell)?;
    Ok(amc_hits(cell_a, cell_b))
}

// The marks that an answer says, and their count: none where it is refused.
pub fn said(answer: Result<Collisions, Refusal>) -> Collisions
    ensures { (result.hits ≡ (met answer).hits) × (result.count ≡ (met answer).count) }
{
    match answer {
        Ok(collisions) => collisions,
        Err(_) => Collisions {
            hits: [false; 48],
            count: 0,
        },
    }
}
