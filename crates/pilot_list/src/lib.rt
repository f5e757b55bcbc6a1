// A symbol's pilots as a lent list of used numbers: whether it is accepted, and the data numbers, which run over what it
// leaves. Each is one pass over the whole list with no branch to guess, so that many entries are looked at at once.
#![tactic(auto)]

ghost use Rattle.std.specs.Prelude.{◌≡◌, true, ◌<◌, length};
ghost use Rattle.pilot_list.specs.List.{is_in, is_rising, is_pilot_list, used_of_data, data_of_used};

// Is each entry of a list of 166 larger than the one before?
fn is_rising(pilots: &[u32]) -> bool
    requires { length pilots.now ≡ 166 }
    ensures { result ≡ is_rising pilots.now }
{
    let mut falls = false;
    for i in 0..165 {
        falls |= pilots[i + 1] <= pilots[i];
    }
    !falls
}

// Are these 166 used numbers, each larger than the one before? (Then all are below 1702 where the last is.)
#[tactic(auto, using(crate::proofs::Entries::decided))]
pub fn is_pilot_list(pilots: &[u32]) -> bool
    ensures { result ≡ is_pilot_list pilots.now }
{
    if pilots.len() != 166 {
        return false;
    }
    if !is_rising(pilots) {
        return false;
    }
    pilots[165] < 1702
}

// Is a used number in the list?
pub fn is_pilot(pilots: &[u32], used: usize) -> bool
    requires { used < 65536 }
    ensures { result ≡ is_in pilots.now used }
{
    let number = used as u32;
    let mut found = false;
    for pilot in pilots {
        found |= *pilot == number;
    }
    found
}

// The used number of a data number. A pilot that has i before it is passed where it is at most d + i; those that are passed come
// first, so their count is what the data number is moved on by.
pub fn used_of_data(pilots: &[u32], d: usize) -> usize
    requires { (is_pilot_list pilots.now ≡ true) × (d < 1536) }
    ensures { result ≡ used_of_data pilots.now d }
{
    let mut at = d as u32;
    let mut passed = 0u32;
    for pilot in pilots {
        passed += (*pilot <= at) as u32;
        at += 1;
    }
    d + passed as usize
}

// The data number of a used number that is no pilot: the pilots below it are taken off.
pub fn data_of_used(pilots: &[u32], used: usize) -> usize
    requires { (is_pilot_list pilots.now ≡ true) × (used < 1702) }
    ensures { result ≡ data_of_used pilots.now used }
{
    let limit = used as u32;
    let mut below = 0u32;
    for pilot in pilots {
        below += (*pilot < limit) as u32;
    }
    used - below as usize
}
