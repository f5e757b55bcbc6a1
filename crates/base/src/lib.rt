// The steps that the permutations are made of.
#![tactic(auto)]

ghost use Rattle.std.specs.Prelude.{◌≡◌, ℕ, ◌+◌, ◌-◌, ◌%◌, ◌≤◌, ◌<◌, ltb};
ghost use Rattle.std.specs.Ordering.{partial_lt};
ghost use Rattle.base.specs.Choice.{is_up_to};
ghost use Rattle.base.specs.Whole.{in_order};
ghost use Rattle.base.specs.Steps.{rotate as Rotate, unrotate as Unrotate, skip as Skip, unskip as Unskip};

use std::ops::Sub;

// A type of numbers from 0 on, which are compared and subtracted as numbers are.
pub trait Whole: Copy + PartialOrd + Sub<Output = Self> {
    // The number that a value is.
    ghost number: { Self → ℕ };

    ghost order: { (a b : Self) → partial_lt Self.partial_cmp a b ≡ ltb (number a) (number b) };

    ghost may_take: { (a b : Self) → number b ≤ number a → Self.can_sub a b };

    ghost taken: { (a b r : Self) → Self.sub_gives a b r → number r ≡ number a - number b };
}

impl Whole for u16 {
    ghost number = { λ x. x };

    ghost order = { in_order };

    ghost may_take = { λ a b h. h };

    ghost taken = { λ a b r e. e };
}

impl Whole for usize {
    ghost number = { λ x. x };

    ghost order = { in_order };

    ghost may_take = { λ a b h. h };

    ghost taken = { λ a b r e. e };
}

// x mod n of a number below 2n, without a division.
pub fn reduce<T: Whole>(n: T, x: T) -> T
    requires { T.number x < T.number n + T.number n }
    ensures { (T.number result ≡ T.number x % T.number n) × (T.number result < T.number n) }
{
    if x < n { x } else { x - n }
}

// x moved on, modulo n.
pub fn rotate(n: usize, by: usize, x: usize) -> usize
    requires { (0 < n) × (by < 65536) × (x < 65536) }
    ensures { (result ≡ Rotate n by x) × (result < n) }
{
    (x + by) % n
}

// y moved back, modulo n.
pub fn unrotate(n: usize, by: usize, y: usize) -> usize
    requires { (0 < n) × (n < 65536) × (y < 65536) }
    ensures { (result ≡ Unrotate n by y) × (result < n) }
{
    (y + (n - by % n)) % n
}

// The place of the number r when the place p is left out.
pub fn skip(p: usize, r: usize) -> usize
    requires { r < 65536 }
    ensures { (result ≡ Skip p r) × (result ≤ r + 1) }
{
    if r < p { r } else { r + 1 }
}

// The number of a place other than p.
pub fn unskip(p: usize, place: usize) -> usize
    ensures { (result ≡ Unskip p place) × (result ≤ place) }
{
    if place <= p { place } else { place - 1 }
}

// Is a number one of 1, 2, .., most?
pub fn is_up_to(most: usize, number: usize) -> bool
    ensures { result ≡ is_up_to most number }
{
    number != 0 && number <= most
}
