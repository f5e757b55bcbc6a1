// A burst, a rectangle of subchannels by slots: the one at a position of a list, what it covers, whether it lies in its zone,
// and whether two runs of numbers have one in common.
#![tactic(auto)]

ghost use Rattle.std.specs.Prelude.{◌≡◌, ◌+◌, ◌*◌, ◌<◌, length};
ghost use Rattle.burst.specs.Burst.{burst_at, is_of, is_covering, is_within, is_inside, is_shared};

// A rectangle: the first subchannel and how many, the first slot and how many.
#[derive(Clone, Copy)]
pub struct Burst {
    pub subchannel: u32,
    pub subchannels: u32,
    pub slot: u32,
    pub slots: u32,
}

// The same by where it starts and where it ends: the first subchannel, the number after the last, and so for slots. Those of a
// burst that lies in its zone fit in 16 bits.
#[derive(Clone, Copy)]
pub struct Edges {
    pub start: u16,
    pub end: u16,
    pub slot_start: u16,
    pub slot_end: u16,
}

// The number after the last of a run of so many. 64 bits hold the sum of any two numbers of 32.
pub fn end_of(first: u32, many: u32) -> usize
    ensures { result ≡ first + many }
{
    first as usize + many as usize
}

// Is a number one of a run of so many, from the first on?
pub fn is_of(first: u32, many: u32, number: usize) -> bool
    ensures { result ≡ is_of first many number }
{
    (first as usize <= number) & (number < end_of(first, many))
}

// Has a run of so many numbers at least one, and are all below the limit?
fn is_within(limit: usize, first: u32, many: u32) -> bool
    ensures { result ≡ is_within limit first many }
{
    (0 < many) & (end_of(first, many) <= limit)
}

// Does a burst cover a subchannel in a slot?
pub fn is_covering(burst: Burst, slot: usize, subchannel: usize) -> bool
    ensures { result ≡ is_covering burst slot subchannel }
{
    is_of(burst.subchannel, burst.subchannels, subchannel) & is_of(burst.slot, burst.slots, slot)
}

// Is a burst not empty, and wholly in a zone, given the numbers after the zone's last subchannel and last slot?
pub fn is_inside(subchannel_end: usize, slot_end: usize, burst: Burst) -> bool
    ensures { result ≡ is_inside subchannel_end slot_end burst }
{
    is_within(subchannel_end, burst.subchannel, burst.subchannels)
        & is_within(slot_end, burst.slot, burst.slots)
}

// The burst at a position of the list.
pub fn burst_at(bursts: &[u32], i: usize) -> Burst
    requires { (i < 64) × (4 * i + 3 < length bursts.now) }
    ensures { result ≡ burst_at bursts.now i }
{
    Burst {
        subchannel: bursts[4 * i],
        subchannels: bursts[4 * i + 1],
        slot: bursts[4 * i + 2],
        slots: bursts[4 * i + 3],
    }
}

// Have two runs of numbers, each from its first to before its end and neither empty (18 comes before), one in common?
pub fn is_shared(first: u16, end: u16, other: u16, other_end: u16) -> bool
    ensures { result ≡ is_shared first end other other_end }
{
    (first < other_end) & (other < end)
}
