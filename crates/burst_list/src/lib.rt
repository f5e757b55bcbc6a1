// A list of bursts: the questions that are put to it, its length first and then each burst in turn.
#![tactic(auto)]

ghost use Rattle.std.specs.Prelude.{◌≡◌, ◌<◌};
ghost use Rattle.base.specs.First.{is_none};
ghost use Rattle.refusal.specs.Refusal.{refusal_in};
ghost use Rattle.burst.specs.Model.{edges_overlap};
ghost use Rattle.burst_list.specs.Model.{list_refusal, edges_at};

use burst::Edges;
use refusal::{Refusal, ask};

// Does a burst overlap none of those before a position in the columns? Each of them is asked, so that there is no branch to
// guess, and many can be asked at once. A burst's subchannels are asked before its slots are read: the compiled loop reads in
// this order, and is faster than one that reads all four edges first.
fn is_apart(
    starts: &[u16; 64],
    ends: &[u16; 64],
    slot_starts: &[u16; 64],
    slot_ends: &[u16; 64],
    i: usize,
    edges: Edges,
) -> bool
    requires { i < 64 }
    ensures { result ≡ is_none (λ j. edges_overlap (edges_at starts.now ends.now slot_starts.now slot_ends.now j) edges) i }
{
    let mut overlaps = false;
    for j in 0..i {
        overlaps = overlaps
            | burst::is_shared(starts[j], ends[j], edges.start, edges.end)
                & burst::is_shared(
                    slot_starts[j],
                    slot_ends[j],
                    edges.slot_start,
                    edges.slot_end,
                );
    }
    !overlaps
}

// The questions put to a list, given the numbers after the zone's last subchannel and last slot.
// The edges of the bursts so far stand in columns; a burst's are kept before it is asked, so that the next one finds them
// written. Each column is an array of its own, so that it is cleared without a call.
#[inline(always)]
pub fn ask_list(subchannel_end: usize, slot_end: usize, bursts: &[u32]) -> Result<(), Refusal>
    requires { (subchannel_end < 65536) × (slot_end < 65536) }
    ensures { refusal_in result ≡ list_refusal subchannel_end slot_end bursts.now }
{
    let numbers = bursts.len();
    ask((numbers % 4 == 0) & (numbers <= 256), Refusal::Burst)?;
    let mut starts = [0u16; 64];
    let mut ends = [0u16; 64];
    let mut slot_starts = [0u16; 64];
    let mut slot_ends = [0u16; 64];
    for i in 0..numbers / 4 {
        let burst = burst::burst_at(bursts, i);
        ask(
            burst::is_inside(subchannel_end, slot_end, burst),
            Refusal::Burst,
        )?;
        let edges = Edges {
            start: burst.subchannel as u16,
            end: burst::end_of(burst.subchannel, burst.subchannels) as u16,
            slot_start: burst.slot as u16,
            slot_end: burst::end_of(burst.slot, burst.slots) as u16,
        };
        starts[i] = edges.start;
        ends[i] = edges.end;
        slot_starts[i] = edges.slot_start;
        slot_ends[i] = edges.slot_end;
        ask(
            is_apart(&starts, &ends, &slot_starts, &slot_ends, i, edges),
            Refusal::Overlap,
        )?;
    }
    Ok(())
}
