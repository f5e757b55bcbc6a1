// What a mask of major groups lights: subchannels, used numbers and clusters of PUSC downlink.
#![tactic(auto)]

ghost use Rattle.std.specs.Prelude.{◌≡◌, ◌%◌, ◌^◌, ◌<◌, ◌≤◌, ltb};
ghost use Rattle.base.specs.Choice.{pick};
ghost use Rattle.base.specs.Steps.{entry};
ghost use Rattle.base.specs.Tabulate.{tabulate};
ghost use Rattle.base.specs.Rank.{rank};
ghost use Rattle.clusters.specs.Group.{cluster_starts, subchannel_starts, group_in};
ghost use Rattle.pusc_dl.specs.Map.{used_group};
ghost use Rattle.pusc_dl_lit.specs.Lit.{has_group};
ghost use Rattle.pusc_dl_lit.specs.Model.{group_bit, cluster_lit};

use clusters::{
    CLUSTER_STARTS, Logical, Physical, RENUMBERING, SUBCHANNEL_STARTS, group_in, renumber,
};

// Whether a mask has a group.
fn has_group(mask: usize, g: usize) -> bool
    requires { g < 6 }
    ensures { result ≡ has_group mask g }
{
    (mask >> g) % 2 == 1
}

// Whether a mask has a subchannel's group.
pub fn is_subchannel_lit(mask: usize, subchannel: usize) -> bool
    ensures { result ≡ has_group mask (group_in subchannel_starts subchannel) }
{
    has_group(mask, group_in(SUBCHANNEL_STARTS, subchannel))
}

// Whether it has the group of a used number's cluster.
pub fn is_used_lit(cell: usize, mask: usize, used: usize) -> bool
    requires { (cell < 32) × (used < 1680) }
    ensures { result ≡ has_group mask (used_group cell used) }
{
    let logical = renumber(&RENUMBERING, cell, Physical(used / 14));
    has_group(mask, group_in(CLUSTER_STARTS, logical.0))
}

// How many subchannels a mask lights: 12 for each even group, 8 for each odd one.
pub fn lit_subchannels(mask: usize) -> usize
    requires { mask < 64 }
    ensures { result ≡ rank (λ s. has_group mask (group_in subchannel_starts s)) 60 }
{
    let even = mask % 2 + mask / 4 % 2 + mask / 16 % 2;
    let odd = mask / 2 % 2 + mask / 8 % 2 + mask / 32 % 2;
    12 * even + 8 * odd
}

// x from a bound on, and 0 below it.
fn past(bound: usize, n: usize, x: u8) -> u8
    ensures value { result ≡ pick (ltb n bound) 0 x }
    ensures upper_bound { result ≤ x }
{
    if n < bound { 0 } else { x }
}

// The bit of a logical cluster's group, without a branch: 1 and the bits of the groups below sum up to it.
fn group_bit(logical: Logical) -> u8
    requires { logical.0 < 120 }
    ensures { result ≡ 2 ^ group_in cluster_starts logical.0 }
{
    let starts = CLUSTER_STARTS;
    let l = logical.0;
    1 + past(starts[1], l, 1)
        + past(starts[2], l, 2)
        + past(starts[3], l, 4)
        + past(starts[4], l, 8)
        + past(starts[5], l, 16)
}

// The bits of the groups of the physical clusters in cell 0. Nothing here depends on a call, so the compiler works it all out.
fn group_bits() -> [u8; 120]
    ensures { result ≡ tabulate 120 group_bit }
{
    let table = RENUMBERING;
    let mut bits = [0; 120];
    for p in 0..120 {
        bits[p] = group_bit(renumber(&table, 0, Physical(p)));
    }
    bits
}

// A row twice over, so that a sum of two places needs no reduction.
fn twice(once: &[u8; 120]) -> [u8; 240]
    ensures { result ≡ tabulate 240 (λ j. entry once.now (j % 120)) }
{
    let mut row = [0; 240];
    row[..120].copy_from_slice(once);
    row[120..].copy_from_slice(once);
    row
}

// Which physical clusters a mask lights, 1 for each that it does: cluster p of a cell has the logical number of cluster
// (p + 13·cell) mod 120 of cell 0.
pub fn lit_clusters(cell: usize, mask: usize) -> [u8; 120]
    requires { (cell < 32) × (mask < 64) }
    ensures { result ≡ tabulate 120 (cluster_lit cell mask) }
{
    let once = group_bits();
    let bits = twice(&once);
    let own = mask as u8;
    let turn = 13 * cell % 120;
    let mut lit = [0; 120];
    for p in 0..120 {
        lit[p] = (own & bits[p + turn] != 0) as u8;
    }
    lit
}
