// PUSC downlink: where the points of a subchannel lie, by the inner permutation of its major group, and the reverse.
#![tactic(auto)]

ghost use Rattle.std.specs.Prelude.{◌≡◌, false, ◌*◌, ◌<◌};
ghost use Rattle.clusters.specs.Cluster.{is_cluster_pilot};
ghost use Rattle.clusters.specs.Group.{group_size, of_size};
ghost use Rattle.clusters.specs.Table.{base12_inverse, base8_inverse};
ghost use Rattle.pusc_dl.specs.Inner.{group_data, group_subchannel, group_index};
ghost use Rattle.pusc_dl.specs.Map.{group_used, used_group, used_data, spot_of, address_of};

use base::{rotate, unrotate};
use carriers::{Address, Spot};
use clusters::{
    BASE_8, BASE_8_INVERSE, BASE_12, BASE_12_INVERSE, CLUSTER_STARTS, Logical, Physical,
    RENUMBERING, RENUMBERING_INVERSE, SUBCHANNEL_STARTS, cluster_data, cluster_place,
    cluster_start, group_in, group_size, renumber, subchannel_start, turned_base, unrenumber,
};

// The group data number of index k, below 24, of subchannel s, counted in the group.
fn group_data(g: usize, cell: usize, s: usize, k: usize) -> usize
    requires { (cell < 32) × (s < group_size g) × (k < 24) }
    ensures { (result ≡ group_data (group_size g) cell s k) × (result < 24 * group_size g) }
{
    let size = group_size(g);
    let n = rotate(24, 13 * s, k);
    n * size + usize::from(turned_base(&BASE_12, &BASE_8, g, cell, s + n))
}

// The reverse, in a group of SIZE subchannels, by the inverse of its base: the subchannel, counted in the group, and the index,
// below 24, of a group data number. The size is a constant, since it is divided by.
fn address_by<const SIZE: usize>(inverse: &[u8; SIZE], cell: usize, d: usize) -> Address
    requires { (0 < SIZE) × (SIZE < 13) × (d < 24 * SIZE) × (inverse.now ≡ of_size SIZE base12_inverse base8_inverse) }
    ensures subchannel_value { (result.subchannel ≡ group_subchannel SIZE cell d) × (result.index ≡ group_index SIZE cell d) }
    ensures subchannel_bound { (result.subchannel < SIZE) × (result.index < 24) }
{
    let n = d / SIZE;
    let place = unrotate(SIZE, cell, d % SIZE);
    let s = unrotate(SIZE, n, usize::from(inverse[place]));
    Address {
        subchannel: s,
        index: unrotate(24, 13 * s, n),
    }
}

fn group_address(g: usize, cell: usize, d: usize) -> Address
    requires { d < 24 * group_size g }
    ensures subchannel_value { (result.subchannel ≡ group_subchannel (group_size g) cell d) × (result.index ≡ group_index (group_size g) cell d) }
    ensures subchannel_bound { (result.subchannel < group_size g) × (result.index < 24) }
{
    if group_size(g) == 12 {
        address_by(&BASE_12_INVERSE, cell, d)
    } else {
        address_by(&BASE_8_INVERSE, cell, d)
    }
}

// The used number of group data number d.
fn group_used(cell: usize, symbol: usize, g: usize, d: usize) -> usize
    requires { (cell < 32) × (g < 6) × (d < 24 * group_size g) }
    ensures { result ≡ group_used cell symbol g d }
{
    let logical = Logical(cluster_start(g) + d / 12);
    let physical = unrenumber(&RENUMBERING_INVERSE, cell, logical);
    physical.0 * 14 + cluster_place(symbol, d % 12)
}

// Where point `index` of a subchannel lies.
pub fn spot(cell: usize, subchannel: usize, index: usize) -> Spot
    requires { (cell < 32) × (subchannel < 60) × (index < 48) }
    ensures { result ≡ spot_of cell subchannel index }
{
    let g = group_in(SUBCHANNEL_STARTS, subchannel);
    let s = subchannel - subchannel_start(g);
    let d = group_data(g, cell, s, index % 24);
    let offset = index / 24;
    Spot {
        offset,
        used: group_used(cell, offset, g, d),
    }
}

// A data number of a group.
#[derive(Clone, Copy)]
struct Datum {
    group: usize,
    number: usize,
}

// The reverse: the group data number of a used number that is no pilot, by its cluster's place in the group.
fn used_data(cell: usize, symbol: usize, used: usize) -> Datum
    requires { (cell < 32) × (symbol < 2) × (used < 1680) × (is_cluster_pilot symbol used ≡ false) }
    ensures group_value { (result.group ≡ used_group cell used) × (result.number ≡ used_data cell symbol used) }
    ensures group_bound { (result.group < 6) × (result.number < 24 * group_size result.group) }
{
    let logical = renumber(&RENUMBERING, cell, Physical(used / 14));
    let l = logical.0;
    let g = group_in(CLUSTER_STARTS, l);
    Datum {
        group: g,
        number: (l - cluster_start(g)) * 12 + cluster_data(symbol, used % 14),
    }
}

// The reverse: the point that lies on a carrier that is no pilot.
pub fn address(cell: usize, offset: usize, used: usize) -> Address
    requires { (cell < 32) × (offset < 2) × (used < 1680) × (is_cluster_pilot offset used ≡ false) }
    ensures { result ≡ address_of cell offset used }
{
    let d = used_data(cell, offset, used);
    let g = d.group;
    let a = group_address(g, cell, d.number);
    Address {
        subchannel: subchannel_start(g) + a.subchannel,
        index: offset * 24 + a.index,
    }
}
