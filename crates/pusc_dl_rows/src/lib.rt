// All points of a subchannel of PUSC downlink at once: where they lie, as a row of numbers.
#![tactic(auto)]

ghost use Rattle.std.specs.Prelude.{◌≡◌, ◌+◌, ◌*◌, ◌/◌, ◌%◌, ◌<◌};
ghost use Rattle.base.specs.Steps.{entry};
ghost use Rattle.base.specs.Tabulate.{tabulate};
ghost use Rattle.base.specs.Model.{Starts};
ghost use Rattle.carriers.specs.Model.{spot_number};
ghost use Rattle.clusters.specs.Cluster.{cluster_place};
ghost use Rattle.clusters.specs.Group.{group_size};
ghost use Rattle.clusters.specs.Model.{turned_base};
ghost use Rattle.pusc_dl.specs.Map.{spot_of};
ghost use Rattle.pusc_dl_rows.specs.Model.{group_cluster, group_spot};

use base::reduce;
use clusters::{
    BASE_8, BASE_12, Logical, RENUMBERING_INVERSE, SUBCHANNEL_STARTS, cluster_place, cluster_start,
    group_in, group_size, subchannel_start, turned_base, unrenumber,
};

// The first used number of each cluster of a group, by its place in the group.
fn group_clusters(cell: usize, g: usize) -> [u16; 24]
    requires { (cell < 32) × (g < 6) }
    ensures { Starts (2 * group_size g) (group_cluster cell g) result }
{
    let inverse = RENUMBERING_INVERSE;
    let start = cluster_start(g);
    let count = 2 * group_size(g);
    let mut clusters = [0; 24];
    for i in 0..count {
        let physical = unrenumber(&inverse, cell, Logical(start + i));
        clusters[i] = (physical.0 * 14) as u16;
    }
    clusters
}

// The bases of subchannel s, counted in its group, turned by the cell, one for each n.
fn group_bases(g: usize, cell: usize, s: usize) -> [u16; 24]
    requires { s < group_size g }
    ensures { result ≡ tabulate 24 (λ n. turned_base g cell (s + n)) }
{
    let twelve = BASE_12;
    let eight = BASE_8;
    let mut bases = [0; 24];
    for n in 0..24 {
        bases[n] = turned_base(&twelve, &eight, g, cell, s + n);
    }
    bases
}

// The spots of a group data number in the two symbols of a slot, as numbers.
#[derive(Clone, Copy)]
struct SpotNumbers {
    first: u16,
    second: u16,
}

// The spots of data number d of the group that has these clusters.
fn spot_numbers(d: usize, clusters: &[u16; 24]) -> SpotNumbers
    requires { (d / 12 < 24) × (entry clusters.now (d / 12) < 1680) }
    ensures { (result.first ≡ entry clusters.now (d / 12) + cluster_place 0 (d % 12)) × (result.second ≡ 2048 + (entry clusters.now (d / 12) + cluster_place 1 (d % 12))) }
{
    let cluster = usize::from(clusters[d / 12]);
    let r = d % 12;
    SpotNumbers {
        first: (cluster + cluster_place(0, r)) as u16,
        second: (2048 + (cluster + cluster_place(1, r))) as u16,
    }
}

// The spots of subchannel s, counted in its group, as numbers by index.
fn group_spots(cell: usize, g: usize, s: usize) -> [u16; 48]
    requires { (cell < 32) × (g < 6) × (s < group_size g) }
    ensures { result ≡ tabulate 48 (group_spot cell g s) }
{
    let clusters = group_clusters(cell, g);
    let bases = group_bases(g, cell, s);
    let size = group_size(g);
    let turn = 13 * s % 24;
    let mut row = [0; 48];
    for k in 0..24 {
        let n = reduce(24, k + turn);
        let both = spot_numbers(n * size + usize::from(bases[n]), &clusters);
        row[k] = both.first;
        row[k + 24] = both.second;
    }
    row
}

// The spots of a subchannel as numbers, by index.
pub fn spots(cell: usize, subchannel: usize) -> [u16; 48]
    requires { (cell < 32) × (subchannel < 60) }
    ensures { result ≡ tabulate 48 (λ index. spot_number (spot_of cell subchannel index)) }
{
    let g = group_in(SUBCHANNEL_STARTS, subchannel);
    group_spots(cell, g, subchannel - subchannel_start(g))
}
