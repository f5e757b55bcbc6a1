// FUSC's rows: the columns of a symbol's data numbers by the symbol's pilots, which are lent, and those of a subchannel's points.
#![tactic(auto)]

ghost use Rattle.std.specs.Prelude.{◌≡◌, true, ◌+◌, ◌*◌, ◌%◌, ◌<◌};
ghost use Rattle.base.specs.Tabulate.{tabulate};
ghost use Rattle.base.specs.Model.{Turned};
ghost use Rattle.carriers.specs.Band.{fusc_band, carrier_of};
ghost use Rattle.pilot_list.specs.List.{is_pilot_list, used_of_data};
ghost use Rattle.fusc.specs.Map.{spot_of};
ghost use Rattle.fusc_rows.specs.Model.{Moves, Passed};

use fusc::{SEQUENCE, turn_number};

// The column of a used number.
#[tactic(auto, using(crate::proofs::Columns::column_lt))]
fn column(used: usize) -> u16
    requires { used < 1702 }
    ensures { result ≡ carrier_of fusc_band used }
{
    carriers::carrier(carriers::fusc_band(), used) as u16
}

// How many pilots more each data number is moved on by than the one before it: a pilot that has i before it moves the data
// numbers from its own used number less i on.
#[tactic(auto, using(pilot_list::proofs::Entries::accepted, crate::proofs::Columns::own_place))]
fn moves(pilots: &[u32]) -> [u16; 1537]
    requires { is_pilot_list pilots.now ≡ true }
    ensures { Moves pilots.now 166 result }
{
    let mut table = [0u16; 1537];
    for i in 0..166 {
        let d = pilots[i] as usize - i;
        table[d] += 1;
    }
    table
}

// The columns of all data numbers of a symbol: used numbers and pilots rise together, so each data number is moved on by what
// the one before it was, and by the pilots between the two.
#[tactic(auto, using(crate::proofs::Columns::none_before, crate::proofs::Columns::moved_on, crate::proofs::Columns::written))]
pub fn data_carriers(pilots: &[u32]) -> [u16; 1536]
    requires { is_pilot_list pilots.now ≡ true }
    ensures { result ≡ tabulate 1536 (λ d. carrier_of fusc_band (used_of_data pilots.now d)) }
{
    let table = moves(pilots);
    let mut row = [0u16; 1536];
    let mut passed = 0;
    for d in 0..1536 {
        passed += usize::from(table[d]);
        row[d] = column(d + passed);
    }
    row
}

// How many pilots data number d passes, where the first `from` are known to be passed.
#[tactic(auto, using(pilot_list::proofs::Entries::accepted, crate::proofs::Columns::passed_next, crate::proofs::Columns::passed_below, crate::proofs::Columns::passed_all))]
fn pass(pilots: &[u32], d: usize, from: usize) -> usize
    requires pilots_value { (is_pilot_list pilots.now ≡ true) × (d < 1536) }
    requires passed { Passed pilots.now d from }
    ensures { Passed pilots.now d result × (used_of_data pilots.now d ≡ d + result) }
{
    for j in from..166 {
        if d + j < pilots[j] as usize {
            return j;
        }
    }
    166
}

// The columns of a subchannel's points, by turn. Their data numbers rise, so each goes on up the list from where the one before
// it stood.
#[tactic(auto, using(crate::proofs::Turn::turns_none, crate::proofs::Turn::turn_lt, crate::proofs::Turn::turn_of, crate::proofs::Columns::written))]
pub fn carrier_row(cell: usize, subchannel: usize, pilots: &[u32]) -> [u16; 48]
    requires cell_bound { (cell < 32) × (subchannel < 32) }
    requires pilots_value { is_pilot_list pilots.now ≡ true }
    ensures { Turned (13 * subchannel % 48) (λ m. carrier_of fusc_band (spot_of pilots.now cell subchannel m).used) result }
{
    let sequence = SEQUENCE;
    let mut row = [0; 48];
    let mut j = 0;
    for n in 0..48 {
        let d = turn_number(&sequence, cell, subchannel, n);
        j = pass(pilots, d, j);
        row[n] = column(d + j);
    }
    row
}
