// Carriers counted from the centre: a carrier's signed number, and its column on a symbol's row.
#![tactic(auto)]

ghost use Rattle.std.specs.Prelude.{◌≡◌, true, ◌≤◌, ◌<◌};
ghost use Rattle.centre.specs.Centre.{from_dc, in_range, on_row};

// The number of the carrier in a column.
pub fn from_dc(size: usize, column: usize) -> i32
    requires { (size ≤ 65536) × (column < size) }
    ensures { result ≡ from_dc size column }
{
    column as i32 - (size / 2) as i32
}

// Is it a carrier's number, from -size/2 to size/2 - 1?
pub fn in_range(size: usize, carrier: i32) -> bool
    requires { size ≤ 65536 }
    ensures { result ≡ in_range size carrier }
{
    let half = (size / 2) as i32;
    if carrier < -half {
        return false;
    }
    carrier < half
}

// The column of a carrier.
pub fn column(size: usize, carrier: i32) -> usize
    requires { (size ≤ 65536) × (in_range size carrier ≡ true) }
    ensures { result ≡ on_row size carrier }
{
    (carrier + (size / 2) as i32) as usize
}
