// The C calls that are never refused: the number that each returns is its answer.
#![tactic(auto)]

ghost use Rattle.std.specs.Prelude.{◌≡◌};
ghost use Rattle.lengths.specs.Length.{points_length, lit_points_length, grid_length};
ghost use Rattle.capi_numbers.specs.Version.{version};

#[unsafe(no_mangle)]
pub extern "C" fn bp_version() -> u32
    ensures { result ≡ version }
{
    50000
}

#[unsafe(no_mangle)]
pub extern "C" fn bp_points_len(mode: u32, size: u32) -> usize
    ensures { result ≡ points_length mode size }
{
    lengths::points_length(mode as usize, size as usize)
}

#[unsafe(no_mangle)]
pub extern "C" fn bp_lit_points_len(mode: u32, size: u32, mask: u32) -> usize
    ensures { result ≡ lit_points_length mode size mask }
{
    lengths::lit_points_length(mode as usize, size as usize, mask as usize)
}

#[unsafe(no_mangle)]
pub extern "C" fn bp_grid_len(mode: u32, size: u32) -> usize
    ensures { result ≡ grid_length mode size }
{
    lengths::grid_length(mode as usize, size as usize)
}
