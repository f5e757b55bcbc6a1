// What the C calls of several crates share.
#![tactic(auto)]

ghost use Rattle.std.specs.Prelude.{◌≡◌};
ghost use Rattle.modes.specs.declared.Setup.{Setup};
ghost use Rattle.refusal.specs.Refusal.{refusal_in};

use modes::Setup;
use refusal::Refusal;

// A setup from its numbers in C.
pub fn setup(mode: u32, size: u32, cell: u32) -> Setup
    ensures { result ≡ record { mode = mode; size = size; cell = cell } }
{
    Setup {
        mode: mode as usize,
        size: size as usize,
        cell: cell as usize,
    }
}

// What C is told of a call that answers no value: 0, or the refusal's number.
pub fn number(answer: Result<(), Refusal>) -> u32
    ensures { result ≡ refusal_in answer }
{
    match answer {
        Ok(()) => 0,
        Err(refusal) => u32::from(refusal),
    }
}
