// What refuses a request: the first of documents 01's and 02's questions that is answered no.
#![tactic(auto)]

ghost use Rattle.std.specs.Prelude.{◌≡◌, Err};
ghost use Rattle.base.specs.Answer.{accepted, ask};
ghost use Rattle.refusal.specs.Refusal.{number_of, answer_of};

use std::error::Error;
use std::fmt;

// The questions, in the order of their numbers, 1 to 20. Each is named by what it is about.
#[derive(Clone, Copy, Debug, PartialEq, Eq)]
pub enum Refusal {
    Mode,
    Size,
    Cell,
    Slot,
    Subchannel,
    Index,
    Carrier,
    Points,
    Grid,
    Cut,
    Form,
    Count,
    Slots,
    Order,
    Rest,
    Room,
    Mask,
    Burst,
    Overlap,
    Pilots,
}

// The number of a question.
impl From<Refusal> for u32 {
    ghost from_gives = { λ refusal number. number ≡ number_of refusal };

    fn from(refusal: Refusal) -> u32 {
        match refusal {
            Refusal::Mode => 1,
            Refusal::Size => 2,
            Refusal::Cell => 3,
            Refusal::Slot => 4,
            Refusal::Subchannel => 5,
            Refusal::Index => 6,
            Refusal::Carrier => 7,
            Refusal::Points => 8,
            Refusal::Grid => 9,
            Refusal::Cut => 10,
            Refusal::Form => 11,
            Refusal::Count => 12,
            Refusal::Slots => 13,
            Refusal::Order => 14,
            Refusal::Rest => 15,
            Refusal::Room => 16,
            Refusal::Mask => 17,
            Refusal::Burst => 18,
            Refusal::Overlap => 19,
            Refusal::Pilots => 20,
        }
    }
}

impl fmt::Display for Refusal {
    fn fmt<W: fmt::Write>(&self, f: &mut fmt::Formatter<W>) -> fmt::Result {
        write!(f, "refused {}", u32::from(*self))
    }
}

impl Error for Refusal {}

// Puts a question: goes on where it is answered yes.
pub fn ask(ok: bool, no: Refusal) -> Result<(), Refusal>
    ensures { answer_of result ≡ ask ok (number_of no) (accepted tt) }
{
    if ok { Ok(()) } else { refused(no) }
}

// A no. It is a call, and a cold one, so that what follows a question is compiled as what mostly comes next.
#[cold]
#[inline(never)]
fn refused(no: Refusal) -> Result<(), Refusal>
    ensures { result ≡ Err no }
{
    Err(no)
}
