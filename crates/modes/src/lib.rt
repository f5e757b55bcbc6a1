// Modes and their ranges: the columns of the table, and questions 1, 2, 3 and 20.
#![tactic(auto)]

ghost use Rattle.std.specs.Prelude.{◌≡◌, ◌==◌, false, ◌*◌, ◌/◌, ◌%◌, ◌<◌, ◌≤◌};
ghost use Rattle.refusal.specs.Refusal.{refusal_in};
ghost use Rattle.modes.specs.Setup.{alone, lent};
ghost use Rattle.modes.specs.Named.{named};
ghost use Rattle.modes.specs.Mode.{is_amc, shape_of, width as WidthOf, cells as Cells, subchannels as Subchannels, symbols as Symbols, band as BandOf};
ghost use Rattle.modes.specs.Question.{is_four_sizes, is_size, is_lent};
ghost use Rattle.modes.specs.Model.{setup_refusal, Ranged};

use amc::Shape;
use carriers::Band;
use refusal::{Refusal, ask};

// What a zone fixes: mode, FFT size and cell.
#[derive(Clone, Copy)]
pub struct Setup {
    pub mode: usize,
    pub size: usize,
    pub cell: usize,
}

// The modes by name; AMC's four are one, with the shape of a slot.
#[derive(Clone, Copy)]
pub enum Mode {
    PuscDl,
    PuscUl,
    Ofusc,
    Amc(Shape),
    Fusc,
}

// The mode of a number, or the refusal of question 1.
impl TryFrom<usize> for Mode {
    type Error = Refusal;

    ghost try_from_gives = { λ number result. result ≡ named number };

    fn try_from(number: usize) -> Result<Mode, Refusal> {
        match number {
            0 => Ok(Mode::PuscDl),
            1 => Ok(Mode::PuscUl),
            2 => Ok(Mode::Ofusc),
            3..=6 => Ok(Mode::Amc(shape(number))),
            7 => Ok(Mode::Fusc),
            _ => Err(Refusal::Mode),
        }
    }
}

// The shape of AMC's slots; no other mode has one.
pub fn shape(mode: usize) -> Shape
    ensures { result ≡ shape_of mode }
{
    match mode {
        3 => Shape {
            bins: 6,
            symbols: 1,
        },
        4 => Shape {
            bins: 2,
            symbols: 3,
        },
        5 => Shape {
            bins: 3,
            symbols: 2,
        },
        6 => Shape {
            bins: 1,
            symbols: 6,
        },
        _ => Shape {
            bins: 0,
            symbols: 0,
        },
    }
}

// Is a mode one of AMC's?
pub fn is_amc(mode: usize) -> bool
    ensures { result ≡ is_amc mode }
{
    (3..7).contains(&mode)
}

// Does a mode take a mask of major groups? PUSC downlink alone does.
pub fn takes_mask(mode: usize) -> bool
    ensures { result ≡ (mode == 0) }
{
    mode == 0
}

// Does a mode take a list of pilots? FUSC alone does.
pub fn takes_list(mode: usize) -> bool
    ensures { result ≡ (mode == 7) }
{
    mode == 7
}

// N of the modes over bins.
pub fn width(setup: Setup) -> usize
    ensures { result ≡ WidthOf (alone setup) }
{
    setup.size / 64
}

fn cells(setup: Setup) -> usize
    requires { setup.size ≤ 2048 }
    ensures { result ≡ Cells (alone setup) }
{
    match Mode::try_from(setup.mode) {
        Ok(Mode::PuscDl) => 32,
        Ok(Mode::PuscUl) => 70,
        Ok(Mode::Ofusc) => width(setup) * width(setup),
        Ok(Mode::Amc(_)) => 2352,
        Ok(Mode::Fusc) => 32,
        Err(_) => 0,
    }
}

pub fn subchannels(setup: Setup) -> usize
    ensures { result ≡ Subchannels (alone setup) }
{
    match Mode::try_from(setup.mode) {
        Ok(Mode::PuscDl) => 60,
        Ok(Mode::PuscUl) => 70,
        Ok(Mode::Ofusc) => width(setup),
        Ok(Mode::Amc(shape)) => width(setup) * shape.symbols,
        Ok(Mode::Fusc) => 32,
        Err(_) => 0,
    }
}

// Symbols a slot.
pub fn symbols(setup: Setup) -> usize
    ensures { result ≡ Symbols (alone setup) }
{
    match Mode::try_from(setup.mode) {
        Ok(Mode::PuscDl) => 2,
        Ok(Mode::PuscUl) => 3,
        Ok(Mode::Ofusc) => 1,
        Ok(Mode::Amc(shape)) => shape.symbols,
        Ok(Mode::Fusc) => 1,
        Err(_) => 0,
    }
}

// The slot of a zone's symbol, by a constant for each number of symbols.
pub fn slot_of(setup: Setup, symbol: usize) -> usize
    requires { Ranged (alone setup) }
    ensures { result ≡ symbol / Symbols (alone setup) }
{
    match symbols(setup) {
        1 => symbol,
        2 => symbol / 2,
        3 => symbol / 3,
        _ => symbol / 6,
    }
}

// The offset of a zone's symbol in its slot.
pub fn offset_of(setup: Setup, symbol: usize) -> usize
    requires { Ranged (alone setup) }
    ensures { result ≡ symbol % Symbols (alone setup) }
{
    symbol - slot_of(setup, symbol) * symbols(setup)
}

pub fn band(setup: Setup) -> Band
    requires { Ranged (alone setup) }
    ensures { result ≡ BandOf (alone setup) }
{
    match Mode::try_from(setup.mode) {
        Ok(Mode::PuscDl) => carriers::pusc_band(),
        Ok(Mode::PuscUl) => carriers::pusc_band(),
        Ok(Mode::Ofusc) => carriers::bin_band(width(setup)),
        Ok(Mode::Amc(_)) => carriers::bin_band(width(setup)),
        Ok(Mode::Fusc) => carriers::fusc_band(),
        Err(_) => Band {
            left: 0,
            right: 0,
            dc: 0,
            used: 0,
            half: 0,
        },
    }
}

// Is it one of the four sizes of the modes over bins?
pub fn is_four_sizes(size: usize) -> bool
    ensures { result ≡ is_four_sizes size }
{
    match size {
        256 => true,
        512 => true,
        1024 => true,
        2048 => true,
        _ => false,
    }
}

fn is_size(setup: Setup) -> bool
    ensures { result ≡ is_size (alone setup) }
{
    match Mode::try_from(setup.mode) {
        Ok(Mode::PuscDl) => setup.size == 2048,
        Ok(Mode::PuscUl) => setup.size == 2048,
        Ok(Mode::Ofusc) => is_four_sizes(setup.size),
        Ok(Mode::Amc(_)) => is_four_sizes(setup.size),
        Ok(Mode::Fusc) => setup.size == 2048,
        Err(_) => false,
    }
}

// Questions 1, 2 and 3.
#[inline(always)]
pub fn ask_setup(setup: Setup) -> Result<(), Refusal>
    ensures { refusal_in result ≡ setup_refusal (alone setup) }
{
    ask(setup.mode < 8, Refusal::Mode)?;
    ask(is_size(setup), Refusal::Size)?;
    ask(setup.cell < cells(setup), Refusal::Cell)
}

// Is the pilot list that is lent the mode's?
pub fn is_lent(setup: Setup, pilots: &[u32]) -> bool
    ensures { result ≡ is_lent (lent setup pilots.now) }
{
    if takes_list(setup.mode) {
        return pilot_list::is_pilot_list(pilots);
    }
    pilots.is_empty()
}
