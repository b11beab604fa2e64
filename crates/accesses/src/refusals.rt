// Which accesses are refused: a test for each line of the table.
ghost use Rattle.std.specs.Prelude.{◌≡◌};
ghost use Rattle.model.specs.Bus.{wrong_width, data_too_wide, leads_nowhere, allowed};

use bits::pick;
use model::Register;

// 21: the width is not 1, 2 or 4.
pub fn wrong_width(width: u32) -> bool
    ensures { result ≡ wrong_width width }
{
    !((width == 1) | (width == 2) | (width == 4))
}

// 22: written data does not fit the width.
pub fn data_too_wide(width: u32, written: u64) -> bool
    ensures { result ≡ data_too_wide width written }
{
    let limit = pick(width == 1, 0x100, pick(width == 2, 0x10000, 0x100000000));
    !(written < limit)
}

// 23: the port lies in no block.
#[tactic(auto, unfolding(model::specs::Bus::leads_nowhere))]
pub fn leads_nowhere(r: Register) -> bool
    ensures { result ≡ leads_nowhere r }
{
    matches!(r, Register::Nowhere)
}

// 24 is where this is false: one byte, a PM1 register also whole, the timer only whole.
#[tactic(auto, unfolding(model::specs::Bus::allowed))]
pub fn allowed(r: Register, width: u32, offset: u64) -> bool
    ensures { result ≡ allowed r width offset }
{
    match r {
        Register::SmiCmd => width == 1,
        Register::Pm1Evt(_) => (width == 1) | ((width == 2) & (offset % 2 == 0)),
        Register::Pm1Cnt(_) => (width == 1) | ((width == 2) & (offset % 2 == 0)),
        Register::Pm2Cnt => width == 1,
        Register::PmTmr => (width == 4) & (offset == 0),
        Register::Gpe(_) => width == 1,
        Register::Nowhere => true,
    }
}
