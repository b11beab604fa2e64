// The rules of a register's cells: write one to clear, take what is written; one of two, by a test; and a difference cut off at zero.
#![tactic(auto)]

ghost use Rattle.std.specs.Prelude.{cond, ◌≡◌, ◌-◌};
ghost use Rattle.bits.specs.Writes.{cleared_by, taken_by, within};

// Write one to clear: a byte, and a word. One function over the width is no plainer: it takes a trait with the width and the laws of
// `&` and `!`, which std's operators give as relations, and two impls.
pub fn clear8(old: u8, byte: u8, mask: u8) -> u8
    ensures { result ≡ cleared_by 8 old byte mask }
{
    old & !(byte & mask)
}

pub fn clear16(old: u16, written: u16, mask: u16) -> u16
    ensures { result ≡ cleared_by 16 old written mask }
{
    old & !(written & mask)
}

// Take what is written.
pub fn take16(old: u16, written: u16, mask: u16) -> u16
    ensures { result ≡ taken_by 16 old written mask }
{
    (old & !mask) | (written & mask)
}

// Whether no bit of x lies outside the mask.
#[tactic(auto, unfolding(crate::specs::Writes::within))]
pub fn within16(mask: u16, x: u16) -> bool
    ensures { result ≡ within mask x }
{
    (x & mask) == x
}

pub fn pick<T: Copy>(c: bool, a: T, b: T) -> T
    ensures { result ≡ cond c a b }
{
    if c { a } else { b }
}

// How far a lies past b; zero where it does not.
pub fn past(a: u64, b: u64) -> u64
    ensures { result ≡ a - b }
{
    a.saturating_sub(b)
}
