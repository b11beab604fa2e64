// The registers: where each bit lives, what a read shows, and what a write does.
// Throughout, b is true for block B, or GPE1, and false for block A, or GPE0.
#![tactic(auto)]

ghost use Rattle.std.specs.Prelude.{◌≡◌, ◌-◌, ◌%◌, ◌^◌, cond, get_or};
ghost use Rattle.std.specs.Int.Bits.{bit_and};
ghost use Rattle.bits.specs.Writes.{kept, cleared_by, taken_by};
ghost use Rattle.machine.specs.Status.{pciexp_wake_bit};
ghost use Rattle.machine.specs.PowerOn.{no_settings};
ghost use Rattle.machine.specs.Scalars.{bare};
ghost use Rattle.registers.specs.Registers.{homes_in, status_in, enable_in, shown, covered, placed, control_in, has_pm1b_cnt, slp_typ, control_register, covers_low, covers_high, written_bit, gpe_half, in_gpe_status};

use acpi::{BM_RLD, SCI_EN, SLP_TYPx};
use bits::pick;
use machine::{GPE_BYTES, PCIEXP_WAKE, Scalars, has_bit};
use platform::Settings;

// The bits that live in the block, B or A.
fn homes_in(homes: u16, b: bool) -> u16
    ensures { result ≡ homes_in homes b }
{
    pick(b, homes, !homes)
}

// The fitted cells that the block shows.
fn status_in(s: Settings, b: bool) -> u16
    ensures { result ≡ status_in s b }
{
    platform::status_cells(s) & homes_in(s.event_homes, b)
}

pub fn enable_in(s: Settings, b: bool) -> u16
    ensures { result ≡ enable_in s b }
{
    platform::enable_cells(s) & homes_in(s.event_homes, b)
}

// What a read at a register's first byte shows: that byte, or with two bytes the register. Each byte has its own, since the bus has
// chosen it.
pub fn read_low(width: u32, register: u32) -> u32
    ensures { result ≡ shown width 0 register }
{
    pick(width == 1, register % 256, register)
}

// What a read at its second byte shows.
pub fn read_high(register: u32) -> u32
    ensures { result ≡ shown 1 1 register }
{
    register / 256 % 256
}

// What a write at a register's first byte covers: that byte, or with two bytes the register.
fn from_low(width: u32) -> u16
    ensures { result ≡ covered width 0 }
{
    pick(width == 1, 0x00ff, 0xffff)
}

// The bits of what is written, at its place in the register, that lie in the mask.
fn low_in(written: u32, mask: u16) -> u16
    ensures { result ≡ bit_and (placed 0 written) mask }
{
    (written & (mask as u32)) as u16
}

fn high_in(written: u32, mask: u16) -> u16
    ensures { result ≡ bit_and (placed 1 written) mask }
{
    (((written as u64) * 256) & (mask as u64)) as u16
}

// What the block's status half (PM1a_STS, PM1b_STS) and its enable half (PM1a_EN, PM1b_EN) show.
pub fn status_register(s: Settings, pm1_sts: u16, b: bool) -> u16
    ensures { result ≡ bit_and pm1_sts (status_in s b) }
{
    pm1_sts & status_in(s, b)
}

pub fn enable_register(s: Settings, pm1_en: u16, b: bool) -> u16
    ensures { result ≡ bit_and pm1_en (enable_in s b) }
{
    pm1_en & enable_in(s, b)
}

// The status bits that a write to the block may clear: bit 14 only with the wake pin inactive.
pub fn clearable(s: Settings, wake_pin: bool, b: bool) -> u16
    ensures { result ≡ kept 16 (status_in s b) (cond wake_pin pciexp_wake_bit 0) }
{
    status_in(s, b) & !pick(wake_pin, PCIEXP_WAKE, 0)
}

// Writing one to a status bit clears it; writing zero keeps it. At the status half's first byte, and at its second: the bus's one match
// on the offset has chosen the byte, so that no rule tests the place again.
pub fn status_low(sts: u16, mask: u16, width: u32, written: u32) -> u16
    ensures { result ≡ cleared_by 16 sts (placed 0 written) (bit_and mask (covered width 0)) }
{
    let bits = mask & from_low(width);
    bits::clear16(sts, low_in(written, bits), bits)
}

pub fn status_high(sts: u16, mask: u16, written: u32) -> u16
    ensures { result ≡ cleared_by 16 sts (placed 1 written) (bit_and mask (covered 1 1)) }
{
    let bits = mask & 0xff00;
    bits::clear16(sts, high_in(written, bits), bits)
}

// An enable bit takes the value written. At the enable half's first byte, and at its second.
pub fn enable_low(en: u16, mask: u16, width: u32, written: u32) -> u16
    ensures { result ≡ taken_by 16 en (placed 2 written) (bit_and mask (covered width 2)) }
{
    let bits = mask & from_low(width);
    bits::take16(en, low_in(written, bits), bits)
}

pub fn enable_high(en: u16, mask: u16, written: u32) -> u16
    ensures { result ≡ taken_by 16 en (placed 3 written) (bit_and mask (covered 1 3)) }
{
    let bits = mask & 0xff00;
    bits::take16(en, high_in(written, bits), bits)
}

// What is written, at its place in a control register.
pub fn placed(offset: u64, written: u32) -> u64
    ensures { result ≡ placed offset written }
{
    if offset % 2 == 1 {
        (written as u64) * 256
    } else {
        written as u64
    }
}

// A control bit, SCI_EN, BM_RLD or GBL_RLS, lives in the block.
pub fn control_in(s: Settings, b: bool, bit: u8) -> bool
    ensures { result ≡ control_in s b bit }
{
    let homes = homes_in(s.control_homes, b);
    if bit < 16 {
        has_bit(homes, 1 << bit)
    } else {
        false
    }
}

pub fn has_pm1b_cnt(s: Settings) -> bool
    ensures { result ≡ has_pm1b_cnt s }
{
    platform::is_present(s.pm1b_cnt)
}

fn slp_typ(x: Scalars, b: bool) -> u8
    ensures { result ≡ slp_typ (bare no_settings x) b }
{
    pick(b, x.slp_typ_b, x.slp_typ_a)
}

// A control register with the one bit set, and with a sleep type of one.
const SCI_EN_SET: u32 = 1 << SCI_EN;

const BM_RLD_SET: u32 = 1 << BM_RLD;

const SLP_TYP_UNIT: u32 = 1 << SLP_TYPx;

// PM1a_CNT, or PM1b_CNT: SCI_EN and BM_RLD in their homes, SLP_TYP in both; GBL_RLS and SLP_EN read zero.
pub fn control_register(s: Settings, x: Scalars, b: bool) -> u32
    ensures { result ≡ control_register (bare s x) b }
{
    let sci_en = pick(control_in(s, b, SCI_EN) & x.sci_en, SCI_EN_SET, 0);
    let bm_rld = pick(control_in(s, b, BM_RLD) & x.bm_rld, BM_RLD_SET, 0);
    let typ = slp_typ(x, b) as u32;
    sci_en | bm_rld | (typ % 8 * SLP_TYP_UNIT)
}

// A control access covers the low byte, or the high byte.
pub fn covers_low(offset: u64) -> bool
    ensures { result ≡ covers_low offset }
{
    offset == 0
}

pub fn covers_high(width: u32, offset: u64) -> bool
    ensures { result ≡ covers_high width offset }
{
    (offset == 1) | ((offset == 0) & (width == 2))
}

pub fn written_bit(offset: u64, written: u32, n: u8) -> bool
    ensures { result ≡ written_bit offset written n }
{
    let value = placed(offset, written);
    if n < 64 { (value >> n) % 2 == 1 } else { false }
}

// The status bytes of a GPE block, and as many enable bytes after them.
fn gpe_half(s: Settings, b: bool) -> u32
    ensures { result ≡ gpe_half s b }
{
    pick(b, s.gpe1.length, s.gpe0.length) / 2
}

pub fn in_gpe_status(s: Settings, b: bool, offset: u64) -> bool
    ensures { result ≡ in_gpe_status s b offset }
{
    offset < gpe_half(s, b) as u64
}

// How far the offset lies past the status bytes.
pub fn past_status(s: Settings, b: bool, offset: u64) -> u64
    ensures { result ≡ offset - gpe_half s b }
{
    bits::past(offset, gpe_half(s, b) as u64)
}

// The byte at a place; past the last there are none, and reads give zero.
fn byte_at(bytes: [u8; GPE_BYTES], place: u64) -> u8
    ensures { result ≡ get_or bytes place 0 }
{
    let i = place as usize;
    if i < GPE_BYTES { bytes[i] } else { 0 }
}

// The block's byte at a place, of GPE0's array and GPE1's.
pub fn gpe_byte(gpe0: [u8; GPE_BYTES], gpe1: [u8; GPE_BYTES], b: bool, place: u64) -> u8
    ensures { result ≡ get_or (cond b gpe1 gpe0) place 0 }
{
    if b {
        byte_at(gpe1, place)
    } else {
        byte_at(gpe0, place)
    }
}

pub fn low_byte(written: u32) -> u8
    ensures { result ≡ written % 2 ^ 8 }
{
    (written % 256) as u8
}

// The status byte with the ones of the byte written cleared.
pub fn gpe_sts_cleared(sts: u8, written: u32) -> u8
    ensures { result ≡ cleared_by 8 sts written 255 }
{
    bits::clear8(sts, low_byte(written), 255)
}
