// Rules 5 to 12 of setting up, and what each answer is called.
ghost use Rattle.std.specs.Prelude.{◌||◌, ◌≡◌, ◌+◌, ◌<◌, ltb};
ghost use Rattle.lists.specs.Any.{any};
ghost use Rattle.platform.specs.Answer.{refusal_number, refusal_value, set_up_number, set_up_value, first_failing};
ghost use Rattle.platform.specs.Blocks.{passes_ports};
ghost use Rattle.platform.specs.FadtBlocks.{blocks_of};
ghost use Rattle.platform.specs.Rules.{
  hardware_reduced,
  wrong_block_length,
  wrong_gpe_length,
  just_one_zero,
  length_refused,
  misaligned,
  place_refused,
  overlap_refused,
  event_count,
  gpe_refused,
  commands_refused,
  homes_without_block,
  homes_refused,
  sleep_pairs_refused,
  settings_rules,
};

use crate::block::{Block, is_present, overlaps, passes_ports};
use crate::settings::Settings;
use acpi::{BM_RLD, GBL_RLS, HW_REDUCED_ACPI, SCI_EN};
use cells::Column;

// SMI_CMD and the eight blocks of the FADT.
pub const BLOCKS: usize = 9;

// The longest GPE block.
pub const GPE_LONGEST: u32 = 16;

// The lines of the table of setting up, each of which refuses.
#[derive(Clone, Copy, Debug, PartialEq, Eq)]
pub enum SetUpRefusal {
    TableShort = 1,
    NoSignature = 2,
    WrongLength = 3,
    WrongSum = 4,
    HardwareReduced = 5,
    BlockLength = 6,
    BlockPlace = 7,
    BlocksOverlap = 8,
    Gpe1Numbers = 9,
    SameCommands = 10,
    WrongHomes = 11,
    SleepPairs = 12,
}

pub fn refusal_number(r: SetUpRefusal) -> u8
    ensures { result ≡ refusal_number r }
{
    r as u8
}

// "A refusal carries its number from document 01 and value zero".
pub fn refusal_value(r: SetUpRefusal) -> u32
    ensures { result ≡ refusal_value r }
{
    0
}

pub fn number(a: Result<(), SetUpRefusal>) -> u8
    ensures { result ≡ set_up_number a }
{
    match a {
        Ok(()) => 0,
        Err(line) => refusal_number(line),
    }
}

pub fn value(a: Result<(), SetUpRefusal>) -> u32
    ensures { result ≡ set_up_value a }
{
    match a {
        Ok(()) => 0,
        Err(line) => refusal_value(line),
    }
}

// Lines 5 to 12: the first that refuses these settings.
#[tactic(auto, unfolding(crate::specs::Answer::first_failing))]
pub fn judge(s: Settings) -> Result<(), SetUpRefusal>
    ensures { result ≡ first_failing (settings_rules s) }
{
    if hardware_reduced(s) {
        return Err(SetUpRefusal::HardwareReduced);
    }
    if length_refused(s) {
        return Err(SetUpRefusal::BlockLength);
    }
    if place_refused(s) {
        return Err(SetUpRefusal::BlockPlace);
    }
    if overlap_refused(s) {
        return Err(SetUpRefusal::BlocksOverlap);
    }
    if gpe_refused(s) {
        return Err(SetUpRefusal::Gpe1Numbers);
    }
    if commands_refused(s) {
        return Err(SetUpRefusal::SameCommands);
    }
    if homes_refused(s) {
        return Err(SetUpRefusal::WrongHomes);
    }
    if sleep_pairs_refused(s) {
        return Err(SetUpRefusal::SleepPairs);
    }
    Ok(())
}

// The blocks in the order of their FADT address fields, SMI_CMD first.
pub fn blocks(s: Settings) -> [Block; BLOCKS]
    ensures { result ≡ blocks_of s }
{
    let smi = Block::new(s.smi_cmd, 1);
    [
        smi, s.pm1a_evt, s.pm1b_evt, s.pm1a_cnt, s.pm1b_cnt, s.pm2_cnt, s.pm_tmr, s.gpe0, s.gpe1,
    ]
}

fn hardware_reduced(s: Settings) -> bool
    ensures { result ≡ hardware_reduced s }
{
    cells::flag(s.flags, HW_REDUCED_ACPI)
}

fn wrong_block_length(n: u32, b: Block) -> bool
    ensures { result ≡ wrong_block_length n b }
{
    is_present(b) & (b.length != n)
}

fn wrong_gpe_length(b: Block) -> bool
    ensures { result ≡ wrong_gpe_length b }
{
    is_present(b) & !((b.length % 2 == 0) & ((2 <= b.length) & (b.length <= GPE_LONGEST)))
}

fn just_one_zero(b: Block) -> bool
    ensures { result ≡ just_one_zero b }
{
    ((b.address == 0) & (b.length != 0)) | ((b.address != 0) & (b.length == 0))
}

fn length_refused(s: Settings) -> bool
    ensures { result ≡ length_refused s }
{
    wrong_block_length(4, s.pm1a_evt)
        | wrong_block_length(4, s.pm1b_evt)
        | wrong_block_length(2, s.pm1a_cnt)
        | wrong_block_length(2, s.pm1b_cnt)
        | wrong_block_length(1, s.pm2_cnt)
        | wrong_block_length(4, s.pm_tmr)
        | wrong_gpe_length(s.gpe0)
        | wrong_gpe_length(s.gpe1)
        | just_one_zero(s.pm2_cnt)
        | just_one_zero(s.pm_tmr)
        | just_one_zero(s.gpe0)
        | just_one_zero(s.gpe1)
}

fn misaligned(n: u64, b: Block) -> bool
    requires { 0 < n }
    ensures { result ≡ misaligned n b }
{
    b.address % n != 0
}

fn any_passes_ports(bs: [Block; BLOCKS]) -> bool
    ensures { result ≡ any passes_ports bs }
{
    bs.iter().any(|b| passes_ports(*b))
}

fn place_refused(s: Settings) -> bool
    ensures { result ≡ place_refused s }
{
    !is_present(s.pm1a_evt)
        | !is_present(s.pm1a_cnt)
        | misaligned(4, s.pm1a_evt)
        | misaligned(4, s.pm1b_evt)
        | misaligned(4, s.pm_tmr)
        | misaligned(2, s.pm1a_cnt)
        | misaligned(2, s.pm1b_cnt)
        | any_passes_ports(blocks(s))
}

// Both loops stand in one function, since a call would copy the blocks.
fn overlap_refused(s: Settings) -> bool
    ensures { result ≡ overlap_refused s }
{
    let bs = blocks(s);
    for i in 0..BLOCKS {
        let b = bs[i];
        for j in i + 1..BLOCKS {
            if overlaps(b, bs[j]) {
                return true;
            }
        }
    }
    false
}

pub fn event_count(b: Block) -> u64
    ensures { result ≡ event_count b }
{
    4 * (b.length as u64)
}

// What rule 9 says of a present GPE1, whose base is given.
fn numbers_refused(base: u8, gpe0: Block, gpe1: Block) -> bool
    ensures { result ≡ (ltb base (event_count gpe0) || ltb 256 (base + event_count gpe1)) }
{
    let first = base as u64;
    (first < event_count(gpe0)) | (256 < first + event_count(gpe1))
}

fn gpe_refused(s: Settings) -> bool
    ensures { result ≡ gpe_refused s }
{
    is_present(s.gpe1) & numbers_refused(s.gpe1_base, s.gpe0, s.gpe1)
}

fn commands_refused(s: Settings) -> bool
    ensures { result ≡ commands_refused s }
{
    (s.smi_cmd != 0) & (s.acpi_enable == s.acpi_disable)
}

fn homes_without_block(b: Block, homes: u16) -> bool
    ensures { result ≡ homes_without_block b homes }
{
    !is_present(b) & (homes != 0)
}

// The control bits that have a home, 0007 hex.
const HOME_BITS: u16 = (1 << SCI_EN) + (1 << BM_RLD) + (1 << GBL_RLS);

fn homes_refused(s: Settings) -> bool
    ensures { result ≡ homes_refused s }
{
    let known = cells::mask(Column::Known, 0, false);
    !bits::within16(known, s.event_homes)
        | !bits::within16(HOME_BITS, s.control_homes)
        | homes_without_block(s.pm1b_evt, s.event_homes)
        | homes_without_block(s.pm1b_cnt, s.control_homes)
}

fn sleep_pairs_refused(s: Settings) -> bool
    ensures { result ≡ sleep_pairs_refused s }
{
    sleep::refused(s.sleep.pairs(), is_present(s.pm1b_cnt))
}
