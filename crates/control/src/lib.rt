// What a write to a PM1 control register does.
#![tactic(auto)]

ghost use Rattle.std.specs.Prelude.{◌≡◌};
ghost use Rattle.sleep.specs.Pairs.{state_of};
ghost use Rattle.machine.specs.PowerOn.{no_settings};
ghost use Rattle.machine.specs.Scalars.{bare, scalars_of};
ghost use Rattle.registers.specs.Registers.{has_pm1b_cnt};
ghost use Rattle.model.specs.Control.{sets_slp_en, written_typ, typ_after, completes, armed_after, bm_rld_after, gbl_rls_after, controlled};
ghost use Rattle.model.specs.Effect.{control_write};

use acpi::{BM_RLD, GBL_RLS, SLP_EN, SLP_TYPx};
use bits::pick;
use machine::{Scalars, StateChange};
use model::{Answer, Effect};
use platform::Settings;
use registers::{control_in, covers_high, covers_low, has_pm1b_cnt, placed, written_bit};

fn sets_slp_en(width: u32, offset: u64, written: u32) -> bool
    ensures { result ≡ sets_slp_en width offset written }
{
    covers_high(width, offset) & written_bit(offset, written, SLP_EN)
}

// A control register with a sleep type of one.
const SLP_TYP_UNIT: u64 = 1 << SLP_TYPx;

fn written_typ(offset: u64, written: u32) -> u8
    ensures { result ≡ written_typ offset written }
{
    let p = placed(offset, written);
    (p / SLP_TYP_UNIT % 8) as u8
}

// The latched SLP_TYP of block A, or of B where `of_b`, after a write to block `b`.
fn typ_after(x: Scalars, b: bool, of_b: bool, width: u32, offset: u64, written: u32) -> u8
    ensures { result ≡ typ_after (bare no_settings x) b of_b width offset written }
{
    let high = covers_high(width, offset);
    let typ = written_typ(offset, written);
    if of_b {
        pick(b & high, typ, x.slp_typ_b)
    } else {
        pick(!b & high, typ, x.slp_typ_a)
    }
}

fn completes(s: Settings, x: Scalars, b: bool, width: u32, offset: u64, written: u32) -> bool
    ensures { result ≡ completes (bare s x) b width offset written }
{
    sets_slp_en(width, offset, written) & pick(has_pm1b_cnt(s), b & x.armed, !b)
}

fn armed_after(s: Settings, x: Scalars, b: bool, width: u32, offset: u64, written: u32) -> bool
    ensures { result ≡ armed_after (bare s x) b width offset written }
{
    let arms = written_bit(offset, written, SLP_EN) & (has_pm1b_cnt(s) & !b);
    pick(covers_high(width, offset), arms, x.armed)
}

// The state that the pair names, if it names one.
fn named_state(s: Settings, typ_a: u8, typ_b: u8) -> Option<u8>
    ensures { result ≡ state_of (has_pm1b_cnt s) typ_a typ_b s.sleep.pairs }
{
    let table = s.sleep;
    let pairs = table.pairs();
    sleep::state_of(pairs, has_pm1b_cnt(s), typ_a, typ_b)
}

fn bm_rld_after(s: Settings, x: Scalars, b: bool, offset: u64, written: u32) -> bool
    ensures { result ≡ bm_rld_after (bare s x) b offset written }
{
    let taken = covers_low(offset) & control_in(s, b, BM_RLD);
    pick(taken, written_bit(offset, written, BM_RLD), x.bm_rld)
}

fn gbl_rls_after(s: Settings, x: Scalars, b: bool, offset: u64, written: u32) -> bool
    ensures { result ≡ gbl_rls_after (bare s x) b offset written }
{
    x.gbl_rls
        | (covers_low(offset) & (control_in(s, b, GBL_RLS) & written_bit(offset, written, GBL_RLS)))
}

// The cells after a control write, before any sleep.
fn controlled(s: Settings, x: Scalars, b: bool, width: u32, offset: u64, written: u32) -> Scalars
    ensures { result ≡ scalars_of (controlled (bare s x) b width offset written) }
{
    let bm_rld = bm_rld_after(s, x, b, offset, written);
    let gbl_rls = gbl_rls_after(s, x, b, offset, written);
    let slp_typ_a = typ_after(x, b, false, width, offset, written);
    let slp_typ_b = typ_after(x, b, true, width, offset, written);
    let armed = armed_after(s, x, b, width, offset, written);
    let mut next = x.copied();
    next.bm_rld = bm_rld;
    next.gbl_rls = gbl_rls;
    next.slp_typ_a = slp_typ_a;
    next.slp_typ_b = slp_typ_b;
    next.armed = armed;
    next
}

// 27, where a write that completes a sleep names none of S1 to S5; else what the write does, with the sleep that it completes.
pub fn write(s: Settings, x: Scalars, b: bool, width: u32, offset: u64, written: u32) -> Effect
    ensures { result ≡ control_write (bare s x) b width offset written }
{
    let next = controlled(s, x, b, width, offset, written);
    if completes(s, x, b, width, offset, written) {
        match named_state(s, next.slp_typ_a, next.slp_typ_b) {
            Some(state) => model::done(0, next, Some(StateChange::Complete(state))),
            None => model::unmoved(x, Answer::NoSleepState),
        }
    } else {
        model::done(0, next, None)
    }
}
