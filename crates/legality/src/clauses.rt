// The clauses of the list, a function each.
ghost use Rattle.std.specs.Prelude.{false, true, not, cond, ◌&&◌, ◌||◌, ◌≡◌, ◌^◌, eqb, ltb, get_or, drop, Ok, Err};
ghost use Rattle.lists.specs.Any.{any};
ghost use Rattle.clock.specs.Clock.{counter_bits};
ghost use Rattle.sleep.specs.Pairs.{absent};
ghost use Rattle.platform.specs.Legal.{stray_length};
ghost use Rattle.model.specs.Legal.{only_if, absent_pair, status_legal, enables_legal, bytes_legal, gpe_legal, arb_dis_legal, state_legal, counter_legal, hold_legal, button_legal, wake_pin_legal, command_legal, armed_legal, slp_typ_b_legal, slp_typs_legal, gpe_pending_legal};
ghost use Rattle.legality.specs.Legality.{one_value, after_settings, legality_of};

use crate::Clause;
use clock::HOLD_LIMIT;
use machine::{GPE_BYTES, Machine, PCIEXP_WAKE, PWRBTN, awake, has_bit};
use platform::{Block, is_present};
use registers::has_pm1b_cnt;

fn status_legal(m: Machine) -> bool
    ensures { result ≡ status_legal m }
{
    let s = m.settings;
    bits::within16(platform::status_cells(s), m.pm1_sts)
}

fn enables_legal(m: Machine) -> bool
    ensures { result ≡ enables_legal m }
{
    let s = m.settings;
    bits::within16(platform::enable_cells(s), m.pm1_en)
}

// Whether a byte is set, from a place on.
fn any_set(bytes: [u8; GPE_BYTES], from: usize) -> bool
    ensures { result ≡ any (ltb 0) (drop from bytes) }
{
    bytes.iter().skip(from).any(|byte| 0 < *byte)
}

// No byte is set past the block's own.
fn bytes_legal(own: u32, bytes: [u8; GPE_BYTES]) -> bool
    ensures { result ≡ bytes_legal own bytes }
{
    !any_set(bytes, own as usize)
}

fn block_legal(own: u32, sts: [u8; GPE_BYTES], en: [u8; GPE_BYTES]) -> bool
    ensures { result ≡ (bytes_legal own sts && bytes_legal own en) }
{
    bytes_legal(own, sts) & bytes_legal(own, en)
}

fn gpe_legal(m: Machine) -> bool
    ensures { result ≡ (gpe_legal m false && gpe_legal m true) }
{
    let s = m.settings;
    block_legal(s.gpe0.length / 2, m.gpe0_sts, m.gpe0_en)
        & block_legal(s.gpe1.length / 2, m.gpe1_sts, m.gpe1_en)
}

fn arb_dis_legal(m: Machine) -> bool
    ensures { result ≡ arb_dis_legal m }
{
    let s = m.settings;
    !m.arb_dis | is_present(s.pm2_cnt)
}

fn state_allowed(pairs: [[u8; 2]; 6], state: u8) -> bool
    ensures { result ≡ (eqb state 0 || eqb state 5 || not (absent (get_or pairs state absent_pair))) }
{
    if (state == 0) | (state == 5) {
        return true;
    }
    let i = state as usize;
    if i < 6 {
        !sleep::absent(pairs[i])
    } else {
        false
    }
}

fn state_legal(m: Machine) -> bool
    ensures { result ≡ state_legal m }
{
    state_allowed(m.settings.sleep.pairs(), m.state)
}

// A counter of 32 bits, wide, or of 24 is below its size; one of 32 has no size to pass.
fn counter_fits(wide: bool, counter: u32) -> bool
    ensures { result ≡ ltb counter (2 ^ counter_bits wide) }
{
    wide | (counter < 16777216)
}

fn counter_legal(m: Machine) -> bool
    ensures { result ≡ counter_legal m }
{
    counter_fits(platform::wide_timer(m.settings), m.counter)
}

const HOLD: u32 = HOLD_LIMIT as u32;

fn hold_legal(m: Machine) -> bool
    ensures { result ≡ hold_legal m }
{
    let s = m.settings;
    (m.hold <= HOLD) & (!(s.power_override & (m.state != 5)) | (m.hold < HOLD))
}

fn button_legal(m: Machine) -> bool
    ensures { result ≡ button_legal m }
{
    let s = m.settings;
    !m.button | has_bit(platform::status_cells(s), PWRBTN)
}

fn wake_pin_legal(m: Machine) -> bool
    ensures { result ≡ wake_pin_legal m }
{
    let s = m.settings;
    !m.wake_pin | has_bit(platform::status_cells(s), PCIEXP_WAKE)
}

fn command_legal(m: Machine) -> bool
    ensures { result ≡ command_legal m }
{
    let s = m.settings;
    (s.smi_cmd != 0) | (!m.command_waits & m.sci_en)
}

fn armed_legal(m: Machine) -> bool
    ensures { result ≡ armed_legal m }
{
    let s = m.settings;
    let up = awake(m.state);
    let b = has_pm1b_cnt(s);
    !m.armed | (up & b)
}

fn slp_typ_b_legal(m: Machine) -> bool
    ensures { result ≡ slp_typ_b_legal m }
{
    let s = m.settings;
    has_pm1b_cnt(s) | (m.slp_typ_b == 0)
}

fn stray_length(b: Block) -> bool
    ensures { result ≡ stray_length b }
{
    !is_present(b) & (b.length != 0)
}

fn command_byte_legal(waits: bool, command: u32) -> bool
    ensures { result ≡ (ltb command 256 && only_if (not waits) (eqb command 0)) }
{
    (command < 256) & (waits | (command == 0))
}

fn slp_typs_legal(m: Machine) -> bool
    ensures { result ≡ slp_typs_legal m }
{
    (m.slp_typ_a < 8) & (m.slp_typ_b < 8)
}

fn one_value(m: Machine) -> bool
    ensures { result ≡ one_value m }
{
    let s = m.settings;
    !stray_length(s.pm1b_evt)
        & !stray_length(s.pm1b_cnt)
        & command_byte_legal(m.command_waits, m.command)
        & slp_typs_legal(m)
}

fn gpe_pending_legal(m: Machine) -> bool
    ensures { result ≡ gpe_pending_legal m }
{
    let found = m.walk_gpe();
    m.gpe_pending == found.gpe_pending
}

// The clause is broken unless it is kept.
fn unless(kept: bool, clause: Clause) -> Result<(), Clause>
    ensures { result ≡ cond (not kept) (Err clause) (Ok tt) }
{
    if kept { Ok(()) } else { Err(clause) }
}

// The clauses after the settings'.
#[tactic(auto, unfolding(crate::specs::Legality::after_settings))]
fn after_settings(m: Machine) -> Result<(), Clause>
    ensures { result ≡ after_settings m }
{
    unless(status_legal(m), Clause::Status)?;
    unless(enables_legal(m), Clause::Enables)?;
    unless(gpe_legal(m), Clause::GeneralEvents)?;
    unless(arb_dis_legal(m), Clause::ArbDis)?;
    unless(state_legal(m), Clause::State)?;
    unless(counter_legal(m), Clause::Counter)?;
    unless(hold_legal(m), Clause::Hold)?;
    unless(button_legal(m), Clause::Button)?;
    unless(wake_pin_legal(m), Clause::WakePin)?;
    unless(command_legal(m), Clause::Command)?;
    unless(armed_legal(m), Clause::Armed)?;
    unless(slp_typ_b_legal(m), Clause::SlpTypB)?;
    unless(one_value(m), Clause::OneValue)?;
    unless(gpe_pending_legal(m), Clause::GpePending)
}

// The first clause of the list that the machine breaks.
#[tactic(auto, unfolding(crate::specs::Legality::legality_of))]
pub fn judge(m: Machine) -> Result<(), Clause>
    ensures { result ≡ legality_of m }
{
    platform::judge(m.settings).map_err(Clause::Settings)?;
    after_settings(m)
}
