// General events.
ghost use Rattle.std.specs.Prelude.{◌≡◌, ◌||◌, ◌-◌, ◌/◌, ◌^◌, ◌<◌, get_or};
ghost use Rattle.machine.specs.Fields.{with_gpe_pending};
ghost use Rattle.machine.specs.PowerOn.{no_settings};
ghost use Rattle.machine.specs.Scalars.{bare, scalars_of};
ghost use Rattle.model.specs.Effect.{general_byte, general_effect, event_effect};
ghost use Rattle.model.specs.EventKinds as kind;
ghost use Rattle.model.specs.Events.{gpe, in_gpe0, in_gpe1, number_in, is_enabled, enabled_in};

use crate::buttons::{is_s5, wakes_if};
use machine::{GPE_BYTES, GpeArray, GpeStore, Machine, Scalars, WakeSource, has_bit8};
use model::{Answer, Effect};
use platform::Settings;

fn in_gpe0(s: Settings, k: u32) -> bool
    ensures { result ≡ in_gpe0 s k }
{
    let block = s.gpe0;
    (k as u64) < platform::event_count(block)
}

fn wide(x: u8) -> u64
    ensures { result ≡ x }
{
    x as u64
}

// How far the number lies past GPE1_BASE; zero below it.
fn past_base(s: Settings, k: u32) -> u64
    ensures { result ≡ k - s.gpe1_base }
{
    bits::past(k as u64, wide(s.gpe1_base))
}

fn in_gpe1(s: Settings, k: u32) -> bool
    ensures { result ≡ in_gpe1 s k }
{
    let block = s.gpe1;
    let base = wide(s.gpe1_base);
    (base <= k as u64) & (past_base(s, k) < platform::event_count(block))
}

fn number_in(s: Settings, k: u32) -> u64
    ensures { result ≡ number_in s k }
{
    if in_gpe0(s, k) {
        k as u64
    } else {
        past_base(s, k)
    }
}

fn bit8(j: u64) -> u8
    requires { j < 8 }
    ensures { result ≡ 2 ^ j }
{
    1 << j
}

// The byte where event k's bit lies; past the last there are none.
fn byte_of(xs: [u8; GPE_BYTES], k: u64) -> u8
    ensures { result ≡ get_or xs (k / 8) 0 }
{
    let i = (k / 8) as usize;
    if i < GPE_BYTES { xs[i] } else { 0 }
}

fn is_enabled(xs: [u8; GPE_BYTES], k: u64) -> bool
    ensures { result ≡ is_enabled xs k }
{
    has_bit8(byte_of(xs, k), bit8(k % 8))
}

fn general_enabled(s: Settings, en0: [u8; GPE_BYTES], en1: [u8; GPE_BYTES], k: u32) -> bool
    ensures { result ≡ enabled_in s en0 en1 k }
{
    if in_gpe0(s, k) {
        is_enabled(en0, k as u64)
    } else {
        is_enabled(en1, number_in(s, k))
    }
}

// Where it is enabled, one is pending.
fn pending_raised(x: Scalars, enabled: bool) -> Scalars
    ensures { result ≡ scalars_of (with_gpe_pending (bare no_settings x) (enabled || x.gpe_pending)) }
{
    let mut next = x.copied();
    next.gpe_pending = enabled | x.gpe_pending;
    next
}

// The status byte with event k's bit set, of GPE0 or else of GPE1.
fn raised_byte(s: Settings, sts0: [u8; GPE_BYTES], sts1: [u8; GPE_BYTES], k: u32) -> GpeStore
    ensures { result ≡ general_byte s sts0 sts1 k }
{
    if in_gpe0(s, k) {
        let n = k as u64;
        let byte = byte_of(sts0, n) | bit8(n % 8);
        GpeStore {
            place: n / 8,
            byte,
            walks: false,
            array: GpeArray::Gpe0Sts,
        }
    } else {
        let n = number_in(s, k);
        let byte = byte_of(sts1, n) | bit8(n % 8);
        GpeStore {
            place: n / 8,
            byte,
            walks: false,
            array: GpeArray::Gpe1Sts,
        }
    }
}

// Its bit is set, and wakes where it is enabled. In S5 it does nothing.
fn raise_general(m: Machine, k: u32) -> Effect
    ensures { result ≡ general_effect m k }
{
    let s = m.settings;
    if is_s5(m.state) {
        model::unmoved(m.scalars(), Answer::Done(0))
    } else {
        let sts0 = m.gpe0_sts;
        let en0 = m.gpe0_en;
        let sts1 = m.gpe1_sts;
        let en1 = m.gpe1_en;
        let enabled = general_enabled(s, en0, en1, k);
        let scalars = pending_raised(m.scalars(), enabled);
        let store = raised_byte(s, sts0, sts1, k);
        let next = wakes_if(m.state, WakeSource::Gpe(k), enabled);
        Effect {
            answer: Answer::Done(0),
            scalars,
            store,
            next,
        }
    }
}

// 29, or what it does.
pub(crate) fn general(m: Machine, k: u32) -> Effect
    ensures { result ≡ event_effect m (gpe k) (kind.general k) }
{
    let s = m.settings;
    if in_gpe0(s, k) | in_gpe1(s, k) {
        raise_general(m, k)
    } else {
        model::unmoved(m.scalars(), Answer::NoSuchEvent)
    }
}
