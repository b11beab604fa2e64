// The power and sleep buttons, the alarm, and the wake pin.
ghost use Rattle.std.specs.Prelude.{◌≡◌, true, not, ◌&&◌, ◌^◌};
ghost use Rattle.machine.specs.Status.{has_bit, pwrbtn_bit, pciexp_wake_bit};
ghost use Rattle.machine.specs.Sleep.{is_sleeping};
ghost use Rattle.machine.specs.Fields.{with_button};
ghost use Rattle.machine.specs.PowerOn.{no_settings};
ghost use Rattle.machine.specs.Scalars.{bare, scalars_of};
ghost use Rattle.model.specs.Effect.{wakes_if, press_wakes, signal_effect, pinned, pin_next, event_effect};
ghost use Rattle.model.specs.EventKinds as kind;
ghost use Rattle.model.specs.Events.{pm1, event_bit, fits, raised, is_s5, release_of, signal_wakes};
ghost use Rattle.model.specs.declared.Event.TheVariants as event;

use acpi::{PCIEXP_WAKE_STS, PWRBTN_STS};
use bits::pick;
use machine::{
    PCIEXP_WAKE, PWRBTN, Scalars, StateChange, WakeSource, awake, has_bit, is_sleeping, wake_bits,
};
use model::{Answer, Effect};
use platform::Settings;

pub(crate) fn fits(s: Settings, bit: u16) -> bool
    ensures { result ≡ fits s bit }
{
    has_bit(platform::status_cells(s), bit)
}

// With these status bits set.
pub(crate) fn raise(x: Scalars, bits: u16) -> Scalars
    ensures { result ≡ scalars_of (raised (bare no_settings x) bits) }
{
    let mut next = x.copied();
    next.pm1_sts = x.pm1_sts | bits;
    next
}

pub(crate) fn is_s5(state: u8) -> bool
    ensures { result ≡ is_s5 state }
{
    state == 5
}

// An event in S1 to S4 that wakes, or does not.
#[tactic(auto, unfolding(model::specs::Effect::wakes_if))]
pub(crate) fn wakes_if(state: u8, source: WakeSource, test: bool) -> Option<StateChange>
    ensures { result ≡ wakes_if state source test }
{
    (is_sleeping(state) & test).then_some(StateChange::Wake(source))
}

// A press wakes: from S5 to a machine started anew, from S1 to S4 with its registers kept.
fn press_wakes(state: u8) -> Option<StateChange>
    ensures { result ≡ press_wakes state }
{
    if is_s5(state) {
        Some(StateChange::Restart)
    } else {
        wakes_if(state, WakeSource::Pm1(PWRBTN_STS), true)
    }
}

fn button_down(x: Scalars) -> Scalars
    ensures { result ≡ scalars_of (with_button (raised (bare no_settings x) pwrbtn_bit) true 0) }
{
    let mut next = x.copied();
    next.pm1_sts = x.pm1_sts | PWRBTN;
    next.button = true;
    next.hold = 0;
    next
}

// 28 and 30; else the button goes down.
pub(crate) fn press(s: Settings, x: Scalars) -> Effect
    ensures { result ≡ event_effect (bare s x) (event_bit event.Press) kind.press }
{
    if fits(s, PWRBTN) {
        if x.button {
            model::unmoved(x, Answer::AlreadySo)
        } else {
            model::done(0, button_down(x), press_wakes(x.state))
        }
    } else {
        model::unmoved(x, Answer::NotFitted)
    }
}

// The button goes up; hold is kept.
fn button_up(x: Scalars) -> Scalars
    ensures { result ≡ scalars_of (release_of (bare no_settings x)) }
{
    let mut next = x.copied();
    next.button = false;
    next
}

// 28 and 30; else it goes up.
pub(crate) fn release(s: Settings, x: Scalars) -> Effect
    ensures { result ≡ event_effect (bare s x) (event_bit event.Release) kind.release }
{
    if fits(s, PWRBTN) {
        if x.button {
            model::done(0, button_up(x), None)
        } else {
            model::unmoved(x, Answer::AlreadySo)
        }
    } else {
        model::unmoved(x, Answer::NotFitted)
    }
}

// Its enable, SLPBTN_EN or RTC_EN, is set, and it wakes the state.
fn signal_wakes(s: Settings, x: Scalars, bit: u16) -> bool
    ensures { result ≡ signal_wakes (bare s x) bit }
{
    has_bit(x.pm1_en, bit) & has_bit(wake_bits(s, x.state), bit)
}

// Its bit, with the number i, is set, and may wake. In S5 it does nothing.
fn raise_signal(s: Settings, x: Scalars, i: u8, bit: u16) -> Effect
    requires { bit ≡ 2 ^ i }
    ensures { result ≡ signal_effect (bare s x) (pm1 i) }
{
    if is_s5(x.state) {
        model::unmoved(x, Answer::Done(0))
    } else {
        model::done(
            0,
            raise(x, bit),
            wakes_if(x.state, WakeSource::Pm1(i), signal_wakes(s, x, bit)),
        )
    }
}

// A sleep press or an alarm: 28, or what it does.
pub(crate) fn signal(s: Settings, x: Scalars, i: u8, bit: u16) -> Effect
    requires { bit ≡ 2 ^ i }
    ensures { result ≡ event_effect (bare s x) (pm1 i) kind.signal }
{
    if fits(s, bit) {
        raise_signal(s, x, i, bit)
    } else {
        model::unmoved(x, Answer::NotFitted)
    }
}

// The pin becomes active in S1 to S4, and PCIEXP_WAKE_DIS, its partner in the enables, is clear.
fn pin_wakes(active: bool, state: u8, pm1_en: u16) -> bool
    ensures { result ≡ (active && (is_sleeping state && not (has_bit pm1_en pciexp_wake_bit))) }
{
    active & (is_sleeping(state) & !has_bit(pm1_en, PCIEXP_WAKE))
}

// The pin at its level, and its bit where it wakes.
fn pinned(x: Scalars, active: bool, wakes: bool) -> Scalars
    ensures { result ≡ scalars_of (pinned (bare no_settings x) active wakes) }
{
    let mut next = x.copied();
    next.wake_pin = active;
    next.pm1_sts = x.pm1_sts | pick(wakes, PCIEXP_WAKE, 0);
    next
}

#[tactic(auto, unfolding(model::specs::Effect::pin_next))]
fn pin_next(wakes: bool) -> Option<StateChange>
    ensures { result ≡ pin_next wakes }
{
    wakes.then_some(StateChange::Wake(WakeSource::Pm1(PCIEXP_WAKE_STS)))
}

// 28 and 30; else the pin takes the level, and may wake.
pub(crate) fn pin(s: Settings, x: Scalars, active: bool) -> Effect
    ensures { result ≡ event_effect (bare s x) (event_bit event.PinActive) (kind.pin active) }
{
    if fits(s, PCIEXP_WAKE) {
        if x.wake_pin == active {
            model::unmoved(x, Answer::AlreadySo)
        } else {
            let wakes = pin_wakes(active, x.state, x.pm1_en);
            model::done(0, pinned(x, active, wakes), pin_next(wakes))
        }
    } else {
        model::unmoved(x, Answer::NotFitted)
    }
}

// Bus master and unlock: 20, or the bit is set.
pub(crate) fn notice(x: Scalars, i: u8, bit: u16) -> Effect
    requires { bit ≡ 2 ^ i }
    ensures { result ≡ event_effect (bare no_settings x) (pm1 i) kind.notice }
{
    if awake(x.state) {
        model::done(0, raise(x, bit), None)
    } else {
        model::unmoved(x, Answer::Asleep)
    }
}
