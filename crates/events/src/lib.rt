// Buttons, alarm, wake pin, bus master, global lock, general events and ticks.
#![tactic(auto)]

mod buttons;
mod general;
mod timer;

ghost use Rattle.std.specs.Prelude.{◌≡◌};
ghost use Rattle.events.specs.Kinds.{kind_of};
ghost use Rattle.model.specs.Effect.{effect_of};
ghost use Rattle.model.specs.declared.Step.TheVariants as step;

use acpi::{BM_STS, GBL_STS, RTC_STS, SLPBTN_STS};
use buttons::{notice, pin, press, release, signal};
use general::general;
use machine::{BM, GBL, Machine, RTC, SLPBTN};
use model::{Effect, Event};
use timer::ticks;

// A PM1 status bit: its number, and the bit at its place in the register.
#[derive(Clone, Copy)]
struct StatusBit {
    number: u8,
    mask: u16,
}

// The events by kind: those of a kind go by one rule, each with its own bit, so that the rule has one caller.
#[derive(Clone, Copy)]
enum EventKind {
    Press,
    Release,
    Signal(StatusBit),
    Pin(bool),
    Notice(StatusBit),
    General(u32),
    Ticks(u32),
}

fn status_bit(number: u8, mask: u16) -> StatusBit
    ensures { result ≡ record { number = number; mask = mask } }
{
    StatusBit { number, mask }
}

fn kind_of(e: Event) -> EventKind
    ensures { result ≡ kind_of e }
{
    match e {
        Event::Press => EventKind::Press,
        Event::Release => EventKind::Release,
        Event::SleepPress => EventKind::Signal(status_bit(SLPBTN_STS, SLPBTN)),
        Event::Alarm => EventKind::Signal(status_bit(RTC_STS, RTC)),
        Event::PinActive => EventKind::Pin(true),
        Event::PinInactive => EventKind::Pin(false),
        Event::BusMaster => EventKind::Notice(status_bit(BM_STS, BM)),
        Event::Unlock => EventKind::Notice(status_bit(GBL_STS, GBL)),
        Event::General(k) => EventKind::General(k),
        Event::Ticks(n) => EventKind::Ticks(n),
    }
}

pub fn event(m: Machine, e: Event) -> Effect
    ensures { result ≡ effect_of m (step.Event e) }
{
    let s = m.settings;
    let kind = kind_of(e);
    match kind {
        EventKind::Press => press(s, m.scalars()),
        EventKind::Release => release(s, m.scalars()),
        EventKind::Signal(bit) => signal(s, m.scalars(), bit.number, bit.mask),
        EventKind::Pin(active) => pin(s, m.scalars(), active),
        EventKind::Notice(bit) => notice(m.scalars(), bit.number, bit.mask),
        EventKind::General(k) => general(m, k),
        EventKind::Ticks(n) => ticks(s, m.scalars(), n),
    }
}
