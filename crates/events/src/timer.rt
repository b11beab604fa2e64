// Ticks of the PM timer.
ghost use Rattle.std.specs.Prelude.{◌≡◌};
ghost use Rattle.machine.specs.Fields.{with_time};
ghost use Rattle.machine.specs.Scalars.{bare, scalars_of};
ghost use Rattle.model.specs.Effect.{overridden_if, event_effect};
ghost use Rattle.model.specs.EventKinds as kind;
ghost use Rattle.model.specs.Events.{event_bit, raised, tmr_raised};
ghost use Rattle.model.specs.declared.Event.TheVariants as event;

use crate::buttons::fits;
use bits::pick;
use clock::Clock;
use machine::{Scalars, StateChange, TMR, awake};
use model::{Answer, Effect};
use platform::Settings;

fn tmr_raised(s: Settings, turns: u32) -> u16
    ensures { result ≡ tmr_raised s turns }
{
    pick(fits(s, TMR) & (turns != 0), TMR, 0)
}

// The scalars with a clock's counter, hold and turns.
fn timed(s: Settings, x: Scalars, t: Clock) -> Scalars
    ensures { result ≡ scalars_of (with_time (raised (bare s x) (tmr_raised s t.turns)) t.counter t.hold) }
{
    let raised = tmr_raised(s, t.turns);
    let mut next = x.copied();
    next.pm1_sts = x.pm1_sts | raised;
    next.counter = t.counter;
    next.hold = t.hold;
    next
}

fn overridden_if(off: bool) -> Option<StateChange>
    ensures { result ≡ overridden_if off }
{
    off.then_some(StateChange::Override)
}

// n ticks at once, in S0 only: how often the counter's top bit turned, and the machine after them.
pub(crate) fn ticks(s: Settings, x: Scalars, n: u32) -> Effect
    ensures { result ≡ event_effect (bare s x) (event_bit (event.Ticks n)) (kind.ticks n) }
{
    let wide = platform::wide_timer(s);
    if awake(x.state) {
        let t = clock::ticks(wide, x.button, s.power_override, x.counter, x.hold, n);
        model::done(t.turns, timed(s, x, t), overridden_if(t.off))
    } else {
        model::unmoved(x, Answer::Done(0))
    }
}
