// The PM timer's counter, the turns of its top bit and the power button's hold, n ticks at once.
#![tactic(auto)]

ghost use Rattle.std.specs.Prelude.{◌≡◌, ◌^◌};
ghost use Rattle.clock.specs.Clock.{counter_bits, ticks_of, start_of};
ghost use Rattle.clock.specs.AtOnce.{off_within, ran_of, counter_after, turns_in, hold_after};

// 4 seconds at 3,579,545 Hz.
pub const HOLD_LIMIT: u64 = 14318180;

// The timer and the power button's hold as n ticks leave them.
#[derive(Clone, Copy, Debug, PartialEq, Eq)]
pub struct Clock {
    // PM_TMR, of 24 or 32 bits
    pub counter: u32,
    // how often its top bit changed
    pub turns: u32,
    // ticks that the power button has been down, up to HOLD_LIMIT
    pub hold: u32,
    // the power button override has put the machine into S5
    pub off: bool,
}

fn size(wide: bool) -> u64
    ensures { result ≡ 2 ^ counter_bits wide }
{
    if wide { 4294967296 } else { 16777216 }
}

// One of the n ticks brings the power button override.
#[tactic(auto, unfolding(crate::specs::AtOnce::off_within))]
fn is_overridden(down: bool, fitted: bool, hold: u32, n: u32) -> bool
    ensures { result ≡ off_within down fitted hold n }
{
    let from = hold as u64;
    down & fitted & (from < HOLD_LIMIT) & (HOLD_LIMIT <= from + (n as u64))
}

// How many of the n ticks run: all, or those up to the override.
#[tactic(auto, unfolding(crate::specs::AtOnce::off_within, crate::specs::AtOnce::ran_of))]
fn ran(down: bool, fitted: bool, hold: u32, n: u32) -> u32
    ensures { result ≡ ran_of down fitted hold n }
{
    if is_overridden(down, fitted, hold, n) {
        (HOLD_LIMIT - (hold as u64)) as u32
    } else {
        n
    }
}

// Zero ticks leave a counter alone that is past its size.
#[tactic(auto, unfolding(crate::specs::AtOnce::counter_after))]
fn counter_after(wide: bool, counter: u32, n: u32) -> u32
    ensures { result ≡ counter_after (counter_bits wide) counter n }
{
    if n == 0 {
        return counter;
    }
    (((counter as u64) + (n as u64)) % size(wide)) as u32
}

// The top bit changes wherever the count passes a multiple of half the counter's size.
#[tactic(auto, unfolding(crate::specs::AtOnce::turns_in))]
fn turns_in(wide: bool, counter: u32, n: u32) -> u32
    ensures { result ≡ turns_in (counter_bits wide) counter n }
{
    let half = size(wide) / 2;
    let before = (counter as u64) / half;
    let after = ((counter as u64) + (n as u64)) / half;
    (after - before) as u32
}

#[tactic(auto, unfolding(crate::specs::AtOnce::hold_after))]
fn hold_after(down: bool, hold: u32, n: u32) -> u32
    ensures { result ≡ hold_after down hold n }
{
    let from = hold as u64;
    if down & (from < HOLD_LIMIT) {
        HOLD_LIMIT.min(from + (n as u64)) as u32
    } else {
        hold
    }
}

// n ticks: wide is flag 8, TMR_VAL_EXT; down, the power button is down; fitted, the power override is fitted.
pub fn ticks(wide: bool, down: bool, fitted: bool, counter: u32, hold: u32, n: u32) -> Clock
    ensures { result ≡ ticks_of wide down fitted n (start_of counter hold) }
{
    if down {
        let run = ran(down, fitted, hold, n);
        return Clock {
            counter: counter_after(wide, counter, run),
            turns: turns_in(wide, counter, run),
            hold: hold_after(down, hold, run),
            off: is_overridden(down, fitted, hold, n),
        };
    }
    Clock {
        counter: counter_after(wide, counter, n),
        turns: turns_in(wide, counter, n),
        hold,
        off: false,
    }
}
