// What a read gives and a write does: one match on the register kind and the offset chooses the byte's cell rule.
ghost use Rattle.std.specs.Prelude.{◌≡◌, true, ◌%◌, ◌^◌};
ghost use Rattle.clock.specs.Clock.{counter_bits};
ghost use Rattle.platform.specs.Fitted.{wide_timer};
ghost use Rattle.bus.specs.GpeBytes.{gpe_number};
ghost use Rattle.machine.specs.Fields.{with_event, with_command, with_arb_dis};
ghost use Rattle.machine.specs.PowerOn.{no_settings};
ghost use Rattle.machine.specs.Scalars.{bare, scalars_of};
ghost use Rattle.model.specs.Bus.{allowed, read_of};
ghost use Rattle.model.specs.Effect.{sts_array, en_array, sts_byte, en_byte, gpe_write, event_write, register_write};

use acpi::ARB_DIS;
use bits::pick;
use machine::{GpeArray, GpeStore, Machine, Scalars};
use model::{Answer, Effect, Register};
use platform::Settings;
use registers::{read_high, read_low};

// A GPE block's bytes as cells, since a machine has fewer than 256 of each: status bytes from 0 on, enable bytes from 256 on.
fn gpe_number(s: Settings, b: bool, offset: u64) -> u64
    ensures { result ≡ gpe_number s b offset }
{
    let past = registers::past_status(s, b, offset);
    pick(
        registers::in_gpe_status(s, b, offset),
        offset % 256,
        256 + past % 256,
    )
}

// PM_TMR: TMR_VAL, and E_TMR_VAL above it, which is zero where the counter has 24 bits.
fn timer_register(s: Settings, counter: u32) -> u32
    ensures { result ≡ counter % 2 ^ counter_bits (wide_timer s) }
{
    pick(platform::wide_timer(s), counter, counter % 0x1000000)
}

pub(crate) fn read_cells(m: Machine, r: Register, width: u32, offset: u64) -> u32
    ensures { result ≡ read_of m r width offset }
{
    let s = m.settings;
    match r {
        Register::SmiCmd => 0,
        Register::Pm1Evt(b) => {
            let sts = registers::status_register(s, m.pm1_sts, b) as u32;
            let en = registers::enable_register(s, m.pm1_en, b) as u32;
            match offset {
                0 => read_low(width, sts),
                1 => read_high(sts),
                2 => read_low(width, en),
                3 => read_high(en),
                _ => 0,
            }
        }
        Register::Pm1Cnt(b) => {
            let cnt = registers::control_register(s, m.scalars(), b);
            match offset {
                0 => read_low(width, cnt),
                1 => read_high(cnt),
                _ => 0,
            }
        }
        Register::Pm2Cnt => pick(m.arb_dis, ARB_DIS_SET, 0),
        Register::PmTmr => timer_register(s, m.counter),
        Register::Gpe(b) => {
            let number = gpe_number(s, b, offset);
            match number {
                0..=255 => {
                    let sts0 = m.gpe0_sts;
                    let sts1 = m.gpe1_sts;
                    registers::gpe_byte(sts0, sts1, b, offset) as u32
                }
                _ => {
                    let en0 = m.gpe0_en;
                    let en1 = m.gpe1_en;
                    registers::gpe_byte(en0, en1, b, registers::past_status(s, b, offset)) as u32
                }
            }
        }
        Register::Nowhere => 0,
    }
}

fn with_event(x: Scalars, sts: u16, en: u16) -> Scalars
    ensures { result ≡ scalars_of (with_event (bare no_settings x) sts en) }
{
    let mut next = x.copied();
    next.pm1_sts = sts;
    next.pm1_en = en;
    next
}

// A command write latches the byte.
fn latch(x: Scalars, command: u32) -> Scalars
    ensures { result ≡ scalars_of (with_command (bare no_settings x) true command) }
{
    let mut next = x.copied();
    next.command_waits = true;
    next.command = command;
    next
}

// PM2 with ARB_DIS set.
const ARB_DIS_SET: u32 = 1 << ARB_DIS;

fn with_arb_dis(x: Scalars, arb_dis: bool) -> Scalars
    ensures { result ≡ scalars_of (with_arb_dis (bare no_settings x) arb_dis) }
{
    let mut next = x.copied();
    next.arb_dis = arb_dis;
    next
}

// The block's status array, and its enable array.
fn sts_array(b: bool) -> GpeArray
    ensures { result ≡ sts_array b }
{
    if b {
        GpeArray::Gpe1Sts
    } else {
        GpeArray::Gpe0Sts
    }
}

fn en_array(b: bool) -> GpeArray
    ensures { result ≡ en_array b }
{
    if b {
        GpeArray::Gpe1En
    } else {
        GpeArray::Gpe0En
    }
}

fn sts_byte(sts: u8, b: bool, offset: u64, written: u32) -> GpeStore
    ensures { result ≡ sts_byte sts b offset written }
{
    let array = sts_array(b);
    GpeStore {
        place: offset,
        byte: registers::gpe_sts_cleared(sts, written),
        walks: true,
        array,
    }
}

fn en_byte(s: Settings, b: bool, offset: u64, written: u32) -> GpeStore
    ensures { result ≡ en_byte s b offset written }
{
    let array = en_array(b);
    GpeStore {
        place: registers::past_status(s, b, offset),
        byte: registers::low_byte(written),
        walks: true,
        array,
    }
}

fn stores(scalars: Scalars, store: GpeStore) -> Effect
    ensures { result ≡ gpe_write scalars store }
{
    Effect {
        answer: Answer::Done(0),
        scalars,
        store,
        next: None,
    }
}

fn event_written(s: Settings, x: Scalars, b: bool, width: u32, offset: u64, written: u32) -> Scalars
    ensures { result ≡ event_write (bare s x) b width offset written }
{
    let sts = x.pm1_sts;
    let en = x.pm1_en;
    match offset {
        0 => {
            let clearable = registers::clearable(s, x.wake_pin, b);
            with_event(x, registers::status_low(sts, clearable, width, written), en)
        }
        1 => {
            let clearable = registers::clearable(s, x.wake_pin, b);
            with_event(x, registers::status_high(sts, clearable, written), en)
        }
        2 => {
            let enables = registers::enable_in(s, b);
            with_event(x, sts, registers::enable_low(en, enables, width, written))
        }
        3 => {
            let enables = registers::enable_in(s, b);
            with_event(x, sts, registers::enable_high(en, enables, written))
        }
        _ => x,
    }
}

// The bytes of a control register that a write covers: at offset 0 the first, or with two bytes both; at 1 the second; past it none.
#[derive(Clone, Copy)]
struct Bytes {
    width: u32,
    offset: u64,
}

// A write of an allowed width and place: 23, 25 to 27, or what the register's rule says. Each arm takes the scalars for itself: a copy
// that several share is moved by every write.
pub(crate) fn write_cells(m: Machine, r: Register, width: u32, offset: u64, written: u32) -> Effect
    requires { allowed r width offset ≡ true }
    ensures { result ≡ register_write m r width offset written }
{
    let s = m.settings;
    match r {
        Register::SmiCmd => {
            if m.command_waits {
                return model::unmoved(m.scalars(), Answer::CommandWaits);
            }
            model::done(0, latch(m.scalars(), written % 256), None)
        }
        Register::Pm1Evt(b) => model::done(
            0,
            event_written(s, m.scalars(), b, width, offset, written),
            None,
        ),
        Register::Pm1Cnt(b) => {
            let bytes = match offset {
                0 => Bytes { width, offset: 0 },
                1 => Bytes {
                    width: 1,
                    offset: 1,
                },
                _ => Bytes {
                    width: 1,
                    offset: 2,
                },
            };
            control::write(s, m.scalars(), b, bytes.width, bytes.offset, written)
        }
        Register::Pm2Cnt => model::done(
            0,
            with_arb_dis(m.scalars(), written / ARB_DIS_SET % 2 == 1),
            None,
        ),
        Register::PmTmr => model::unmoved(m.scalars(), Answer::TimerWritten),
        Register::Gpe(b) => {
            let number = gpe_number(s, b, offset);
            match number {
                0..=255 => {
                    let sts0 = m.gpe0_sts;
                    let sts1 = m.gpe1_sts;
                    let sts = registers::gpe_byte(sts0, sts1, b, offset);
                    stores(m.scalars(), sts_byte(sts, b, offset, written))
                }
                _ => stores(m.scalars(), en_byte(s, b, offset, written)),
            }
        }
        Register::Nowhere => model::unmoved(m.scalars(), Answer::NoBlock),
    }
}
