// The work that benches/ measures: steps of a row one after the other, and setting up, n times, each with one number that depends on all of it.
#![tactic(auto)]

ghost use Rattle.std.specs.Prelude.{◌≡◌};
ghost use Rattle.speed_steps.specs.Rows.{row_of, event_at, interrupt_at, sleep_at, row_steps, steps_run};
ghost use Rattle.speed_steps.specs.SetUps.{set_up_turn, set_ups_of};

use model::{Event, Step};
use speed_runs::{Ports, Round, ports_from, read_at, run_rounds, set_up, write_at};

#[derive(Clone, Copy)]
pub enum Row {
    StatusRead,
    WriteBack,
    Events,
    Tick,
    Ticks,
    Interrupt,
    Sleep,
}

// A row's number; Sleep is every further number's too.
impl From<u32> for Row {
    ghost from_gives = { λ n row. row ≡ row_of n };

    #[tactic(auto, unfolding(crate::specs::Rows::row_of))]
    fn from(n: u32) -> Row {
        match n {
            0 => Row::StatusRead,
            1 => Row::WriteBack,
            2 => Row::Events,
            3 => Row::Tick,
            4 => Row::Ticks,
            5 => Row::Interrupt,
            _ => Row::Sleep,
        }
    }
}

#[tactic(auto, unfolding(crate::specs::Rows::event_at))]
fn event_at(k: u64) -> Event
    ensures { result ≡ event_at k }
{
    match k {
        0 => Event::Press,
        1 => Event::Release,
        2 => Event::SleepPress,
        3 => Event::Alarm,
        4 => Event::BusMaster,
        5 => Event::Unlock,
        _ => Event::General(3),
    }
}

// An alarm; both halves of status read; and each written back what it read, two steps before.
#[tactic(auto, unfolding(crate::specs::Rows::interrupt_at))]
fn interrupt_at(k: u64, p: Ports, older: u32) -> Step
    ensures { result ≡ interrupt_at k p older }
{
    match k {
        0 => Step::Event(Event::Alarm),
        1 => read_at(p.sts_a, 2),
        2 => read_at(p.sts_b, 2),
        3 => write_at(p.sts_a, 2, u64::from(older)),
        _ => write_at(p.sts_b, 2, u64::from(older)),
    }
}

// To S3, and an alarm that wakes; WAK and RTC cleared.
#[tactic(auto, unfolding(crate::specs::Rows::sleep_at))]
fn sleep_at(k: u64, p: Ports) -> Step
    ensures { result ≡ sleep_at k p }
{
    match k {
        0 => write_at(p.cnt_a, 2, 0x3400),
        1 => write_at(p.cnt_b, 2, 0x2800),
        2 => Step::Event(Event::Alarm),
        3 => write_at(p.sts_a, 2, 0x8000),
        _ => write_at(p.sts_b, 2, 0x0400),
    }
}

// A row's steps, at the ports of a table.
#[derive(Clone, Copy)]
pub struct RowSteps {
    pub row: Row,
    pub ports: Ports,
}

impl Round for RowSteps {
    ghost steps = { row_steps };

    fn last(self) -> u64 {
        match self.row {
            Row::StatusRead | Row::WriteBack | Row::Tick | Row::Ticks => 0,
            Row::Events => 6,
            Row::Interrupt | Row::Sleep => 4,
        }
    }

    #[tactic(auto, unfolding(crate::specs::Rows::step_at))]
    fn step_at(self, k: u64, older: u32) -> Step {
        let p = self.ports;
        match self.row {
            Row::StatusRead => read_at(p.sts_a, 2),
            Row::WriteBack => write_at(p.sts_a, 2, 0x8100),
            Row::Events => Step::Event(event_at(k)),
            Row::Tick => Step::Event(Event::Ticks(1)),
            Row::Ticks => Step::Event(Event::Ticks(0xffffffff)),
            Row::Interrupt => interrupt_at(k, p, older),
            Row::Sleep => sleep_at(k, p),
        }
    }

    fn has_lines(self, k: u64) -> bool {
        match self.row {
            Row::Interrupt => k == 4,
            _ => false,
        }
    }
}

// n steps of a row, on the machine of a table whose PM1 blocks begin at base.
#[tactic(auto, unfolding(crate::specs::Rows::steps_run))]
#[unsafe(no_mangle)]
pub extern "C" fn speed_run_steps(table: &[u8], base: u64, row: u32, n: u64) -> u64
    ensures { result ≡ steps_run table.now base row n }
{
    let ports = ports_from(base);
    let steps = RowSteps {
        row: Row::from(row),
        ports,
    };
    run_rounds(table, steps, n)
}

// Setting up once more, with the override where the sum so far is odd; its number, and 3 or 1 by the override kept, are added.
#[tactic(auto, unfolding(crate::specs::SetUps::set_up_turn))]
fn set_up_turn(table: &[u8], sum: u64) -> u64
    ensures { result ≡ set_up_turn table.now sum }
{
    let made = set_up(table, sum % 2 == 1);
    let answer = made.answer;
    let settings = made.machine.settings;
    sum.wrapping_add(u64::from(platform::number(answer)))
        .wrapping_add(bits::pick(settings.power_override, 3, 1))
}

#[tactic(auto, using(crate::proofs::Laws::set_ups_turn, crate::proofs::Laws::set_ups_end))]
#[unsafe(no_mangle)]
pub extern "C" fn speed_run_set_up(table: &[u8], n: u64) -> u64
    ensures { result ≡ set_ups_of table.now n 0 }
{
    let mut sum: u64 = 0;
    for _ in 0..n {
        sum = set_up_turn(table, sum);
    }
    sum
}
