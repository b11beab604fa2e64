// The steps of the machine: what they are and what they answer. The definitions of what each does stand in specs/.
#![tactic(auto)]

ghost use Rattle.std.specs.Prelude.{◌≡◌};
ghost use Rattle.model.specs.Answer.{step_number, step_value};
ghost use Rattle.model.specs.Effect.{unmoved, done};
ghost use Rattle.model.specs.Step.{accepted};

use machine::{GpeStore, Machine, Scalars, StateChange};

// A bus access: its width in bytes, and its first port. In this order the port is a word of its own within a step, and a copied
// step is read back as it was written.
#[derive(Clone, Copy)]
pub struct Access {
    pub width: u32,
    pub port: u64,
}

// A bus access with its direction: a read, or a write of a value.
#[derive(Clone, Copy)]
pub struct Transfer {
    pub access: Access,
    pub writes: bool,
    pub written: u64,
}

// What comes from outside the bus and the firmware, and may come between the halves of a split access.
#[derive(Clone, Copy)]
pub enum Event {
    // the power button goes down, or up
    Press,
    Release,
    SleepPress,
    // of the real-time clock
    Alarm,
    // the wake pin becomes active, or inactive
    PinActive,
    PinInactive,
    BusMaster,
    // the global lock is released
    Unlock,
    // a general event, by its number
    General(u32),
    // so many ticks of the PM timer
    Ticks(u32),
}

#[derive(Clone, Copy)]
pub enum Step {
    Read(Access),
    // the access, and the value written
    Write(Access, u64),
    Event(Event),
    // the firmware takes the waiting command
    Take,
    // the firmware drops the release flag
    Drop,
}

// Accepted, with the value; or refused.
// Not a `Result<u32, StepRefusal>`: tried, slower than the plain model. Of two payloads it is no pair of scalars, and a status read in a
// loop takes 101 instructions, not 80.
#[derive(Clone, Copy, Debug, PartialEq, Eq)]
pub enum Answer {
    Done(u32),
    Asleep,
    WrongWidth,
    DataTooWide,
    NoBlock,
    NotAllowed,
    TimerWritten,
    CommandWaits,
    NoSleepState,
    NotFitted,
    NoSuchEvent,
    AlreadySo,
    NoCommand,
}

#[derive(Clone, Copy)]
pub struct Stepped {
    pub answer: Answer,
    pub machine: Machine,
}

// A step, worked out and not done yet: the answer, the machine's scalars by the step's own rule, the general event byte that it stores, and
// what becomes of the sleep state.
#[derive(Clone, Copy)]
pub struct Effect {
    pub answer: Answer,
    pub scalars: Scalars,
    pub store: GpeStore,
    pub next: Option<StateChange>,
}

// The registers that a port may lead to; of two blocks, true is block B, or GPE1. Nowhere is no None: it is a row of the tables of refusals
// like the others (`leads_nowhere`, `allowed`).
#[derive(Clone, Copy)]
pub enum Register {
    SmiCmd,
    Pm1Evt(bool),
    Pm1Cnt(bool),
    Pm2Cnt,
    PmTmr,
    Gpe(bool),
    Nowhere,
}

// Document 01's number of an answer, and its value.
pub fn number(a: Answer) -> u8
    ensures { result ≡ step_number a }
{
    match a {
        Answer::Done(_) => 0,
        Answer::Asleep => 20,
        Answer::WrongWidth => 21,
        Answer::DataTooWide => 22,
        Answer::NoBlock => 23,
        Answer::NotAllowed => 24,
        Answer::TimerWritten => 25,
        Answer::CommandWaits => 26,
        Answer::NoSleepState => 27,
        Answer::NotFitted => 28,
        Answer::NoSuchEvent => 29,
        Answer::AlreadySo => 30,
        Answer::NoCommand => 31,
    }
}

pub fn value(a: Answer) -> u32
    ensures { result ≡ step_value a }
{
    match a {
        Answer::Done(v) => v,
        Answer::Asleep => 0,
        Answer::WrongWidth => 0,
        Answer::DataTooWide => 0,
        Answer::NoBlock => 0,
        Answer::NotAllowed => 0,
        Answer::TimerWritten => 0,
        Answer::CommandWaits => 0,
        Answer::NoSleepState => 0,
        Answer::NotFitted => 0,
        Answer::NoSuchEvent => 0,
        Answer::AlreadySo => 0,
        Answer::NoCommand => 0,
    }
}

pub fn accepted(a: Answer) -> bool
    ensures { result ≡ accepted a }
{
    number(a) == 0
}

// The machine stays as it is.
pub fn unmoved(scalars: Scalars, answer: Answer) -> Effect
    ensures { result ≡ unmoved scalars answer }
{
    Effect {
        answer,
        scalars,
        store: GpeStore::nothing(),
        next: None,
    }
}

// Accepted, with the value; the scalars change, and what becomes of the sleep state is given.
pub fn done(value: u32, scalars: Scalars, next: Option<StateChange>) -> Effect
    ensures { result ≡ done value scalars next }
{
    Effect {
        answer: Answer::Done(value),
        scalars,
        store: GpeStore::nothing(),
        next,
    }
}
