// One step of the machine.
#![tactic(auto)]

ghost use Rattle.std.specs.Prelude.{◌≡◌};
ghost use Rattle.model.specs.Effect.{effect_of};
ghost use Rattle.model.specs.Step.{step_of};
ghost use Rattle.step.specs.Kinds.{read_transfer, write_transfer, step_kind};

use machine::Machine;
use model::{Access, Effect, Event, Step, Stepped, Transfer};

// A step by who does it. Reads and writes are one kind, so that the bus has one caller.
#[derive(Clone, Copy)]
enum StepKind {
    Bus(Transfer),
    Event(Event),
    Take,
    Drop,
}

fn read(access: Access) -> Transfer
    ensures { result ≡ read_transfer access }
{
    Transfer {
        access,
        writes: false,
        written: 0,
    }
}

fn write(access: Access, written: u64) -> Transfer
    ensures { result ≡ write_transfer access written }
{
    Transfer {
        access,
        writes: true,
        written,
    }
}

fn kind_of(s: Step) -> StepKind
    ensures { result ≡ step_kind s }
{
    match s {
        Step::Read(access) => StepKind::Bus(read(access)),
        Step::Write(access, written) => StepKind::Bus(write(access, written)),
        Step::Event(e) => StepKind::Event(e),
        Step::Take => StepKind::Take,
        Step::Drop => StepKind::Drop,
    }
}

fn effect(m: Machine, s: Step) -> Effect
    ensures { result ≡ effect_of m s }
{
    let settings = m.settings;
    let kind = kind_of(s);
    match kind {
        StepKind::Bus(t) => bus::access(m, t),
        StepKind::Event(e) => events::event(m, e),
        StepKind::Take => firmware::take(settings, m.scalars()),
        StepKind::Drop => firmware::drop(m.scalars()),
    }
}

// The answer, and the machine after it; a refusal leaves the machine as it was. First what the step comes to, in scalars; then it is
// done to the machine, once.
pub fn step(m: Machine, s: Step) -> Stepped
    ensures { result ≡ step_of m s }
{
    let e = effect(m, s);
    let answer = e.answer;
    let scalars = e.scalars;
    let store = e.store;
    let next = e.next;
    let machine = m.apply(scalars, store, next);
    Stepped { answer, machine }
}
