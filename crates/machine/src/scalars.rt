// The machine's numbers and flags: all of it but its settings and the general event bytes.
ghost use Rattle.std.specs.Prelude.{◌≡◌};
ghost use Rattle.machine.specs.Applied.{applied};
ghost use Rattle.machine.specs.Scalars.{scalars_of, with_scalars};

use crate::Machine;
use crate::gpe::GpeStore;
use crate::sleeping::StateChange;

// A step is worked out on these and stored once, so that no way through it copies settings or bytes. The fields are those of Machine.
#[derive(Clone, Copy, Debug, PartialEq, Eq)]
pub struct Scalars {
    pub sci_en: bool,
    pub bm_rld: bool,
    pub slp_typ_a: u8,
    pub arb_dis: bool,
    pub slp_typ_b: u8,
    pub armed: bool,
    pub state: u8,
    pub gpe_pending: bool,
    pub command: u32,
    pub command_waits: bool,
    pub wake_pin: bool,
    pub pm1_sts: u16,
    pub counter: u32,
    pub gbl_rls: bool,
    pub button: bool,
    pub pm1_en: u16,
    pub hold: u32,
}

impl Scalars {
    // The same, field by field: copied whole, the compiler moves neighbouring fields as one number, and takes that apart again in every step.
    pub fn copied(self) -> Scalars
        ensures { result ≡ self }
    {
        Scalars {
            sci_en: self.sci_en,
            bm_rld: self.bm_rld,
            slp_typ_a: self.slp_typ_a,
            arb_dis: self.arb_dis,
            slp_typ_b: self.slp_typ_b,
            armed: self.armed,
            state: self.state,
            gpe_pending: self.gpe_pending,
            command: self.command,
            command_waits: self.command_waits,
            wake_pin: self.wake_pin,
            pm1_sts: self.pm1_sts,
            counter: self.counter,
            gbl_rls: self.gbl_rls,
            button: self.button,
            pm1_en: self.pm1_en,
            hold: self.hold,
        }
    }
}

impl Machine {
    pub fn scalars(self) -> Scalars
        ensures { result ≡ scalars_of self }
    {
        Scalars {
            sci_en: self.sci_en,
            bm_rld: self.bm_rld,
            slp_typ_a: self.slp_typ_a,
            arb_dis: self.arb_dis,
            slp_typ_b: self.slp_typ_b,
            armed: self.armed,
            state: self.state,
            gpe_pending: self.gpe_pending,
            command: self.command,
            command_waits: self.command_waits,
            wake_pin: self.wake_pin,
            pm1_sts: self.pm1_sts,
            counter: self.counter,
            gbl_rls: self.gbl_rls,
            button: self.button,
            pm1_en: self.pm1_en,
            hold: self.hold,
        }
    }

    pub(crate) fn with_scalars(mut self, x: Scalars) -> Machine
        ensures { result ≡ with_scalars self x }
    {
        self.sci_en = x.sci_en;
        self.bm_rld = x.bm_rld;
        self.slp_typ_a = x.slp_typ_a;
        self.arb_dis = x.arb_dis;
        self.slp_typ_b = x.slp_typ_b;
        self.armed = x.armed;
        self.state = x.state;
        self.gpe_pending = x.gpe_pending;
        self.command = x.command;
        self.command_waits = x.command_waits;
        self.wake_pin = x.wake_pin;
        self.pm1_sts = x.pm1_sts;
        self.counter = x.counter;
        self.gbl_rls = x.gbl_rls;
        self.button = x.button;
        self.pm1_en = x.pm1_en;
        self.hold = x.hold;
        self
    }

    // The one place where a step changes the machine: its scalars, the general event byte that it stores, and the sleep state.
    pub fn apply(self, x: Scalars, store: GpeStore, next: Option<StateChange>) -> Machine
        ensures { result ≡ applied self x store next }
    {
        self.with_scalars(x).store(store).go_on(next)
    }
}
