// Sleep and wake.
ghost use Rattle.std.specs.Prelude.{◌≡◌};
ghost use Rattle.machine.specs.Fields.{with_event, enter};
ghost use Rattle.machine.specs.Scalars.{bare};
ghost use Rattle.machine.specs.Sleep.{is_sleeping, wake_bits, woken, pending, completed, restarted, overridden, restart_pressed, state_changed, in_next_state};

use crate::Machine;
use crate::gpe::GPE_BYTES;
use crate::scalars::Scalars;
use crate::status::{PWRBTN, RTC, SLPBTN, WAK, has_bit};
use acpi::RTC_S4;
use bits::pick;
use platform::Settings;

// What wakes a machine: a PM1 status bit by its number, a general event by its own, or not known which of several.
#[derive(Clone, Copy, Debug, PartialEq, Eq)]
pub enum WakeSource {
    Pm1(u8),
    Gpe(u32),
    NotKnown,
}

// S1 to S4.
pub fn is_sleeping(state: u8) -> bool
    ensures { result ≡ is_sleeping state }
{
    (1 <= state) & (state <= 4)
}

// The PM1 bits that wake the state where PWRBTN_EN, SLPBTN_EN or RTC_EN is set: RTC in S4 only with RTC_S4.
pub fn wake_bits(settings: Settings, state: u8) -> u16
    ensures { result ≡ wake_bits settings state }
{
    let rtc = (state != 4) | cells::flag(settings.flags, RTC_S4);
    pick(rtc, PWRBTN + SLPBTN + RTC, PWRBTN + SLPBTN)
}

// Whether an enabled bit that wakes the state, or an enabled GPE, is already set.
fn pending(settings: Settings, x: Scalars, state: u8) -> bool
    ensures { result ≡ pending (bare settings x) state }
{
    has_bit(x.pm1_sts & x.pm1_en, wake_bits(settings, state)) | x.gpe_pending
}

// A change of the sleep state in a step. Where there is none, the state stays.
#[derive(Clone, Copy)]
pub enum StateChange {
    // from S1 to S4
    Wake(WakeSource),
    // SLP_EN completes: to S1 to S5, or with a wake pending back to S0 at once
    Complete(u8),
    Override,
    // a press in S5
    Restart,
}

impl Machine {
    // Completing, wake and override all disarm; each may change PM1_STS too.
    fn enter(self, sts: u16, state: u8) -> Machine
        ensures { result ≡ enter (with_event self sts self.pm1_en) state }
    {
        let mut x = self.scalars();
        x.pm1_sts = sts;
        x.armed = false;
        x.state = state;
        self.with_scalars(x)
    }

    // Wake from S1 to S4: WAK is set, registers are kept. Nothing keeps the source yet.
    pub fn wake(self, source: WakeSource) -> Machine
        ensures { result ≡ woken source self }
    {
        self.enter(self.pm1_sts | WAK, 0)
    }

    // Completes a sleep; with a wake pending the machine wakes in the same step.
    pub fn complete(self, state: u8) -> Machine
        ensures { result ≡ completed self state }
    {
        let settings = self.settings;
        let wakes = is_sleeping(state) & pending(settings, self.scalars(), state);
        let sts = pick(wakes, self.pm1_sts | WAK, self.pm1_sts);
        self.enter(sts, pick(wakes, 0, state))
    }

    // A press in S5: cells, BM_RLD, SLP_TYP, PM2, release flag and command zero; SCI_EN as at power-on; the counter and the wake pin are kept.
    pub fn restart(self) -> Machine
        ensures { result ≡ restarted self }
    {
        let settings = self.settings;
        let mut x = self.scalars();
        x.pm1_en = 0;
        x.gpe_pending = false;
        x.command_waits = false;
        x.command = 0;
        x.gbl_rls = false;
        x.slp_typ_a = 0;
        x.slp_typ_b = 0;
        x.bm_rld = false;
        x.arb_dis = false;
        x.sci_en = settings.smi_cmd == 0;
        let mut next = self.with_scalars(x);
        next.gpe0_sts = [0; GPE_BYTES];
        next.gpe0_en = [0; GPE_BYTES];
        next.gpe1_sts = [0; GPE_BYTES];
        next.gpe1_en = [0; GPE_BYTES];
        next.enter(0, 0)
    }

    // The power override: PWRBTN is cleared, and the machine is in S5.
    pub fn override_power(self) -> Machine
        ensures { result ≡ overridden self }
    {
        self.enter(self.pm1_sts & !PWRBTN, 5)
    }

    // A press in S5 sets PWRBTN after the restart.
    fn restart_pressed(self) -> Machine
        ensures { result ≡ restart_pressed self }
    {
        let mut next = self.restart();
        next.pm1_sts = PWRBTN;
        next
    }

    fn change_state(self, c: StateChange) -> Machine
        ensures { result ≡ state_changed c self }
    {
        match c {
            StateChange::Wake(source) => self.wake(source),
            StateChange::Complete(state) => self.complete(state),
            StateChange::Override => self.override_power(),
            StateChange::Restart => self.restart_pressed(),
        }
    }

    #[tactic(auto, unfolding(crate::specs::Sleep::in_next_state))]
    pub(crate) fn go_on(self, next: Option<StateChange>) -> Machine
        ensures { result ≡ in_next_state next self }
    {
        match next {
            None => self,
            Some(c) => self.change_state(c),
        }
    }
}
