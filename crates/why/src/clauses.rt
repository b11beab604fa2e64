// The clauses of legality, document 02, a line each; they name the records concerned.
use crate::words::refusal;
use legality::Clause;
use std::io;

pub(crate) fn clause(out: &impl Print, broken: Clause) -> io::Result<()> {
    let words = match broken {
        Clause::Settings(rule) => {
            let number = platform::refusal_number(rule);
            return println!(out; "the settings break rule {number}: {}", refusal(rule));
        }
        Clause::Status => "PM1a_STS or PM1b_STS has an unfitted or reserved bit",
        Clause::Enables => "PM1a_EN or PM1b_EN has an unfitted or reserved bit",
        // No text breaks this one: a record has the block's own bytes alone.
        Clause::GeneralEvents => {
            "GPE0_STS, GPE0_EN, GPE1_STS or GPE1_EN has a bit past the block's own bytes"
        }
        Clause::ArbDis => "PM2_CNT has ARB_DIS set, and PM2_CNT_BLK is zero",
        Clause::State => "STATE is neither 0 nor 5 nor a state of S1 to S4 that is present",
        Clause::Counter => {
            "PM_TMR is not below its size, 01000000 where bit 8 of FLAGS is clear"
        }
        Clause::Hold => {
            "HOLD is above 14,318,180 (00DA7A64), or at it while OVERRIDE is 1 and STATE is not 5"
        }
        Clause::Button => "BUTTON is 1, and no power button is fitted (bit 4 of FLAGS is set)",
        Clause::WakePin => "WAKE_PIN is 1, and no wake pin is fitted (bit 14 of FLAGS is clear)",
        Clause::Command => {
            "SMI_CMD is zero, and a COMMAND waits or SCI_EN (PM1a_CNT, PM1b_CNT) is clear"
        }
        Clause::Armed => "ARMED is 1, and STATE is not 0 or PM1b_CNT_BLK is zero",
        Clause::SlpTypB => "PM1b_CNT has a SLP_TYP, and PM1b_CNT_BLK is zero",
        // Nor these two.
        Clause::OneValue => "a field has a value that no text gives",
        Clause::GpePending => "what is stored of the general events is not what their bytes say",
    };
    println!(out; "{words}")
}
