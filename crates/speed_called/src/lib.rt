// The rows of steps once more, from two loops: with two callers a step is a function of its own, as a host has it, and not put into a loop.
#![tactic(auto)]

ghost use Rattle.std.specs.Prelude.{◌≡◌};
ghost use Rattle.speed_general.specs.GeneralRound.{general_run};
ghost use Rattle.speed_steps.specs.Rows.{steps_run};

// n steps of a row of `speed_steps`.
#[unsafe(no_mangle)]
pub extern "C" fn speed_called_steps(table: &[u8], base: u64, row: u32, n: u64) -> u64
    ensures { result ≡ steps_run table.now base row n }
{
    speed_steps::speed_run_steps(table, base, row, n)
}

// n steps of the general event round.
#[unsafe(no_mangle)]
pub extern "C" fn speed_called_general(table: &[u8], base: u64, n: u64) -> u64
    ensures { result ≡ general_run table.now base n }
{
    speed_general::speed_run_general(table, base, n)
}
