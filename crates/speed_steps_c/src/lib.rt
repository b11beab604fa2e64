// What a C program calls of `speed_steps`: a library has no archive, and a static library is of no use to another crate.
#![tactic(auto)]

ghost use Rattle.std.specs.Prelude.{◌≡◌};
ghost use Rattle.speed_steps.specs.Rows.{steps_run};
ghost use Rattle.speed_steps.specs.SetUps.{set_ups_of};

// n steps of a row, on the machine of a table whose PM1 blocks begin at base.
#[unsafe(no_mangle)]
pub extern "C" fn speed_run_steps(table: &[u8], base: u64, row: u32, n: u64) -> u64
    ensures { result ≡ steps_run table.now base row n }
{
    speed_steps::speed_run_steps(table, base, row, n)
}

#[unsafe(no_mangle)]
pub extern "C" fn speed_run_set_up(table: &[u8], n: u64) -> u64
    ensures { result ≡ set_ups_of table.now n 0 }
{
    speed_steps::speed_run_set_up(table, n)
}
