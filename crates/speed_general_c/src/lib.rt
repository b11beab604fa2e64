// What a C program calls of `speed_general`: a library has no archive, and a static library is of no use to another crate.
#![tactic(auto)]

ghost use Rattle.std.specs.Prelude.{◌≡◌};
ghost use Rattle.speed_general.specs.GeneralRound.{general_run};
ghost use Rattle.speed_general.specs.LinesAlone.{lines_run};

// n steps of the general event round, on the machine of a table whose PM1 blocks begin at base.
#[unsafe(no_mangle)]
pub extern "C" fn speed_run_general(table: &[u8], base: u64, n: u64) -> u64
    ensures { result ≡ general_run table.now base n }
{
    speed_general::speed_run_general(table, base, n)
}

// n turns of the lines alone, with every general enable byte as given.
#[unsafe(no_mangle)]
pub extern "C" fn speed_run_lines(table: &[u8], enables: u8, n: u64) -> u64
    ensures { result ≡ lines_run table.now enables n }
{
    speed_general::speed_run_lines(table, enables, n)
}
