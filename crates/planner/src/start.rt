ghost use Rattle.std.specs.Prelude.{◌≡◌, ◌⊎◌};
ghost use Rattle.std.specs.Process.{exit_status};

use crate::run::run;
use crate::words::words;
use std::process::ExitCode;

/// What `main` does: runs the program on the words of the command line and the standard streams. The status is that of
/// `run`.
pub fn start(rt: HostRuntime) -> ExitCode
    ensures { (exit_status result ≡ 0) ⊎ (exit_status result ≡ 1) }
{
    run(
        rt.alloc(),
        words(rt.alloc(), &rt),
        &mut rt.stdin(),
        &mut rt.stdout(),
        &mut rt.stderr(),
    )
    .code()
}
