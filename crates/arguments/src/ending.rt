// How a program ends: with a line on standard error that says what went wrong, and status 1, where it could not answer.
ghost use Rattle.std.specs.Prelude.{◌≡◌, if◌then◌else◌, is_ok};

use anyhow::Result;
use std::process::ExitCode;

// The status of a program that has answered, or could not; then the line is written, if it can be.
pub fn ended(rt: &HostRuntime, answered: Result<()>) -> ExitCode
    ensures { result ≡ (if is_ok answered then ExitCode.SUCCESS else ExitCode.FAILURE) }
{
    match answered {
        Ok(()) => ExitCode::SUCCESS,
        Err(why) => {
            let _ = eprintln!(rt; "{why:#}");
            ExitCode::FAILURE
        }
    }
}
