// sweep: runs every point of a plan; `sweep --help` says all.
#![tactic(auto)]

use std::process::ExitCode;

fn main(rt: HostRuntime) -> ExitCode {
    ExitCode::from(programs::sweep_main(&rt))
}
