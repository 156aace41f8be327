// point PLAN N: shows one point of a plan in full; `point --help` says all.
#![tactic(auto)]

use std::process::ExitCode;

fn main(rt: HostRuntime) -> ExitCode {
    ExitCode::from(programs::point_main(&rt))
}
