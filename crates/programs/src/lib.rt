// The programs `sweep` and `point`. Each is a function that hands back the exit status: 0 done, 1
// the plan is refused, 2 an error, which is one line on standard error. The crates `sweep` and
// `point` call them, each as a program of its own, so that a program is one process with a status.
//
// Buffers are arrays, and how much of one is used stands beside it: nothing is allocated.
#![tactic(auto)]

ghost use Rattle.std.specs.Prelude.{◌≤◌};

mod arguments;
mod descriptors;
mod faces;
mod form;
mod help;
mod input;
mod listings;
mod point;
mod program;
mod progress;
mod reader;
mod reason;
mod resume;
mod runner;
mod sample;
mod stop;
mod stream;
mod sweep;
mod version;
mod writer;

use program::Program;

// sweep: see help.rt.
pub fn sweep_main(rt: &HostRuntime) -> u8
    ensures { result ≤ 2 }
{
    descriptors::guard(rt);
    let sweep = Program { rt, name: "sweep" };
    stop::status(sweep::swept(sweep))
}

// point PLAN N: one point in full.
pub fn point_main(rt: &HostRuntime) -> u8
    ensures { result ≤ 2 }
{
    descriptors::guard(rt);
    let point = Program { rt, name: "point" };
    stop::status(point::told(point))
}
