// The arguments of `sweep`.
ghost use Rattle.std.specs.Prelude.{◌<◌, ◌≤◌, IfOk};
ghost use Rattle.programs.specs.declared.program.TheConstants.{PATH};

use crate::form::Form;
use crate::program::{LINE, PATH, Program};
use crate::runner::PointRange;
use crate::stop::Stop;
use crate::writer::Writer;
use std::env::{Env, FillError};

// What the arguments ask for: help, the version, or something of the plan that an argument names.
#[derive(Clone, Copy)]
pub enum Asked {
    Help,
    Version,
    Plan(usize, Task),
}

// What is to be done with a plan: the points counted; some lines written; those of the points that
// standard input names; a file gone on with.
#[derive(Clone, Copy)]
pub enum Task {
    Count,
    List(Form, PointRange),
    At(Form),
    Resume(PointRange),
}

// The argument that names the file to go on with.
pub const FILE: usize = 3;

// The arguments; a line on standard error where they are bad.
pub fn read(sweep: Program<'_>) -> Result<Asked, Stop> {
    let argument = Argument::of(sweep.rt, 1);
    match argument.text() {
        b"--help" | b"-h" => Ok(Asked::Help),
        b"--version" => Ok(Asked::Version),
        b"--points" => {
            whole(sweep, 2)?;
            Ok(Asked::Plan(2, Task::Count))
        }
        b"--at" => at(sweep),
        b"--resume" => Ok(Asked::Plan(2, Task::Resume(range(sweep, 2, 4)?))),
        b"--experiments" => listed(sweep, Form::Values, 2),
        b"--fields" => listed(sweep, Form::Columns, 2),
        _ => listed(sweep, Form::Results, 1),
    }
}

// [--experiments | --fields] PLAN [FIRST COUNT], with the plan in an argument.
fn listed(sweep: Program<'_>, form: Form, plan: usize) -> Result<Asked, Stop> {
    let range = range(sweep, plan, plan.saturating_add(1))?;
    Ok(Asked::Plan(plan, Task::List(form, range)))
}

// --at [--experiments | --fields] PLAN.
fn at(sweep: Program<'_>) -> Result<Asked, Stop> {
    let argument = Argument::of(sweep.rt, 2);
    match argument.text() {
        b"--experiments" => at_in(sweep, Form::Values, 3),
        b"--fields" => at_in(sweep, Form::Columns, 3),
        _ => at_in(sweep, Form::Results, 2),
    }
}

// --at in a form, with the plan in an argument.
fn at_in(sweep: Program<'_>, form: Form, plan: usize) -> Result<Asked, Stop> {
    if let Err(stop) = whole(sweep, plan) {
        // A program of the name `-` is told this too: what is written may not change.
        in_file(sweep, 0)?;
        return Err(stop);
    }
    in_file(sweep, plan)?;
    Ok(Asked::Plan(plan, Task::At(form)))
}

// The plan of --at is a file: standard input has the points.
fn in_file(sweep: Program<'_>, plan: usize) -> Result<(), Stop> {
    if is(sweep.rt, plan, b"-") {
        return Err(sweep.error(b"--at takes PLAN from a file, and points from standard input\n"));
    }
    Ok(())
}

// How many arguments there are, where one names the plan.
fn with_plan(sweep: Program<'_>, plan: usize) -> Result<usize, Stop>
    ensures { IfOk result (λ n. plan < n) }
{
    let n = count(sweep.rt);
    if n <= plan {
        return Err(sweep.error(b"PLAN is missing (see sweep --help)\n"));
    }
    if is_option(sweep.rt, plan) {
        return Err(unknown(sweep, plan));
    }
    Ok(n)
}

// The plan, and nothing behind it.
fn whole(sweep: Program<'_>, plan: usize) -> Result<(), Stop> {
    match with_plan(sweep, plan)? - plan {
        1 => Ok(()),
        _ => Err(too_many(sweep)),
    }
}

// The plan, perhaps a file, and from argument `from` on nothing, or FIRST and COUNT.
fn range(sweep: Program<'_>, plan: usize, from: usize) -> Result<PointRange, Stop> {
    let n = with_plan(sweep, plan)?;
    if n < from {
        return Err(sweep.error(b"FILE is missing (see sweep --help)\n"));
    }
    match n - from {
        0 => Ok(PointRange::ALL),
        1 => Err(sweep.error(b"COUNT is missing (see sweep --help)\n")),
        2 => numbered(sweep, from),
        _ => Err(too_many(sweep)),
    }
}

// FIRST and COUNT, from an argument on.
fn numbered(sweep: Program<'_>, from: usize) -> Result<PointRange, Stop> {
    let Some(first) = number(sweep.rt, from) else {
        return Err(sweep.error(b"FIRST isn't a decimal number below 2^64\n"));
    };
    let Some(count) = number(sweep.rt, from.saturating_add(1)) else {
        return Err(sweep.error(b"COUNT isn't a decimal number below 2^64\n"));
    };
    Ok(PointRange { first, count })
}

fn too_many(sweep: Program<'_>) -> Stop {
    sweep.error(b"too many arguments (see sweep --help)\n")
}

// A word that begins with - and is no option.
fn unknown(sweep: Program<'_>, i: usize) -> Stop {
    let argument = Argument::of(sweep.rt, i);
    let mut space = [0u8; LINE];
    let mut words = Writer::over(&mut space);
    words.bytes(b"unknown option ").word(argument.text());
    words.bytes(b" (see sweep --help)\n");
    sweep.error(words.text())
}

// An argument's bytes, at the space's start.
#[derive(Drop)]
pub struct Argument {
    space: [u8; PATH],
    length: usize,
    ghost inside: { length ≤ PATH },
}

impl Argument {
    // Argument i: an empty one where there is none, and where it is longer than the space.
    pub fn of(rt: &HostRuntime, i: usize) -> Argument {
        let mut space = [0u8; PATH];
        let length = rt.arg(i, &mut space).unwrap_or(0);
        Argument { space, length }
    }

    pub fn text(&self) -> &[u8] {
        &self.space[..self.length]
    }
}

// How many arguments there are, the program's name among them. Each is asked for: no call of the
// library counts them and allocates nothing.
pub fn count(rt: &HostRuntime) -> usize {
    for i in 0..usize::MAX {
        if let Err(FillError::NotPresent) = rt.arg(i, &mut []) {
            return i;
        }
    }
    usize::MAX
}

// Is the argument this word?
pub fn is(rt: &HostRuntime, i: usize, word: &[u8]) -> bool {
    let argument = Argument::of(rt, i);
    argument.text() == word
}

// Does the argument begin with -, and is more than that?
pub fn is_option(rt: &HostRuntime, i: usize) -> bool {
    let argument = Argument::of(rt, i);
    matches!(argument.text(), [b'-', _, ..])
}

// The argument as a number.
pub fn number(rt: &HostRuntime, i: usize) -> Option<u64> {
    let argument = Argument::of(rt, i);
    text::parse(argument.text())
}
