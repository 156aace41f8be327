// sweep: a plan read and run, by the proved libraries.
use crate::arguments::{Asked, Task};
use crate::program::Program;
use crate::runner::{PointRange, Points};
use crate::stop::Stop;
use crate::stream::Stream;
use crate::writer::Writer;
use crate::{arguments, help, input, listings, resume, sample, version};
use plan::{BadPlan, ROOM};

// Reads the arguments, and does what they ask for.
pub fn swept(sweep: Program<'_>) -> Result<(), Stop> {
    match arguments::read(sweep)? {
        Asked::Help => help::tell(sweep),
        Asked::Version => version::tell(sweep),
        Asked::Plan(i, task) => over_plan(sweep, i, task),
    }
}

// Reads the plan, and does what is asked for of it.
fn over_plan(sweep: Program<'_>, i: usize, task: Task) -> Result<(), Stop> {
    let mut table = [0u64; ROOM];
    match input::plan_of(sweep, i, &mut table) {
        Ok(plan) => done(
            sweep,
            task,
            Points {
                plan,
                table: &table,
            },
        ),
        Err(Stop::Refused(bad)) => refused(sweep, task, bad),
        Err(stop) => Err(stop),
    }
}

// A refused plan has its line in the listing's place, where its start is asked for.
fn refused(sweep: Program<'_>, task: Task, bad: BadPlan) -> Result<(), Stop> {
    match task {
        Task::At(_) | Task::List(_, PointRange { first: 0, .. }) => listings::refused(sweep, bad)?,
        _ => {}
    }
    Err(Stop::Refused(bad))
}

// What is asked for of an accepted plan.
fn done(sweep: Program<'_>, task: Task, points: Points<'_>) -> Result<(), Stop> {
    match task {
        Task::Count => count(sweep, points.plan.points),
        Task::List(form, range) => listings::list(sweep, form, points, range),
        Task::At(form) => sample::list(sweep, form, points),
        Task::Resume(range) => resume::go_on(sweep, points, range),
    }
}

// The count of points.
fn count(sweep: Program<'_>, count: u64) -> Result<(), Stop> {
    let mut space = [0u8; put_lines::NUMBER];
    let mut line = Writer::over(&mut space);
    line.number(count, ascii::LINE_END);
    sweep.line(Stream::Standard, line.text())
}
