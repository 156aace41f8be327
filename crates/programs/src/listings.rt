// The listing of a plan, some points at a time: a batch is cut by the time that it takes.
ghost use Rattle.std.specs.Prelude.{◌+◌, ◌^◌, ◌<◌, ◌≤◌};
ghost use Rattle.programs.specs.Batch.{most_points};

use crate::form::Form;
use crate::program::Program;
use crate::progress;
use crate::progress::Progress;
use crate::runner::{PointRange, Points, Runner};
use crate::stop::Stop;
use crate::stream::Stream;
use crate::writer::Writer;
use plan::BadPlan;
use run::LINE;

// At most so many points are run between writes.
const BATCH: u64 = 1024;

// Fewer where they take longer than so many millionths of a second.
const LONG: u64 = 100000;

// Writes the line of a refused plan.
pub fn refused(sweep: Program<'_>, bad: BadPlan) -> Result<(), Stop> {
    let mut space = [0u8; LINE];
    let mut line = Writer::over(&mut space);
    let number = u64::from(u32::from(bad.refused));
    line.put(|out, at| first_line::put_refused(out, at, number, bad.line));
    sweep.line(Stream::Standard, line.text())
}

// Writes the lines of the points of a range in a form, with the heading where they are the first.
pub fn list(
    sweep: Program<'_>,
    form: Form,
    points: Points<'_>,
    range: PointRange,
) -> Result<(), Stop> {
    let range = points.in_range(sweep, range)?;
    if range.first == 0 {
        form.head(sweep, Stream::Standard)?;
    }
    match form {
        Form::Results => run_these(sweep, points, range),
        _ => form.write_all(sweep, points, range),
    }
}

// Runs the points of a range.
fn run_these(sweep: Program<'_>, points: Points<'_>, range: PointRange) -> Result<(), Stop>
    requires { range.first + range.count < 2 ^ 64 }
{
    let mut image = [0u16; names::PLAN_WORDS];
    let mut memory = [0u16; names::PLAN_WORDS];
    let mut runner = Runner::over(points, &mut image, &mut memory);
    run_all(sweep, Stream::Standard, &mut runner, range, 0)
}

// Writes the lines of the points of a range, the first `before` of them left out. How many are run
// next is known only when the last ones are done, so no range has these steps.
pub fn run_all(
    sweep: Program<'_>,
    to: Stream<'_>,
    runner: &mut Runner<'_>,
    range: PointRange,
    before: u64,
) -> Result<(), Stop>
    requires { (range.first + range.count < 2 ^ 64) × (before ≤ range.count) }
{
    let mut shown = Progress::start(sweep.rt, to, before, range.count);
    let mut begun = progress::spent(sweep.rt);
    let mut batch: u64 = 1;
    let mut done = before;
    while done < range.count {
        let count = batch.min(range.count - done);
        let first = range.first + done;
        run_some(sweep, to, runner, PointRange { first, count })?;
        done += count;
        let ended = progress::spent(sweep.rt);
        batch = next_batch(batch, ended.saturating_sub(begun));
        begun = ended;
        if let Some(progress) = &mut shown {
            progress.tell(done);
        }
    }
    if let Some(progress) = shown {
        progress.end(done);
    }
    Ok(())
}

// How many points to run next, after so many that took so long: at least one, at most BATCH.
fn next_batch(batch: u64, took: u64) -> u64
    ensures { (0 < result) × (result ≤ most_points) }
{
    if LONG < took {
        return batch.min(BATCH) / 2 + 1;
    }
    if batch < BATCH / 2 {
        return batch + batch + 1;
    }
    BATCH
}

// The lines of at most BATCH points.
fn run_some(
    sweep: Program<'_>,
    to: Stream<'_>,
    runner: &mut Runner<'_>,
    range: PointRange,
) -> Result<(), Stop>
    requires { range.count ≤ most_points }
{
    let mut space = [0u8; LINE * BATCH as usize];
    let n = runner
        .lines(range, &mut space)
        .map_err(|r| sweep.not_listed(range.first, r))?;
    sweep.lines(to, &space[..n])
}
