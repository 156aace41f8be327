// point PLAN N: one point in full, for a reader: its values in decimal and hexadecimal and taken
// apart, the answer in words, what the drawing leaves, and what the window leaves of the array.
use crate::arguments::Argument;
use crate::program::Program;
use crate::runner::{Points, Runner};
use crate::stop::Stop;
use crate::stream::Stream;
use crate::writer::Writer;
use crate::{arguments, input, version};
use operation::Operation;
use plan::{Plan, ROOM};
use settings::Settings;

// All that is told of a point has fewer bytes.
const SPACE: usize = 8192;

// What --help writes.
const HELP: &[u8] = b"\
point PLAN N shows point N of a plan in full. PLAN is a file, or - for standard input.\n\
Status: 0 done, 1 the plan is refused, 2 an error (one line on standard error).\n";

// Reads the arguments and the plan, and tells of the point.
pub fn told(point: Program<'_>) -> Result<(), Stop> {
    let rt = point.rt;
    let argument = Argument::of(rt, 1);
    match argument.text() {
        b"--help" | b"-h" => return point.lines(Stream::Standard, HELP),
        b"--version" => return version::tell(point),
        _ => {}
    }
    if arguments::count(rt) != 3 {
        return Err(point.error(b"usage: point PLAN N (see point --help)\n"));
    }
    if arguments::is_option(rt, 1) {
        return Err(point.error(b"unknown option (see point --help)\n"));
    }
    let Some(number) = arguments::number(rt, 2) else {
        return Err(point.error(b"N isn't a decimal number below 2^64\n"));
    };
    over_plan(point, number)
}

// Reads the plan, and tells of the point of this number.
fn over_plan(point: Program<'_>, number: u64) -> Result<(), Stop> {
    let mut table = [0u64; ROOM];
    let plan = input::plan_of(point, 1, &mut table)?;
    let points = Points {
        plan,
        table: &table,
    };
    match points.values(number) {
        Some(values) => tell(point, points, number, values),
        None => Err(point.no_point(number, plan.points)),
    }
}

// Runs the point, and writes all that is told of it.
fn tell(
    point: Program<'_>,
    points: Points<'_>,
    number: u64,
    values: [u64; names::COUNT],
) -> Result<(), Stop> {
    let s = settings::settings_of(&values);
    let op = operation::operation_of(points.plan.draw);
    let mut space = [0u8; SPACE];
    let mut text = Writer::over(&mut space);
    put_head(&mut text, points.plan, number);
    text.values(&values);
    put_run(&mut text, points, op, s, values[names::SEED]);
    text.arrays(op, s);
    point.lines(Stream::Standard, text.text())
}

// The point's number, the drawing and the memory.
fn put_head(text: &mut Writer<'_>, p: Plan, number: u64) {
    let drawings = names::drawings();
    let mut names = drawings.split(|c| *c == ascii::TAB);
    let name = names.nth(p.draw as usize).unwrap_or(&[]);
    text.named(b"point\t", number, b' ')
        .named(b"of ", p.points, ascii::LINE_END)
        .bytes(b"draw\t")
        .bytes(name)
        .bytes(b"\n")
        .named(b"memory\t", p.words, b' ')
        .bytes(b"words\n");
}

// What the drawing gives over the image of the seed.
fn put_run(text: &mut Writer<'_>, points: Points<'_>, op: Operation, s: Settings, seed: u64) {
    let mut image = [0u16; names::PLAN_WORDS];
    let mut memory = [0u16; names::PLAN_WORDS];
    let mut runner = Runner::over(points, &mut image, &mut memory);
    let (outcome, changed) = runner.drawn(op, s, seed);
    let time = fill_timing::fill_time(op, s, outcome.visited);
    text.outcome(outcome, changed, time.states);
}
