// --at: the lines of the points whose numbers stand on standard input, one on a line.
use crate::form::Form;
use crate::program::{LINE, Program};
use crate::reader::Reader;
use crate::runner::{Points, Runner};
use crate::stop::Stop;
use crate::stream::Stream;
use crate::writer::Writer;

// Writes the heading, and a line for each number.
pub fn list(sweep: Program<'_>, form: Form, points: Points<'_>) -> Result<(), Stop> {
    form.head(sweep, Stream::Standard)?;
    let mut image = [0u16; names::PLAN_WORDS];
    let mut memory = [0u16; names::PLAN_WORDS];
    let mut runner = Runner::over(points, &mut image, &mut memory);
    list_all(sweep, form, &mut runner)
}

// A line for each number. A proved loop has to end, and nothing says that the input does, so the
// loop has a last turn that no run reaches.
fn list_all(sweep: Program<'_>, form: Form, runner: &mut Runner<'_>) -> Result<(), Stop> {
    let mut reader = Reader::over(sweep.rt, Stream::Standard);
    for line in 1..=u64::MAX {
        match reader.next() {
            Ok(Some(_)) => list_one(sweep, form, runner, line, reader.bytes())?,
            Ok(None) => return Ok(()),
            Err(e) => return Err(sweep.failed(b"standard input", e)),
        }
    }
    Ok(())
}

// The line of the point that a line of input names.
fn list_one(
    sweep: Program<'_>,
    form: Form,
    runner: &mut Runner<'_>,
    line: u64,
    word: &[u8],
) -> Result<(), Stop> {
    match text::parse(word) {
        Some(point) if point < runner.points.plan.points => form.write_one(sweep, runner, point),
        _ => Err(no_point(sweep, line, word)),
    }
}

// A line of input that names no point of the plan.
fn no_point(sweep: Program<'_>, line: u64, word: &[u8]) -> Stop {
    let mut space = [0u8; LINE];
    let mut words = Writer::over(&mut space);
    words
        .named(b"line ", line, b' ')
        .bytes(b"of standard input is not a point: ")
        .word(word)
        .bytes(b"\n");
    sweep.error(words.text())
}
