// What a line has of a point: its results, or in their place its fourteen values, or these with
// packed numbers taken apart.
ghost use Rattle.std.specs.Prelude.{◌+◌, ◌^◌, ◌<◌};

use crate::program::Program;
use crate::runner::{PointRange, Points, Runner};
use crate::stop::Stop;
use crate::stream::Stream;
use crate::writer::Writer;
use answers::Refused;
use put_lines::NUMBER;

// How many lines there are between writes.
const BATCH: u64 = 128;

// No line is longer, nor a heading: a point's number and its fourteen values, or its columns
// (columns::LINE), or its results (run::LINE).
pub const LINE: usize = (names::COUNT + 1) * NUMBER;

#[derive(Clone, Copy)]
pub enum Form {
    Results,
    Values,
    Columns,
}

impl Form {
    // Writes the heading.
    pub fn head(self, sweep: Program<'_>, to: Stream<'_>) -> Result<(), Stop> {
        let mut space = [0u8; LINE];
        let mut line = Writer::over(&mut space);
        match self {
            Form::Results => line.put(first_line::put_heading),
            Form::Values => line.put(first_line::put_names),
            Form::Columns => line.put(columns::put_heading),
        };
        sweep.line(to, line.text())
    }

    // Writes the lines of the points of a range, of their values alone, some at a time: in steps of
    // BATCH, the last one shorter (`step_by` does not give where a step ends).
    pub fn write_all(
        self,
        sweep: Program<'_>,
        points: Points<'_>,
        range: PointRange,
    ) -> Result<(), Stop>
        requires { range.first + range.count < 2 ^ 64 }
    {
        let end = range.first + range.count;
        let mut first = range.first;
        while first < end {
            let next = first.saturating_add(BATCH).min(end);
            self.write_some(sweep, points, first, next)?;
            first = next;
        }
        Ok(())
    }

    // The lines of at most BATCH points. One that does not fit leaves the text as it was.
    fn write_some(
        self,
        sweep: Program<'_>,
        points: Points<'_>,
        first: u64,
        end: u64,
    ) -> Result<(), Stop> {
        let mut space = [0u8; LINE * BATCH as usize];
        let mut lines = Writer::over(&mut space);
        for point in first..end {
            let before = lines.text().len();
            self.put(&mut lines, points, point);
            if lines.text().len() == before {
                return Err(sweep.not_listed(point, Refused::Arguments));
            }
        }
        sweep.lines(Stream::Standard, lines.text())
    }

    // Writes the line of a point.
    pub fn write_one(
        self,
        sweep: Program<'_>,
        runner: &mut Runner<'_>,
        point: u64,
    ) -> Result<(), Stop> {
        let mut space = [0u8; LINE];
        if let Form::Results = self {
            return sweep.line(Stream::Standard, runner.line(point, &mut space));
        }
        let mut line = Writer::over(&mut space);
        self.put(&mut line, runner.points, point);
        sweep.line(Stream::Standard, line.text())
    }

    // Puts the line of a point's values, where there is such a point.
    fn put(self, line: &mut Writer<'_>, points: Points<'_>, point: u64) {
        let Some(values) = points.values(point) else {
            return;
        };
        match self {
            Form::Columns => line.put(|out, at| columns::put(out, at, point, &values)),
            _ => line.put(|out, at| put_values(out, at, point, values)),
        };
    }
}

// A point's number and its fourteen values, in the order of the names.
fn put_values(out: &mut [u8], at: usize, point: u64, values: [u64; names::COUNT]) -> usize {
    let mut line = [point; names::COUNT + 1];
    line[1..].copy_from_slice(&values);
    put_lines::numbers(out, at, &line)
}
