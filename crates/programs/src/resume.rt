// --resume: goes on with a file that is a beginning of the listing. Every line of the file is held
// against a dry run of its point, which tells all but `changed`. The lines of the first second,
// some spread over the file and the last one are run again and compared whole.
ghost use Rattle.std.specs.Prelude.{◌+◌, ◌^◌, ◌<◌};

use crate::arguments::{Argument, FILE};
use crate::form::Form;
use crate::program::{MESSAGE, Program};
use crate::reader::{Piece, Reader};
use crate::runner::{PointRange, Points, Runner};
use crate::stop::Stop;
use crate::stream::Stream;
use crate::writer::Writer;
use crate::{input, listings, progress};
use run::LINE;
use std::fs::{File, OpenOptions};
use std::io;
use std::io::{Seek, SeekFrom};
use std::os::unix::fs::FileExt;

// For so many millionths of a second every line is run again, and then for so many some lines; the
// last one is in any case.
const SOON: u64 = 1000000;

const ENOUGH: u64 = 10000000;

// Goes on with FILE, which is made where it is missing.
pub fn go_on(sweep: Program<'_>, points: Points<'_>, range: PointRange) -> Result<(), Stop> {
    let range = points.in_range(sweep, range)?;
    let argument = Argument::of(sweep.rt, FILE);
    let path = argument.text();
    let file = opened(sweep.rt, path).map_err(|e| sweep.failed(path, e))?;
    go_on_with(sweep, &file, path, points, range)
}

// The file, open for reading and writing, and at its start.
fn opened(rt: &HostRuntime, path: &[u8]) -> io::Result<File> {
    at_start(opened_or_made(rt, input::path_of(path)?)?)
}

// A file that can be gone about in, at its start. Not so a pipe or a terminal.
fn at_start(file: File) -> io::Result<File> {
    let mut at = &file;
    at.seek(SeekFrom::End(0))?;
    at.seek(SeekFrom::Start(0))?;
    Ok(file)
}

fn opened_or_made(rt: &HostRuntime, path: &str) -> io::Result<File> {
    match opened_for_both(rt, path) {
        Err(e) if e.kind() == io::ErrorKind::NotFound => {
            OpenOptions::new()
                .write(true)
                .create_new(true)
                .open(rt, path)?;
            opened_for_both(rt, path)
        }
        file => file,
    }
}

fn opened_for_both(rt: &HostRuntime, path: &str) -> io::Result<File> {
    OpenOptions::new().read(true).write(true).open(rt, path)
}

// Goes on with an open file.
fn go_on_with(
    sweep: Program<'_>,
    file: &File,
    path: &[u8],
    points: Points<'_>,
    range: PointRange,
) -> Result<(), Stop>
    requires { range.first + range.count < 2 ^ 64 }
{
    let mut image = [0u16; names::PLAN_WORDS];
    let mut memory = [0u16; names::PLAN_WORDS];
    let mut runner = Runner::over(points, &mut image, &mut memory);
    let resumed = Resumed {
        sweep,
        file,
        path,
        range,
    };
    resumed.go_on(&mut runner)
}

// A file to go on with, its path, and the points whose lines it is to have.
#[derive(Clone, Copy)]
struct Resumed<'a> {
    sweep: Program<'a>,
    file: &'a File,
    path: &'a [u8],
    range: PointRange,
}

// What a file that is a beginning holds: how many points' lines and how many bytes in whole lines,
// where the last of these starts, and does part of a line follow?
#[derive(Clone, Copy)]
struct Held {
    points: u64,
    bytes: u64,
    last: u64,
    torn: bool,
}

// What stands where a line of the file is to stand: the line, which has so many bytes with its end;
// the beginning of it; or nothing.
#[derive(Clone, Copy)]
enum Found {
    Line(u64),
    Torn,
    Nothing,
}

impl Resumed<'_> {
    // Goes on behind the whole lines, where the file is a beginning.
    fn go_on(self, runner: &mut Runner<'_>) -> Result<(), Stop>
        requires { self.range.first + self.range.count < 2 ^ 64 }
    {
        let held = self.held(runner)?;
        at_end(self.file, held).map_err(|e| self.failed(e))?;
        let to = Stream::File(self.file);
        if held.bytes == 0 && self.range.first == 0 {
            Form::Results.head(self.sweep, to)?;
        }
        let before = held.points.min(self.range.count);
        listings::run_all(self.sweep, to, runner, self.range, before)
    }

    // What the file holds; a line on standard error where it is no beginning.
    fn held(self, runner: &mut Runner<'_>) -> Result<Held, Stop> {
        let mut reader = Reader::over(self.sweep.rt, Stream::File(self.file));
        let mut held = Held {
            points: 0,
            bytes: 0,
            last: 0,
            torn: false,
        };
        if self.range.first == 0 {
            match self.heading(&mut reader)? {
                Found::Line(bytes) => held.bytes = bytes,
                found => {
                    held.torn = found.is_torn();
                    return Ok(held);
                }
            }
        }
        let held = self.points_in(&mut reader, runner, held)?;
        self.last_again(runner, held)
    }

    // The heading.
    fn heading(self, reader: &mut Reader<'_>) -> Result<Found, Stop> {
        let mut space = [0u8; LINE];
        let mut heading = Writer::over(&mut space);
        heading.put(first_line::put_heading);
        let Some(piece) = self.next(reader)? else {
            return Ok(Found::Nothing);
        };
        let line = reader.bytes();
        let fits = match piece {
            Piece::Line => is_line(line, heading.text()),
            Piece::Torn => starts(heading.text(), line),
            Piece::Long => false,
        };
        self.found(fits, piece, line, 1)
    }

    // The lines of the points, behind what the file holds before them.
    fn points_in(
        self,
        reader: &mut Reader<'_>,
        runner: &mut Runner<'_>,
        before: Held,
    ) -> Result<Held, Stop> {
        let mut held = before;
        let mut again: u64 = 0;
        for k in 0..self.range.count {
            match self.point(reader, runner, k, again)? {
                Found::Line(bytes) => {
                    held.last = held.bytes;
                    held.bytes = held.bytes.saturating_add(bytes);
                    held.points = k + 1;
                }
                found => {
                    held.torn = found.is_torn();
                    return Ok(held);
                }
            }
            again = next_again(k, again);
        }
        self.all_in(reader)?;
        Ok(held)
    }

    // The line of the point k of the range.
    fn point(
        self,
        reader: &mut Reader<'_>,
        runner: &mut Runner<'_>,
        k: u64,
        again: u64,
    ) -> Result<Found, Stop> {
        let Some(piece) = self.next(reader)? else {
            return Ok(Found::Nothing);
        };
        let line = reader.bytes();
        let point = self.range.first.wrapping_add(k);
        let fits = match piece {
            Piece::Line => {
                let whole = is_run_again(k, again, progress::spent(self.sweep.rt));
                runner.points.could_be(point, line) && (!whole || is_own(runner, point, line))
            }
            Piece::Torn => begins_line(runner, point, line),
            Piece::Long => false,
        };
        self.found(fits, piece, line, self.line_number(k))
    }

    // Behind the lines of all points there must be nothing more.
    fn all_in(self, reader: &mut Reader<'_>) -> Result<(), Stop> {
        match self.next(reader)? {
            None => Ok(()),
            Some(_) => Err(self.no_beginning(self.line_number(self.range.count))),
        }
    }

    // The last whole line of a beginning, run again.
    fn last_again(self, runner: &mut Runner<'_>, held: Held) -> Result<Held, Stop> {
        if held.points == 0 {
            return Ok(held);
        }
        let mut line = [0u8; LINE];
        let n = self.file.read_at(&mut line, held.last).unwrap_or(0);
        let whole = text::part(&line[..n], 0, ascii::LINE_END);
        let k = held.points - 1;
        if is_own(runner, self.range.first.wrapping_add(k), whole) {
            return Ok(held);
        }
        Err(self.no_beginning(self.line_number(k)))
    }

    // The next piece of the file.
    fn next(self, reader: &mut Reader<'_>) -> Result<Option<Piece>, Stop> {
        reader.next().map_err(|e| self.failed(e))
    }

    // What a piece is, which fits or not where the line of a number is to stand.
    fn found(self, fits: bool, piece: Piece, line: &[u8], number: u64) -> Result<Found, Stop> {
        if !fits {
            return Err(self.no_beginning(number));
        }
        match piece {
            Piece::Line => Ok(Found::Line((line.len() as u64).saturating_add(1))),
            _ => Ok(Found::Torn),
        }
    }

    // The number of the file's line that the point k of the range should have.
    fn line_number(self, k: u64) -> u64 {
        let heading = u64::from(self.range.first == 0);
        k.wrapping_add(1).wrapping_add(heading)
    }

    // A file that is no beginning, by one of its lines, counted from 1.
    fn no_beginning(self, line: u64) -> Stop {
        let mut space = [0u8; MESSAGE];
        let mut words = Writer::over(&mut space);
        words
            .path(self.path)
            .bytes(b": not a beginning of the listing: line ")
            .number(line, ascii::LINE_END);
        self.sweep.error(words.text())
    }

    // A file that could not be gone on with.
    fn failed(self, e: io::Error) -> Stop {
        self.sweep.failed(self.path, e)
    }
}

impl Found {
    fn is_torn(self) -> bool {
        matches!(self, Found::Torn)
    }
}

// Cuts the file behind its whole lines where part of a line follows, and goes to its end.
fn at_end(file: &File, held: Held) -> io::Result<()> {
    if held.torn {
        file.set_len(held.bytes)?;
    }
    let mut at = file;
    let _ = at.seek(SeekFrom::End(0));
    Ok(())
}

// Is a line, without its end, this one with its end?
fn is_line(line: &[u8], whole: &[u8]) -> bool {
    whole
        .split_last()
        .is_some_and(|(_, without_end)| line == without_end)
}

// Are these the first bytes of a line, and not all of them?
fn starts(line: &[u8], bytes: &[u8]) -> bool {
    bytes.len() < line.len() && line.starts_with(bytes)
}

// Is a line run again, after so long a time? All are at first, and then some.
fn is_run_again(k: u64, again: u64, spent: u64) -> bool {
    spent < SOON || (k == again && spent < ENOUGH)
}

// Which line is run again next, if not all are: one half further on.
fn next_again(k: u64, again: u64) -> u64 {
    if k < again {
        return again;
    }
    if u64::MAX / 2 <= k {
        return again;
    }
    k + k / 2 + 1
}

// Is a line that of a point? The point is run.
fn is_own(runner: &mut Runner<'_>, point: u64, line: &[u8]) -> bool {
    let mut space = [0u8; LINE];
    is_line(line, runner.line(point, &mut space))
}

// Is it the beginning of a point's line?
fn begins_line(runner: &mut Runner<'_>, point: u64, torn: &[u8]) -> bool {
    let mut space = [0u8; LINE];
    starts(runner.line(point, &mut space), torn)
}
