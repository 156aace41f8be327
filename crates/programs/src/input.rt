// The plan's text, and the plan.
ghost use Rattle.std.specs.Prelude.{◌≤◌, length, IfOk};

use crate::arguments::Argument;
use crate::program::Program;
use crate::stop::Stop;
use crate::stream::Stream;
use crate::{arguments, reason, stream};
use plan::{Plan, TEXT};
use std::fs::File;
use std::io;

// A byte more than a plan's text may have.
const SPACE: usize = TEXT + 1;

// Reads the plan that argument i names, with its axes into the table; a line on standard error
// where that fails, or where the plan is refused.
pub fn plan_of(program: Program<'_>, i: usize, table: &mut [u64]) -> Result<Plan, Stop> {
    let mut space = [0u8; SPACE];
    let n = read_argument(program, i, &mut space)?;
    let text = &space[..n];
    plan::read(text, table).map_err(|bad| {
        reason::tell(program.rt, i, text, bad);
        Stop::Refused(bad)
    })
}

// Reads what argument i names into the buffer, as much of it as fits, and gives how many bytes.
fn read_argument(program: Program<'_>, i: usize, buffer: &mut [u8]) -> Result<usize, Stop>
    ensures { IfOk result (λ n. n ≤ length buffer.new) }
{
    if arguments::is(program.rt, i, b"-") {
        return read_text(program, Stream::Standard, b"standard input", buffer);
    }
    let argument = Argument::of(program.rt, i);
    let path = argument.text();
    let file = opened(program.rt, path).map_err(|e| program.failed(path, e))?;
    read_text(program, Stream::File(&file), path, buffer)
}

// A file, open for reading.
pub fn opened(rt: &HostRuntime, path: &[u8]) -> io::Result<File> {
    File::open(rt, path_of(path)?)
}

// The error of a path that is no text in UTF-8: the system's calls take none.
const NO_TEXT: i32 = 84;

// A path as text.
pub fn path_of(path: &[u8]) -> io::Result<&str> {
    str::from_utf8(path).map_err(|_| io::Error::from_raw_os_error(NO_TEXT))
}

// Reads a text, as much of it as fits; a line on standard error where that fails.
fn read_text(
    program: Program<'_>,
    from: Stream<'_>,
    name: &[u8],
    buffer: &mut [u8],
) -> Result<usize, Stop>
    ensures { IfOk result (λ n. n ≤ length buffer.new) }
{
    let (n, ended) = read_full(program.rt, from, buffer);
    ended.map_err(|e| program.failed(name, e))?;
    Ok(n)
}

// Reads until the buffer is full, the input ends or a read fails: how many bytes it put at the
// buffer's start, and whether all went well. A loop, since `read_exact` does not say how many came
// before the end. `vectors` has its own: no crate below both reads.
pub fn read_full(rt: &HostRuntime, from: Stream<'_>, buffer: &mut [u8]) -> (usize, io::Result<()>)
    ensures { result.0 ≤ length buffer.new }
{
    let mut done = 0;
    while done < buffer.len() {
        match stream::read(rt, from, &mut buffer[done..]) {
            Ok(0) => break,
            Ok(n) => done += n,
            Err(e) => return (done, Err(e)),
        }
    }
    (done, Ok(()))
}
