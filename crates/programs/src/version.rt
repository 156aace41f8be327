// --version: the file NAME.version that stands in lib/buckethare beside the program's folder.
use crate::input;
use crate::program::{PATH, Program};
use crate::stop::Stop;
use crate::stream::Stream;
use crate::writer::Writer;
use std::env;

// Writes the file to standard output; a line on standard error where it is not there.
pub fn tell(program: Program<'_>) -> Result<(), Stop> {
    let place = env::current_exe(program.rt).map_err(|e| program.failed(b"/proc/self/exe", e))?;
    tell_beside(program, place.as_str().as_bytes())
}

// Writes the version of the program at this place: its folder, and its name behind the last /.
fn tell_beside(program: Program<'_>, place: &[u8]) -> Result<(), Stop> {
    let end = place.iter().rposition(|c| *c == b'/').unwrap_or(0);
    let (folder, name) = place.split_at(end);
    let mut space = [0u8; 2 * PATH];
    let mut path = Writer::over(&mut space);
    path.bytes(folder)
        .bytes(b"/../lib/buckethare")
        .bytes(name)
        .bytes(b".version");
    copied(program, path.text())
}

// Writes a small file to standard output.
fn copied(program: Program<'_>, path: &[u8]) -> Result<(), Stop> {
    let file = input::opened(program.rt, path).map_err(|e| program.failed(path, e))?;
    let mut space = [0u8; PATH];
    let (n, _) = input::read_full(program.rt, Stream::File(&file), &mut space);
    program.lines(Stream::Standard, &space[..n])
}
