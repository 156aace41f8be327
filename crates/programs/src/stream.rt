// What is read and written: a standard stream, or a file.
ghost use Rattle.std.specs.Io.{ReadsAtMost, WritesAtMost};

use std::fs::{File, OpenOptions};
use std::io::{IsTerminal, Read, Seek, SeekFrom, Write};
use std::{fs, io};

// Standard input where it is read, and standard output where it is written; or a file.
#[derive(Clone, Copy)]
pub enum Stream<'a> {
    Standard,
    File(&'a File),
}

impl Stream<'_> {
    // What it is called where a write to it fails.
    pub fn name(self) -> &'static [u8] {
        match self {
            Stream::Standard => b"standard output",
            Stream::File(_) => b"FILE",
        }
    }
}

// Reads some bytes: none at the end.
pub fn read(rt: &HostRuntime, from: Stream<'_>, buffer: &mut [u8]) -> io::Result<usize>
    ensures { ReadsAtMost result buffer.new }
{
    match from {
        Stream::Standard => rt.stdin().read(buffer),
        Stream::File(mut file) => file.read(buffer),
    }
}

// Writes some of the bytes.
pub fn write(rt: &HostRuntime, to: Stream<'_>, bytes: &[u8]) -> io::Result<usize>
    ensures { WritesAtMost result bytes.now }
{
    match to {
        Stream::Standard => rt.stdout().write(bytes),
        Stream::File(mut file) => file.write(bytes),
    }
}

// Is it a terminal that is written to?
pub fn is_terminal(rt: &HostRuntime, to: Stream<'_>) -> bool {
    match to {
        Stream::Standard => rt.stdout().is_terminal(),
        Stream::File(file) => file.is_terminal(),
    }
}

// Writes to standard error. What cannot be written there is let go.
pub fn complain(rt: &HostRuntime, bytes: &[u8]) {
    let _ = Print::write_all(&rt.stderr(), bytes);
}

// Cuts so many bytes off the end of a file, where it is written at its end.
pub fn cut(rt: &HostRuntime, to: Stream<'_>, bytes: u64) {
    match to {
        Stream::Standard => cut_standard(rt, bytes),
        Stream::File(file) => cut_file(file, bytes),
    }
}

fn cut_file(file: &File, bytes: u64) {
    let mut file = file;
    let Ok(at) = file.seek(SeekFrom::Current(0)) else {
        return;
    };
    let Ok(end) = file.seek(SeekFrom::End(0)) else {
        return;
    };
    if at != end {
        let _ = file.seek(SeekFrom::Start(at));
        return;
    }
    if bytes <= at {
        let _ = file.set_len(at - bytes);
        let _ = file.seek(SeekFrom::End(0));
    }
}

// The file behind standard output is opened once more to be cut. Only a plain file is: to open a
// pipe could wait.
fn cut_standard(rt: &HostRuntime, bytes: u64) {
    let Ok(found) = fs::metadata(rt, "/proc/self/fd/1") else {
        return;
    };
    if !found.is_file() {
        return;
    }
    let length = found.len();
    if length < bytes || !is_place(rt, length) {
        return;
    }
    if let Ok(file) = OpenOptions::new().write(true).open(rt, "/proc/self/fd/1") {
        let _ = file.set_len(length - bytes);
    }
}

// Is this the place where standard output goes on? The system tells it in a line `pos:`, a tab and
// the number.
fn is_place(rt: &HostRuntime, place: u64) -> bool {
    let mut told = [0u8; 64];
    let Ok(file) = File::open(rt, "/proc/self/fdinfo/1") else {
        return false;
    };
    let Ok(n) = read(rt, Stream::File(&file), &mut told) else {
        return false;
    };
    let line = text::part(&told[..n], 0, ascii::LINE_END);
    text::parse(tabs::second(line)) == Some(place)
}
