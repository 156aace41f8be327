// A program: the system that it runs on, and its name; what it writes in whole lines, and its
// errors, each one line on standard error that begins with the name.
ghost use Rattle.std.specs.Prelude.{◌<◌, ◌≤◌, length, IfOk};

use crate::stop::Stop;
use crate::stream;
use crate::stream::Stream;
use crate::writer::Writer;
use answers::Refused;
use std::fmt::InlineText;
use std::io;

// A path is no longer, and no other argument that is read.
pub const PATH: usize = 4096;

// A message is no longer, but for a path in it.
pub const LINE: usize = 256;

// A message with a path in it is no longer.
pub const MESSAGE: usize = PATH + LINE;

// No error of the system's is told in more bytes.
const WORDS: usize = 160;

#[derive(Clone, Copy)]
pub struct Program<'a> {
    pub rt: &'a HostRuntime,
    pub name: &'a str,
}

impl Program<'_> {
    // An error, in these words, which end the line. Bytes and no format: a path or a word of the
    // user's need not be text in UTF-8.
    pub fn error(self, words: &[u8]) -> Stop {
        let mut space = [0u8; MESSAGE];
        let mut line = Writer::over(&mut space);
        line.bytes(self.name.as_bytes()).bytes(b": ").bytes(words);
        stream::complain(self.rt, line.text());
        Stop::Error
    }

    // A call of the system's over something failed: why, in the system's words.
    pub fn failed(self, what: &[u8], e: io::Error) -> Stop {
        let told = InlineText::<WORDS>::of(e);
        let words = told.as_str().as_bytes();
        let why = if e.raw_os_error().is_some() {
            without_number(words)
        } else {
            words
        };
        let mut space = [0u8; MESSAGE];
        let mut line = Writer::over(&mut space);
        line.path(what).bytes(b": ").bytes(why).bytes(b"\n");
        self.error(line.text())
    }

    // A point that the plan does not have.
    pub fn no_point(self, point: u64, count: u64) -> Stop {
        let name = self.name;
        let _ = eprintln!(self.rt;
            "{name}: refused, 24: point {point} isn't below the plan's count, {count}"
        );
        Stop::Error
    }

    // Lines that a call of the proved libraries did not put. (One function for this and `no_point`
    // would be handed both messages whole.)
    pub fn not_listed(self, first: u64, refused: Refused) -> Stop {
        let name = self.name;
        let number = u32::from(refused);
        let _ = eprintln!(self.rt; "{name}: refused, {number}: the lines from point {first} on");
        Stop::Error
    }

    // Writes whole lines; where that fails, no part of a line is left in a file. A loop, since
    // `write_all` does not say how much was written.
    pub fn lines(self, to: Stream<'_>, bytes: &[u8]) -> Result<(), Stop> {
        let mut rest = bytes;
        while !rest.is_empty() {
            match written(self.rt, to, rest) {
                Ok(n) => rest = &rest[n..],
                Err(e) => {
                    let stop = self.failed(to.name(), e);
                    stream::cut(self.rt, to, unfinished(&bytes[..bytes.len() - rest.len()]));
                    return Err(stop);
                }
            }
        }
        Ok(())
    }

    // Writes a line that was put, if it did fit.
    pub fn line(self, to: Stream<'_>, line: &[u8]) -> Result<(), Stop> {
        if line.is_empty() {
            return Err(self.not_listed(0, Refused::Arguments));
        }
        self.lines(to, line)
    }
}

// An error of the system's is told with its number behind it, as ` (os error 2)`: without that.
fn without_number(words: &[u8]) -> &[u8] {
    let end = words.windows(2).rposition(|pair| pair == b" (".as_slice());
    &words[..end.unwrap_or(words.len())]
}

// Writes some of the bytes, one at least.
fn written(rt: &HostRuntime, to: Stream<'_>, bytes: &[u8]) -> io::Result<usize>
    ensures { IfOk result (λ n. (0 < n) × (n ≤ length bytes.now)) }
{
    let n = stream::write(rt, to, bytes)?;
    if n == 0 {
        return Err(io::Error::from(io::ErrorKind::WriteZero));
    }
    Ok(n)
}

// How many bytes stand behind the last line's end.
fn unfinished(bytes: &[u8]) -> u64 {
    let torn = bytes.iter().rev().take_while(|b| **b != ascii::LINE_END);
    torn.count() as u64
}
