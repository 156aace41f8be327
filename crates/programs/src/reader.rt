// A text that is read from a stream line by line.
ghost use Rattle.std.specs.Prelude.{◌≡◌, ◌-◌, ◌≤◌, length};
ghost use Rattle.programs.specs.declared.reader.TheConstants.{SPACE};

use crate::stream;
use crate::stream::Stream;
use std::io;

// No line is longer.
const SPACE: usize = 65536;

// What was read: of the buffer's bytes, those from `line` up to `to` are the last piece, and those
// from `from` up to `end` are not yet handed out.
#[derive(Drop)]
pub struct Reader<'a> {
    rt: &'a HostRuntime,
    stream: Stream<'a>,
    buffer: [u8; SPACE],
    line: usize,
    to: usize,
    from: usize,
    end: usize,
    ghost piece: { (line ≤ to) × (to ≤ SPACE) },
    ghost rest: { (from ≤ end) × (end ≤ SPACE) },
}

// A line; a last one that no line end ends; or the beginning of one that is longer than the buffer.
#[derive(Clone, Copy)]
pub enum Piece {
    Line,
    Torn,
    Long,
}

impl<'a> Reader<'a> {
    pub fn over(rt: &'a HostRuntime, stream: Stream<'a>) -> Reader<'a> {
        Reader {
            rt,
            stream,
            buffer: [0; SPACE],
            line: 0,
            to: 0,
            from: 0,
            end: 0,
        }
    }
}

impl Reader<'_> {
    // The bytes of the last piece, without a line end.
    pub fn bytes(&self) -> &[u8] {
        &self.buffer[self.line..self.to]
    }

    // The next piece, or nothing at the end. Where a line is not whole in the buffer, its bytes are
    // moved to the front and more is read.
    pub fn next(&mut self) -> io::Result<Option<Piece>> {
        loop {
            let rest = &self.buffer[self.from..self.end];
            if let Some(n) = rest.iter().position(|b| *b == ascii::LINE_END) {
                self.line = self.from;
                self.to = self.from + n;
                self.from = self.to + 1;
                return Ok(Some(Piece::Line));
            }
            self.end = moved(&mut self.buffer, self.from, self.end);
            self.from = 0;
            if self.end == SPACE {
                return Ok(Some(self.last(Piece::Long)));
            }
            let n = stream::read(self.rt, self.stream, &mut self.buffer[self.end..])?;
            if n == 0 && self.end == 0 {
                return Ok(None);
            }
            if n == 0 {
                return Ok(Some(self.last(Piece::Torn)));
            }
            self.end += n;
        }
    }

    // All that is left, as a piece.
    fn last(&mut self, piece: Piece) -> Piece {
        self.line = self.from;
        self.to = self.end;
        self.from = self.end;
        piece
    }
}

// Moves the bytes from `from` up to `end` to the front, and gives how many they are.
fn moved(buffer: &mut [u8], from: usize, end: usize) -> usize
    requires { (from ≤ end) × (end ≤ length buffer.old) }
    ensures { (result ≡ end - from)
        × (length buffer.new ≡ length buffer.old) }
{
    buffer.copy_within(from..end, 0);
    end - from
}
