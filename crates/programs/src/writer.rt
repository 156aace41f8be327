// A message, or some lines, put piece by piece into a lent buffer. A piece that does not fit whole
// is left out, but for words of the user's.

use crate::program::PATH;

// So much of a word is shown.
const WORD: usize = 64;

// The buffer, and the index behind what was put: the libraries put at an index, as C's calls do.
#[derive(Drop)]
pub struct Writer<'a> {
    out: &'a mut [u8],
    at: usize,
}

impl<'a> Writer<'a> {
    // At the start of a buffer.
    pub fn over(out: &'a mut [u8]) -> Writer<'a> {
        Writer { out, at: 0 }
    }
}

impl Writer<'_> {
    // What was put.
    pub fn text(&self) -> &[u8] {
        &self.out[..self.at.min(self.out.len())]
    }

    pub fn bytes(&mut self, from: &[u8]) -> &mut Self {
        self.at = put_bytes::bytes(self.out, self.at, from);
        self
    }

    // A decimal number, and a byte.
    pub fn number(&mut self, n: u64, end: u8) -> &mut Self {
        self.at = put_bytes::number(self.out, self.at, n, end);
        self
    }

    // A word, a number and a byte.
    pub fn named(&mut self, word: &[u8], n: u64, end: u8) -> &mut Self {
        self.bytes(word).number(n, end)
    }

    // What a function of the libraries puts at an index, which gives the index behind it.
    pub fn put<F: FnOnce(&mut [u8], usize) -> usize>(&mut self, function: F) -> &mut Self
        requires { F.IsAlwaysCallable function }
    {
        self.at = function(self.out, self.at);
        self
    }

    // A word of the user's, or its first bytes.
    pub fn word(&mut self, word: &[u8]) -> &mut Self {
        self.visible(word, WORD)
    }

    // A path of the user's.
    pub fn path(&mut self, path: &[u8]) -> &mut Self {
        self.visible(path, PATH)
    }

    // At most so many bytes of the user's, as far as they fit: with ? for control characters, so
    // that a message is one line.
    fn visible(&mut self, word: &[u8], most: usize) -> &mut Self {
        for c in word.iter().take(most) {
            self.bytes(&[visible(*c)]);
        }
        self
    }
}

// A byte as it is, or ? for a control character.
fn visible(c: u8) -> u8 {
    if c.is_ascii_control() { b'?' } else { c }
}
