// Given bytes, and decimal numbers, put into a lent buffer where they fit whole. Each public
// function answers the index after them, or the index given where they do not fit, and then nothing
// is written.
#![tactic(auto)]

ghost use Rattle.std.specs.Prelude.{◌≡◌, [], ◌∷◌, ◌++◌, ◌+◌, ◌≤◌, ◌<◌, leb, length};
ghost use Rattle.listing.specs.Listing.{decimal, put, put_if, index_after};

// A number below 2^64 has at most so many digits.
pub const DIGITS: usize = 20;

// The decimal number n, and the byte `end`.
pub fn number(out: &mut [u8], at: usize, n: u64, end: u8) -> usize
    ensures value { result ≡ index_after at (decimal n ++ (end ∷ [])) (length out.old) }
    ensures out_after { out.new ≡ put_if at (decimal n ++ (end ∷ [])) out.old }
{
    if n < 10 {
        return digit(out, at, n, end);
    }
    digits(out, at, n, end)
}

// The digits of a number, and the byte `end`.
fn digits(out: &mut [u8], at: usize, n: u64, end: u8) -> usize
    ensures value { result ≡ index_after at (decimal n ++ (end ∷ [])) (length out.old) }
    ensures out_after { out.new ≡ put_if at (decimal n ++ (end ∷ [])) out.old }
{
    let mut text = [0u8; DIGITS];
    let k = io::decimal(n, &mut text);
    if has_room(out.len(), at, k + 1) {
        copy(out, at, &text[..k]);
        out[at + k] = end;
        return at + k + 1;
    }
    at
}

// A number of one digit, and the byte `end`: most numbers of a listing are one.
fn digit(out: &mut [u8], at: usize, n: u64, end: u8) -> usize
    requires { n < 10 }
    ensures value { result ≡ index_after at (decimal n ++ (end ∷ [])) (length out.old) }
    ensures out_after { out.new ≡ put_if at (decimal n ++ (end ∷ [])) out.old }
{
    if has_room(out.len(), at, 2) {
        let next = at + 1;
        out[at] = ascii::DIGIT_0 + n as u8;
        out[next] = end;
        return next + 1;
    }
    at
}

// Given bytes.
pub fn bytes(out: &mut [u8], at: usize, from: &[u8]) -> usize
    ensures value { result ≡ index_after at from.now (length out.old) }
    ensures out_after { out.new ≡ put_if at from.now out.old }
{
    if has_room(out.len(), at, from.len()) {
        copy(out, at, from);
        return at + from.len();
    }
    at
}

// Do so many bytes fit at the index?
fn has_room(size: usize, at: usize, count: usize) -> bool
    ensures { result ≡ leb (at + count) size }
{
    at <= size && count <= size - at
}

// Puts bytes that fit.
fn copy(out: &mut [u8], at: usize, from: &[u8])
    requires { at + length from.now ≤ length out.old }
    ensures { out.new ≡ put at from.now out.old }
{
    out[at..at + from.len()].copy_from_slice(from);
}
