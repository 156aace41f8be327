// Lines of numbers, put into a lent buffer where they fit whole: `numbers` answers the index after
// the line, or the index given where it does not fit, and then nothing is written.
#![tactic(auto)]

ghost use Rattle.std.specs.Prelude.{◌≡◌, ◌+◌, ◌≤◌, ◌<◌, leb, length};
ghost use Rattle.listing.specs.Listing.{decimal, numbers_line, line_length, put, put_if, index_after};

// No number with the byte after it is longer.
pub const NUMBER: usize = put_bytes::DIGITS + 1;

// A line of numbers.
pub fn numbers(out: &mut [u8], at: usize, ns: &[u64]) -> usize
    ensures value { result ≡ index_after at (numbers_line ns.now) (length out.old) }
    ensures out_after { out.new ≡ put_if at (numbers_line ns.now) out.old }
{
    if ns.is_empty() {
        return put_bytes::bytes(out, at, b"\n");
    }
    if line_fits(out.len(), at, ns) {
        return line(out, at, ns);
    }
    at
}

// Puts a line of one number or more that fits.
fn line(out: &mut [u8], at: usize, ns: &[u64]) -> usize
    requires { (0 < length ns.now) × (at + length (numbers_line ns.now) ≤ length out.old) }
    ensures value { result ≡ at + length (numbers_line ns.now) }
    ensures out_after { out.new ≡ put at (numbers_line ns.now) out.old }
{
    let last = ns.len() - 1;
    let mut to = at;
    for n in &ns[..last] {
        to = put_bytes::number(out, to, *n, ascii::TAB);
    }
    put_bytes::number(out, to, ns[last], ascii::LINE_END)
}

// Does a line of one number or more fit at the index? Where there is room for NUMBER bytes each, no
// digits are counted.
fn line_fits(size: usize, at: usize, ns: &[u64]) -> bool
    ensures { result ≡ leb (at + line_length ns.now) size }
{
    if size < at {
        return false;
    }
    let room = size - at;
    if ns.len() <= room / NUMBER {
        return true;
    }
    line_within(ns, room)
}

// Does a line of one number or more fit into so many bytes?
fn line_within(ns: &[u64], room: usize) -> bool
    ensures { result ≡ leb (line_length ns.now) room }
{
    let mut left = room;
    for n in ns {
        let k = places(*n);
        if left <= k {
            return false;
        }
        left = left - k - 1;
    }
    true
}

// How many decimal digits a number has.
fn places(n: u64) -> usize
    ensures { result ≡ length (decimal n) }
{
    n.checked_ilog10().unwrap_or(0) as usize + 1
}
