// The first line of a listing: its heading, the heading of experiments, or the line of a refused
// plan. It is put into a lent buffer where it fits whole: each function answers the index after it,
// or the index given where it does not fit, and then nothing is written.
#![tactic(auto)]

ghost use Rattle.std.specs.Prelude.{◌≡◌, length};
ghost use Rattle.listing.specs.Listing.{put_if, index_after, heading, refused_line};
ghost use Rattle.first_line.specs.Names.{names_line};

use put_lines::NUMBER;

// The listing's heading.
pub fn put_heading(out: &mut [u8], at: usize) -> usize
    ensures value { result ≡ index_after at heading (length out.old) }
    ensures out_after { out.new ≡ put_if at heading out.old }
{
    put_bytes::bytes(out, at, b"point\tanswer\tvisited\tV\tchanged\tstates\n")
}

// The heading of experiments, which has NAMES bytes: `point` and the fourteen names.
pub const NAMES: usize = 93;

pub fn put_names(out: &mut [u8], at: usize) -> usize
    ensures value { result ≡ index_after at names_line (length out.old) }
    ensures out_after { out.new ≡ put_if at names_line out.old }
{
    let mut text = [0u8; NAMES];
    let names = names::list();
    let start = put_bytes::bytes(&mut text, 0, b"point\t");
    let next = put_bytes::bytes(&mut text, start, &names);
    let end = put_bytes::bytes(&mut text, next, b"\n");
    put_bytes::bytes(out, at, &text[..end])
}

// The line of a refused plan: its refusal's number, and the line of the plan.
pub fn put_refused(out: &mut [u8], at: usize, number: u64, line: u64) -> usize
    ensures value { result ≡ index_after at (refused_line number line) (length out.old) }
    ensures out_after { out.new ≡ put_if at (refused_line number line) out.old }
{
    let mut text = [0u8; 8 + 2 * NUMBER];
    let start = put_bytes::bytes(&mut text, 0, b"refused\t");
    let ns = [number, line];
    let end = put_lines::numbers(&mut text, start, &ns);
    put_bytes::bytes(out, at, &text[..end])
}
