// The time of FILL L and FILL XY, in machine states, for the clipped array. No public function has
// a requires.
#![tactic(auto)]

ghost use Rattle.std.specs.Prelude.{◌≡◌, ◌*◌};
ghost use Rattle.fill_timing.specs.FillTiming.{start_moved, end_moved, adjust_of, is_masked};
ghost use Rattle.fill_timing.specs.FillTiming.{fill_of, fill_time, fill_states};

use fill_tables::{Adjust, Fill, Time};
use operation::Operation;
use settings::Settings;
use windows::{Clipped, Rectangle};

// The answer of a whole drawing, 0 or the refusal's number, and its time.
#[derive(Clone, Copy)]
pub struct FillStates {
    pub answer: u32,
    pub time: Time,
}

// The answer and the time of a whole drawing over so many words of memory. The time is 0 for a
// PIXBLT, a drawing that visits no pixel, and a refused one.
pub fn fill_states(op: Operation, s: Settings, words: usize) -> FillStates
    ensures { result ≡ fill_states op s words }
{
    let o = drawing::outcome_for(op, s, 0, false, drawing::UNLIMITED, words);
    let time = fill_time(op, s, o.visited);
    FillStates {
        answer: o.answer,
        time,
    }
}

// The time of a drawing that visits so many pixels.
pub fn fill_time(op: Operation, s: Settings, visited: u64) -> Time
    ensures { result ≡ fill_time op s visited }
{
    let copy = operation::copies(operation::source_of(op));
    if copy | (visited == 0) {
        return Time::default();
    }
    fill_tables::time_of(fill_of(op, s))
}

// What the time of a FILL goes by.
fn fill_of(op: Operation, s: Settings) -> Fill
    ensures { result ≡ fill_of op s }
{
    let c = arrays::clipped_array(op, s);
    let dest = arrays::dest_of(op, s, c);
    let xy = operation::to_xy(op);
    let adjust = adjust_of(control::windowing(s.control), arrays::rectangle_of(s), c);
    let disabled = control::disabled(s.control);
    let pp = control::processing(s.control);
    let masked = is_masked(s);
    let bits = row_bits(c.cols, s.psize);
    Fill {
        xy,
        adjust,
        disabled,
        pp,
        masked,
        start: dest.start,
        bits,
        rows: c.rows,
    }
}

// The bits of a row.
fn row_bits(cols: u16, psize: u16) -> u32
    ensures { result ≡ cols * psize }
{
    cols as u32 * psize as u32
}

// What the window does to a FILL XY.
fn adjust_of(w: u16, r: Rectangle, c: Clipped) -> Adjust
    ensures { result ≡ adjust_of w r c }
{
    if w == 0 {
        return Adjust::Off;
    }
    match (start_moved(c), end_moved(r, c)) {
        (true, true) => Adjust::Both,
        (true, false) => Adjust::Start,
        (false, true) => Adjust::Dimension,
        (false, false) => Adjust::Fits,
    }
}

fn start_moved(c: Clipped) -> bool
    ensures { result ≡ start_moved c }
{
    (c.left != 0) | (c.above != 0)
}

fn end_moved(r: Rectangle, c: Clipped) -> bool
    ensures { result ≡ end_moved r c }
{
    let right = c.left as u32 + c.cols as u32;
    let below = c.above as u32 + c.rows as u32;
    (right < r.cols as u32) | (below < r.rows as u32)
}

// Are plane masking or transparency enabled?
fn is_masked(s: Settings) -> bool
    ensures { result ≡ is_masked s }
{
    control::transparency(s.control) | (s.pmask != 0)
}
