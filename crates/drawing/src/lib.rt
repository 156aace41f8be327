// FILL and PIXBLT: a call takes an operation, settings, a place, V and a budget over a lent memory.
#![tactic(auto)]

ghost use Rattle.std.specs.Prelude.{◌≡◌, false, cond, ◌&&◌, eqb, length, ◌+◌, ◌≤◌};
ghost use Rattle.plot.specs.Drawing.{pixels};
ghost use Rattle.engine.specs.Engine.{visits, visited_from};
ghost use Rattle.operation.specs.Operation.{source_of, copies};
ghost use Rattle.arrays.specs.Array.{drawing_for};
ghost use Rattle.array_refusal.specs.Refusal.{refusal};
ghost use Rattle.drawing.specs.Draw.{refused_call, common_of, done_some, row_after};
ghost use Rattle.drawing.specs.Draw.{outcome_at, outcome, drawn};

use operation::Operation;
use plot::Drawing;
use settings::Settings;
use windows::{Clipped, Rectangle};

// A budget that no drawing's pixels exceed.
pub const UNLIMITED: u64 = u64::MAX;

// What a call hands back: 0 done, 1 stopped, else the refusal's number; the new place; the pixels
// visited by this call; V and the request; the registers; the settings as given.
#[derive(Clone, Copy)]
pub struct Outcome {
    pub answer: u32,
    pub place: u64,
    pub visited: u64,
    pub v: bool,
    pub request: bool,
    pub saddr: u32,
    pub daddr: u32,
    pub dydx: u32,
    pub settings: Settings,
}

// A refused call.
fn refused(s: Settings, place: u64, v: bool, answer: u32) -> Outcome
    ensures { result ≡ refused_call s place v answer }
{
    Outcome {
        answer,
        place,
        visited: 0,
        v,
        request: false,
        saddr: s.saddr,
        daddr: s.daddr,
        dydx: s.dydx,
        settings: s,
    }
}

// Is the drawing done, with pixels?
fn done_some(d: Drawing, place: u64) -> bool
    ensures { result ≡ done_some d place }
{
    let n = plot::pixels(d);
    (place == n) & (n != 0)
}

// The rectangle that the array and the window have in common.
fn common_rectangle(s: Settings) -> Rectangle
    ensures { result ≡ common_of s }
{
    let window = windows::window_of(s.wstart, s.wend);
    windows::common_of(arrays::rectangle_of(s), window)
}

// SADDR after the call.
fn saddr_after(op: Operation, s: Settings, d: Drawing, place: u64) -> u32
    ensures { let moves = done_some d place && copies (source_of op) in
        result ≡ cond moves (row_after d.src d.rows) s.saddr }
{
    let copy = operation::copies(operation::source_of(op));
    if done_some(d, place) & copy {
        return walk::address_at(d.src, u32::from(d.rows), 0);
    }
    s.saddr
}

// DADDR after the call, where no common rectangle is handed back.
fn daddr_after(s: Settings, d: Drawing, place: u64) -> u32
    ensures { result ≡ cond (done_some d place) (row_after d.dest d.rows) s.daddr }
{
    if done_some(d, place) {
        return walk::address_at(d.dest, u32::from(d.rows), 0);
    }
    s.daddr
}

// The new place.
fn place_after(d: Drawing, place: u64, visited: u64) -> u64
    requires { place + visited ≤ pixels d }
    ensures { result ≡ place + visited }
{
    place + visited
}

// Done or stopped.
fn answer_at(d: Drawing, place: u64) -> u32
    ensures { result ≡ cond (eqb place (pixels d)) 0 1 }
{
    if place == plot::pixels(d) { 0 } else { 1 }
}

// A call that is not refused, at its new place.
#[tactic(auto, unfolding(crate::specs::Draw::outcome_at))]
fn outcome_at(
    op: Operation,
    s: Settings,
    c: Clipped,
    d: Drawing,
    v: bool,
    place: u64,
    visited: u64,
) -> Outcome
    ensures { result ≡ outcome_at op s c d v place visited }
{
    let answer = answer_at(d, place);
    let saddr = saddr_after(op, s, d, place);
    let (daddr, dydx) = if (control::windowing(s.control) == 1) & c.request {
        let r = common_rectangle(s);
        let size = u32::from(r.rows) * address::HALF + u32::from(r.cols);
        (address::register_of(r.x, r.y), size)
    } else {
        (daddr_after(s, d, place), s.dydx)
    };
    Outcome {
        answer,
        place,
        visited,
        v,
        request: c.request,
        saddr,
        daddr,
        dydx,
        settings: s,
    }
}

// The pixels from a place on are visited, at most a budget of them; in a dry run they are counted
// only.
fn visit(memory: &mut [u16], d: Drawing, place: u64, budget: u64, dry: bool) -> u64
    ensures { let m = memory.old in let n = visited_from d place budget in
        (result ≡ n) × (memory.new ≡ cond dry m (visits d place n m)) }
{
    if dry {
        return engine::visited_from(d, place, budget);
    }
    engine::run(memory, d, place, budget)
}

// A call over a memory of so many words, or a dry run of one, which leaves the lent words alone:
// one function, as two that shared its parts made a call of one pixel a fifth slower.
fn call(
    memory: &mut [u16],
    op: Operation,
    s: Settings,
    place: u64,
    v: bool,
    budget: u64,
    words: usize,
    dry: bool,
) -> Outcome
    requires { dry ≡ false → words ≡ length memory.old }
    ensures { let m = memory.old in
        (result ≡ outcome op s place v budget words)
        × (memory.new ≡ cond dry m (drawn op s place budget m)) }
{
    let c = arrays::clipped_array(op, s);
    let d = arrays::drawing_of(op, s, c);
    if let Err(r) = array_refusal::refusal_of(op, s, c, d, place, words) {
        return refused(s, place, v, u32::from(r));
    }
    let visited = visit(memory, d, place, budget, dry);
    let after = arrays::v_after(op, s, v);
    let next = place_after(d, place, visited);
    outcome_at(op, s, c, d, after, next, visited)
}

// The drawing of an operation with its settings.
pub fn drawing_for(op: Operation, s: Settings) -> Drawing
    ensures { result ≡ drawing_for op s }
{
    let c = arrays::clipped_array(op, s);
    arrays::drawing_of(op, s, c)
}

// What a call over so many words of memory hands back, whatever they hold: a dry run of `draw`.
pub fn outcome_for(
    op: Operation,
    s: Settings,
    place: u64,
    v: bool,
    budget: u64,
    words: usize,
) -> Outcome
    ensures { result ≡ outcome op s place v budget words }
{
    let mut none = [0u16; 1];
    call(&mut none, op, s, place, v, budget, words, true)
}

// The refusal of a call over so many words of memory: its number, or 0. By a dry run: so the parts
// of `call` have one caller.
pub fn refusal_for(op: Operation, s: Settings, place: u64, words: usize) -> u32
    ensures { result ≡ refusal op s place words }
{
    let o = outcome_for(op, s, place, false, 0, words);
    if 1 < o.answer { o.answer } else { 0 }
}

// A FILL or PIXBLT call: unless it is refused, the engine visits the lesser of the budget and the
// pixels that are left, from the place on.
pub fn draw(
    memory: &mut [u16],
    op: Operation,
    s: Settings,
    place: u64,
    v: bool,
    budget: u64,
) -> Outcome
    ensures { let m = memory.old in
        (result ≡ outcome op s place v budget (length m))
        × (memory.new ≡ drawn op s place budget m) }
{
    let words = memory.len();
    call(memory, op, s, place, v, budget, words, false)
}
