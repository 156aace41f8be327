// The pixel engine: a drawing's pixels visited one after the other, from a place, up to a budget.
#![tactic(auto)]

ghost use Rattle.std.specs.Prelude.{◌≡◌, ◌+◌, ◌-◌, ◌%◌, ◌^◌, ◌<◌, ◌≤◌, min};
ghost use Rattle.walk.specs.Walk.{address_of};
ghost use Rattle.plot.specs.Drawing.{pixels};
ghost use Rattle.engine.specs.Engine.{visits, visited_from};

use plot::Drawing;
use walk::Walk;

// The pixels from a place on are visited, at most a budget of them; the count of those visited.
pub fn run(memory: &mut [u16], d: Drawing, place: u64, budget: u64) -> u64
    ensures { let n = visited_from d place budget in
        (result ≡ n) × (memory.new ≡ visits d place n memory.old) }
{
    let left = left_from(plot::pixels(d), place);
    let count = least(budget, left);
    if count == 0 {
        return 0;
    }
    visit_range(memory, d, place, count);
    count
}

// How many pixels that would be.
pub fn visited_from(d: Drawing, place: u64, budget: u64) -> u64
    ensures { result ≡ visited_from d place budget }
{
    let left = left_from(plot::pixels(d), place);
    least(budget, left)
}

// The pixels of n that are left from a place on.
fn left_from(n: u64, place: u64) -> u64
    ensures { result ≡ n - place }
{
    if place < n { n - place } else { 0 }
}

// The n pixels from the k-th on are visited: what is left of the first row, then row by row.
fn visit_range(memory: &mut [u16], d: Drawing, k: u64, n: u64)
    requires { (0 < d.cols) × (k + n ≤ pixels d) }
    ensures { memory.new ≡ visits d k n memory.old }
{
    let count = piece(d.cols as u64, k, n);
    let from = pixel_at(d.src, d.cols, k);
    let to = pixel_at(d.dest, d.cols, k);
    row::draw_row(memory, d, from, to, count);
    if count < n {
        visit_rows(memory, d, k + count, n - count);
    }
}

// The n pixels from the k-th on, which starts a row, are visited row by row.
fn visit_rows(memory: &mut [u16], d: Drawing, k: u64, n: u64)
    requires { (0 < d.cols) × (k % d.cols ≡ 0) × (k + n ≤ pixels d) }
    ensures { memory.new ≡ visits d k n memory.old }
{
    let cols = d.cols as u64;
    let mut from = pixel_at(d.src, d.cols, k);
    let mut to = pixel_at(d.dest, d.cols, k);
    let mut i: u64 = 0;
    while i < n {
        let count = least(cols, n - i);
        row::draw_row(memory, d, from, to, count);
        from = std::num::wrapping_add_u32(from, d.src.pitch);
        to = std::num::wrapping_add_u32(to, d.dest.pitch);
        i += count;
    }
}

// The lesser of two numbers.
fn least(a: u64, b: u64) -> u64
    ensures { result ≡ min a b }
{
    if a < b { a } else { b }
}

// The pixels of a row from the i-th on, or as many as are left.
fn piece(cols: u64, i: u64, left: u64) -> u64
    requires { 0 < cols }
    ensures { result ≡ min left (cols - i % cols) }
{
    let room = cols - i % cols;
    if left < room { left } else { room }
}

// The address of the i-th pixel of a walk: cols pixels a row.
fn pixel_at(w: Walk, cols: u16, i: u64) -> u32
    requires { (0 < cols) × (i < 2 ^ 32) }
    ensures { result ≡ address_of w cols i }
{
    let wide = cols as u64;
    walk::address_at(w, (i / wide) as u32, (i % wide) as u32)
}
