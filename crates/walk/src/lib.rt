// Walks: a start, and how far it is from row to row and from pixel to pixel, all modulo 2^32.
#![tactic(auto)]

ghost use Rattle.std.specs.Prelude.{◌≡◌};
ghost use Rattle.walk.specs.Walk.{address_at};

// Where an array is walked: its first pixel's address, from one row to the next, and from one pixel
// to the next. A pitch or step of 2^32 less something walks down.
#[derive(Clone, Copy)]
pub struct Walk {
    pub start: u32,
    pub pitch: u32,
    pub step: u32,
}

// The address at a row and a column of a walk.
#[tactic(auto, unfolding(crate::specs::Walk::address_at))]
pub fn address_at(w: Walk, row: u32, column: u32) -> u32
    ensures { result ≡ address_at w row column }
{
    let down = row.wrapping_mul(w.pitch);
    let across = column.wrapping_mul(w.step);
    w.start.wrapping_add(down).wrapping_add(across)
}
