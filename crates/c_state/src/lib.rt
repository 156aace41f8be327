// A cache state for C: twelve numbers of a lent array. No public function has a requires.
#![tactic(auto)]

ghost use Rattle.std.specs.Prelude.{◌≡◌};
ghost use Rattle.std.proofs.lemmas.List.Edits.{sets};
ghost use Rattle.c_state.specs.State.{segment_of, order_entry, cache_of, flags_number, numbers_of};

use c_arrays::number_at;
use cache::Cache;
use segments::{SEGMENTS, Segment};
use std::array;

// How many numbers a state is (`state_numbers` of the specs).
pub const STATE_NUMBERS: usize = 12;

// The state that the array's first twelve numbers are.
pub fn cache_of(state: &[u32]) -> Cache
    ensures { result ≡ cache_of state.now }
{
    Cache {
        segments: array::from_fn(|i| segment_of(
            number_at(state, i),
            number_at(state, SEGMENTS + i),
        )),
        order: array::from_fn(|i| order_entry(number_at(state, 2 * SEGMENTS + i))),
    }
}

// Stores a state as the array's first twelve numbers.
pub fn store_state(state: &mut [u32], cache: Cache)
    ensures { state.new ≡ sets state.old 0 (numbers_of cache) }
{
    let [a, b, c, d] = cache.segments;
    let order = cache.order.map(u32::from);
    let numbers = [
        a.start,
        b.start,
        c.start,
        d.start,
        flags_number(a),
        flags_number(b),
        flags_number(c),
        flags_number(d),
        order[0],
        order[1],
        order[2],
        order[3],
    ];
    c_arrays::store_numbers(state, &numbers);
}

// The segment of a start address and a number of flags.
fn segment_of(start: u32, flags: u32) -> Segment
    ensures { result ≡ segment_of start flags }
{
    Segment {
        start,
        present: array::from_fn(|j| (flags >> j) % 2 == 1),
    }
}

fn order_entry(x: u32) -> u8
    ensures { result ≡ order_entry x }
{
    x.min(255) as u8
}

fn flags_number(s: Segment) -> u32
    ensures { result ≡ flags_number s.present }
{
    let p = s.present.map(u32::from);
    p[0] + 2 * p[1] + 4 * p[2] + 8 * p[3] + 16 * p[4] + 32 * p[5] + 64 * p[6] + 128 * p[7]
}
