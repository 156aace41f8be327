// Does a walk stay in memory?
#![tactic(auto)]

ghost use Rattle.std.specs.Prelude.{◌≡◌, ◌-◌, ◌*◌, ◌^◌, ◌<◌, ◌≤◌};
ghost use Rattle.walk.specs.Walk.{address_of};
ghost use Rattle.extent.specs.Extent.{reaches, leaves_memory};
ghost use Rattle.extent.specs.Reach.{upwards, downwards};

use walk::Walk;

// 2^31: a distance above it falls.
const HALF: u32 = 2147483648;

// Refusal 17 of a walk: does some pixel's address lie at the end of memory or beyond?
#[tactic(auto, unfolding(crate::specs::Extent::leaves_memory))]
pub fn leaves_memory(words: usize, w: Walk, cols: u16, rows: u16) -> bool
    ensures { result ≡ leaves_memory words w cols rows }
{
    if memory::no_memory(words) {
        return false;
    }
    if (cols == 0) | (rows == 0) {
        return false;
    }
    reaches_limit(16 * words as u64, w, cols, rows)
}

// The same for a limit: rows and columns each rise or fall, and neither may lead past an end.
fn reaches_limit(limit: u64, w: Walk, cols: u16, rows: u16) -> bool
    requires { (limit ≤ 2 ^ 24) × (0 < cols) × (0 < rows) }
    ensures { result ≡ reaches (address_of w cols) limit (cols * rows) }
{
    let start = u64::from(w.start);
    let up = upwards(rows, w.pitch) + upwards(cols, w.step);
    let down = downwards(rows, w.pitch) + downwards(cols, w.step);
    (limit <= start + up) | (start < down)
}

// How far the last of n places lies above the first.
#[tactic(auto, unfolding(crate::specs::Reach::upwards))]
fn upwards(n: u16, distance: u32) -> u64
    requires { 0 < n }
    ensures { (result ≡ upwards n distance) × (result < 2 ^ 48) }
{
    if distance <= HALF {
        last_of(n, u64::from(distance))
    } else {
        0
    }
}

// How far it lies below it.
#[tactic(auto, unfolding(crate::specs::Reach::downwards))]
fn downwards(n: u16, distance: u32) -> u64
    requires { 0 < n }
    ensures { (result ≡ downwards n distance) × (result < 2 ^ 48) }
{
    if distance <= HALF {
        0
    } else {
        last_of(n, u64::from(distance.wrapping_neg()))
    }
}

// How far the last of n places lies from the first.
fn last_of(n: u16, distance: u64) -> u64
    requires { (0 < n) × (distance < 2 ^ 32) }
    ensures { (result ≡ (n - 1) * distance) × (result < 2 ^ 48) }
{
    u64::from(n - 1) * distance
}
