// The order in which the four segments of the instruction cache were last used. No public function
// has a requires.
#![tactic(auto)]

ghost use Rattle.std.specs.Prelude.{◌≡◌};
ghost use Rattle.order.specs.Order.{bad_order, latest};

use segments::SEGMENTS;

// A place of the order names a segment by a number below this.
const LIMIT: u8 = SEGMENTS as u8;

// Is the order no permutation of the four segments?
pub fn is_bad_order(order: [u8; SEGMENTS]) -> bool
    ensures { result ≡ bad_order order }
{
    let beyond = order.iter().any(|k| LIMIT <= *k);
    let twice = lists::any_pair(&order, |j, k| j == k);
    beyond | twice
}

// The order with segment k as the latest used. By arrays: with `rotate_left` the library for C asks
// for `memmove`.
pub fn used(order: [u8; SEGMENTS], k: u8) -> [u8; SEGMENTS]
    ensures { result ≡ latest k order }
{
    let [a, b, c, d] = order;
    match order.iter().position(|x| *x == k) {
        Some(0) => [b, c, d, a],
        Some(1) => [a, c, d, b],
        Some(2) => [a, b, d, c],
        _ => order,
    }
}
