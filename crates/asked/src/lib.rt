// What a run of points may not be asked for: the tests of 9 and 24. No function has a requires.
#![tactic(auto)]

ghost use Rattle.std.specs.Prelude.{◌≡◌};
ghost use Rattle.run.specs.Lines.{bad_shape, ends_past};

use run::LINE;

// Are the memories not of one size up to PLAN_WORDS, is the drawing none, or is there no room for
// the longest lines?
pub fn bad_shape(words: usize, others: usize, draw: u64, count: u64, size: usize) -> bool
    ensures { result ≡ bad_shape words others draw count size }
{
    (names::PLAN_WORDS < words)
        | (words != others)
        | (names::DRAWING_COUNT <= draw)
        | (((size / LINE) as u64) < count)
}

// Is some point that is asked for not below the number of points?
pub fn ends_past(points: u64, first: u64, count: u64) -> bool
    ensures { result ≡ ends_past points first count }
{
    points.saturating_sub(first) < count
}
