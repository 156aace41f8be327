// The time of a FILL for C: `fill_timing::fill_states` on numbers and lent arrays.
#![tactic(auto)]

ghost use Rattle.std.proofs.lemmas.List.Edits.{sets};
ghost use Rattle.std.specs.Prelude.{◌≡◌};
ghost use Rattle.c_fill.specs.Fill.{fill_results, FillStatesCall};

use c_arrays::BAD_CALL;
use fill_tables::Time;

// How many results there are (`fill_result_count` of the specs).
pub const FILL_RESULTS: usize = 4;

// The time of a whole drawing over so many words of memory; out has setup, transfer, adjustment and
// states.
pub fn states(words: usize, operation: u32, settings: &[u32], out: &mut [u64]) -> u32
    ensures { FillStatesCall words operation settings.now out.old result
        out.new }
{
    let Some((op, s)) = c_draw::drawing_in(operation, settings, out, FILL_RESULTS) else {
        return BAD_CALL;
    };
    let r = fill_timing::fill_states(op, s, words);
    hand_out(out, r.time);
    r.answer
}

// Stores the results at the array's start.
fn hand_out(out: &mut [u64], t: Time)
    ensures { out.new ≡ sets out.old 0 (fill_results t) }
{
    let results = [t.setup, t.transfer, t.adjustment, t.states];
    c_arrays::store_numbers(out, &results);
}
