// FILL and PIXBLT for C: `drawing::draw` and `drawing::outcome_for` on numbers and lent arrays.
#![tactic(auto)]

ghost use Rattle.std.specs.Prelude.{◌≡◌, ◌||◌, true, false, MatchOption};
ghost use Rattle.settings.specs.Settings.{settings_of};
ghost use Rattle.operation.specs.Operation.{operation_of};
ghost use Rattle.c_arrays.specs.Out.{short};
ghost use Rattle.c_arrays.specs.Settings.{bad_settings};
ghost use Rattle.std.proofs.lemmas.List.Edits.{sets};
ghost use Rattle.c_draw.specs.Draw.{bad_operation, draw_results, OutcomeCall, DrawCall};

use c_arrays::BAD_CALL;
use drawing::Outcome;
use operation::Operation;
use settings::Settings;

// How many results there are (`draw_result_count` of the specs).
pub const DRAW_RESULTS: usize = 7;

// A FILL or PIXBLT call; out has the new place, the pixels visited by this call, V, the request,
// SADDR, DADDR and DYDX.
pub fn draw(
    memory: &mut [u16],
    operation: u32,
    settings: &[u32],
    place: u64,
    v: u32,
    budget: u64,
    out: &mut [u64],
) -> u32
    ensures { DrawCall memory.old operation settings.now place v budget
        out.old result memory.new out.new }
{
    let Some((op, s)) = drawing_in(operation, settings, out, DRAW_RESULTS) else {
        return BAD_CALL;
    };
    let r = drawing::draw(memory, op, s, place, v != 0, budget);
    hand_out(out, r);
    r.answer
}

// What a FILL or PIXBLT call over so many words of memory would answer; out as of `draw`.
pub fn outcome(
    words: usize,
    operation: u32,
    settings: &[u32],
    place: u64,
    v: u32,
    budget: u64,
    out: &mut [u64],
) -> u32
    ensures { OutcomeCall words operation settings.now place v budget
        out.old result out.new }
{
    let Some((op, s)) = drawing_in(operation, settings, out, DRAW_RESULTS) else {
        return BAD_CALL;
    };
    let r = drawing::outcome_for(op, s, place, v != 0, budget, words);
    hand_out(out, r);
    r.answer
}

// The operation and the settings that the numbers are; none where they are bad, or where the output
// array has no room for so many results.
pub fn drawing_in(
    operation: u32,
    settings: &[u32],
    out: &[u64],
    results: usize,
) -> Option<(Operation, Settings)>
    ensures { let bad = short results out.now
        || (bad_operation operation || bad_settings settings.now) in
        MatchOption result (bad ≡ true)
        (λ asked. (bad ≡ false) × (asked.0 ≡ operation_of operation)
        × (asked.1 ≡ settings_of settings.now)) }
{
    if (out.len() < results)
        | ((names::DRAWING_COUNT as u32 <= operation) | c_arrays::bad_settings(settings))
    {
        return None;
    }
    Some((
        operation::operation_of(u64::from(operation)),
        c_arrays::settings_in(settings),
    ))
}

// Stores the results at the array's start.
fn hand_out(out: &mut [u64], r: Outcome)
    ensures { out.new ≡ sets out.old 0 (draw_results r) }
{
    let results = [
        r.place,
        r.visited,
        u64::from(r.v),
        u64::from(r.request),
        u64::from(r.saddr),
        u64::from(r.daddr),
        u64::from(r.dydx),
    ];
    c_arrays::store_numbers(out, &results);
}
