// Drawings: FILL and PIXBLT, dry runs, and the time of a FILL.
ghost use Rattle.c_draw.specs.Draw.{OutcomeCall, DrawCall};
ghost use Rattle.c_fill.specs.Fill.{FillStatesCall};

// A FILL or PIXBLT call; out has the new place, the pixels visited by this call, V, the request,
// SADDR, DADDR and DYDX.
#[unsafe(no_mangle)]
pub extern "C" fn bh_draw(
    memory: &mut [u16],
    operation: u32,
    settings: &[u32],
    place: u64,
    v: u32,
    budget: u64,
    out: &mut [u64],
) -> u32
    ensures { DrawCall memory.old operation settings.now place v budget
        out.old result memory.new out.new }
{
    c_draw::draw(memory, operation, settings, place, v, budget, out)
}

// What a FILL or PIXBLT call over so many words of memory would answer; out as of `bh_draw`.
#[unsafe(no_mangle)]
pub extern "C" fn bh_outcome(
    words: usize,
    operation: u32,
    settings: &[u32],
    place: u64,
    v: u32,
    budget: u64,
    out: &mut [u64],
) -> u32
    ensures { OutcomeCall words operation settings.now place v budget
        out.old result out.new }
{
    c_draw::outcome(words, operation, settings, place, v, budget, out)
}

// The time of a whole drawing over so many words of memory; out has setup, transfer, adjustment and
// states.
#[unsafe(no_mangle)]
pub extern "C" fn bh_fill_states(
    words: usize,
    operation: u32,
    settings: &[u32],
    out: &mut [u64],
) -> u32
    ensures { FillStatesCall words operation settings.now out.old result
        out.new }
{
    c_fill::states(words, operation, settings, out)
}
