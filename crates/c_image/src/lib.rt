// Images for C: the image of a seed, and changed bits, on numbers and lent arrays.
#![tactic(auto)]

ghost use Rattle.c_image.specs.Calls.{FillImageCall, ChangedCall};

use c_arrays::BAD_CALL;

// Fills the memory with the image of a seed.
pub fn fill_image(memory: &mut [u16], seed: u64) -> u32
    ensures { FillImageCall memory.old seed result memory.new }
{
    answers::answer(&image::fill_image(memory, seed))
}

// How many bits differ between two memories; out[0] is the count.
pub fn changed(before: &[u16], after: &[u16], out: &mut [u64]) -> u32
    ensures { ChangedCall before.now after.now out.old
        result out.new }
{
    if out.is_empty() {
        return BAD_CALL;
    }
    let r = memory::changed(before, after);
    out[0] = r.unwrap_or(0);
    answers::answer(&r)
}
