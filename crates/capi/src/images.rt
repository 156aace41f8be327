// Images, and changed bits.
ghost use Rattle.c_image.specs.Calls.{FillImageCall, ChangedCall};

// Fills the memory with the image of a seed.
#[unsafe(no_mangle)]
pub extern "C" fn bh_fill_image(memory: &mut [u16], seed: u64) -> u32
    ensures { FillImageCall memory.old seed result memory.new }
{
    c_image::fill_image(memory, seed)
}

// How many bits differ between two memories; out[0] is the count.
#[unsafe(no_mangle)]
pub extern "C" fn bh_changed(before: &[u16], after: &[u16], out: &mut [u64]) -> u32
    ensures { ChangedCall before.now after.now out.old
        result out.new }
{
    c_image::changed(before, after, out)
}
