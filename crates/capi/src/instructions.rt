// The instruction cache.
ghost use Rattle.c_cache.specs.Fetch.{FetchCall};

// A fetch over the twelve numbers of a cache state; out[0] is the number of its kind.
#[unsafe(no_mangle)]
pub extern "C" fn bh_fetch(state: &mut [u32], address: u32, control: u16, out: &mut [u32]) -> u32
    ensures { FetchCall state.old address control out.old
        result state.new out.new }
{
    c_cache::fetch(state, address, control, out)
}
