// PIXT memory to register for C, on numbers and lent arrays.
#![tactic(auto)]

ghost use Rattle.c_pixt_from.specs.Calls.{PixtFromLinearCall, PixtFromXYCall};

// PIXT memory at a linear address to register. The memory stays as lent.
pub fn pixt_from_linear(
    memory: &mut [u16],
    settings: &[u32],
    address: u32,
    v: u32,
    out: &mut [u32],
) -> u32
    ensures { PixtFromLinearCall memory.old settings.now address v
        out.old result memory.new out.new }
{
    c_lone::pixel_call(memory, settings, v, 0, out, |memory, s, flag| {
        pixt::pixt_from_linear(memory, s, address, flag)
    })
}

// PIXT memory at an XY address to register. The memory stays as lent.
pub fn pixt_from_xy(memory: &mut [u16], settings: &[u32], xy: u32, v: u32, out: &mut [u32]) -> u32
    ensures { PixtFromXYCall memory.old settings.now xy v
        out.old result memory.new out.new }
{
    c_lone::pixel_call(memory, settings, v, 0, out, |memory, s, flag| {
        pixt::pixt_from_xy(memory, s, xy, flag)
    })
}
