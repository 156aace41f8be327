// PIXT register to memory for C, on numbers and lent arrays.
#![tactic(auto)]

ghost use Rattle.c_pixt_to.specs.Calls.{PixtToLinearCall, PixtToXYCall};

// PIXT register to memory at a linear address.
pub fn pixt_to_linear(
    memory: &mut [u16],
    settings: &[u32],
    value: u32,
    address: u32,
    v: u32,
    out: &mut [u32],
) -> u32
    ensures { PixtToLinearCall memory.old settings.now value address v
        out.old result memory.new out.new }
{
    c_lone::pixel_call(memory, settings, v, 0, out, |memory, s, flag| {
        pixt::pixt_to_linear(memory, s, value, address, flag)
    })
}

// PIXT register to memory at an XY address.
pub fn pixt_to_xy(
    memory: &mut [u16],
    settings: &[u32],
    value: u32,
    xy: u32,
    v: u32,
    out: &mut [u32],
) -> u32
    ensures { PixtToXYCall memory.old settings.now value xy v
        out.old result memory.new out.new }
{
    c_lone::pixel_call(memory, settings, v, 0, out, |memory, s, flag| {
        pixt::pixt_to_xy(memory, s, value, xy, flag)
    })
}
