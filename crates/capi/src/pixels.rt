// Single pixels: PIXT and DRAV.
ghost use Rattle.c_pixt_to.specs.Calls.{PixtToLinearCall, PixtToXYCall};
ghost use Rattle.c_pixt_from.specs.Calls.{PixtFromLinearCall, PixtFromXYCall};
ghost use Rattle.c_drav.specs.Calls.{DravCall};

// PIXT register to memory at a linear address.
#[unsafe(no_mangle)]
pub extern "C" fn bh_pixt_to_linear(
    memory: &mut [u16],
    settings: &[u32],
    value: u32,
    address: u32,
    v: u32,
    out: &mut [u32],
) -> u32
    ensures { PixtToLinearCall memory.old settings.now value address v
        out.old result memory.new out.new }
{
    c_pixt_to::pixt_to_linear(memory, settings, value, address, v, out)
}

// PIXT register to memory at an XY address.
#[unsafe(no_mangle)]
pub extern "C" fn bh_pixt_to_xy(
    memory: &mut [u16],
    settings: &[u32],
    value: u32,
    xy: u32,
    v: u32,
    out: &mut [u32],
) -> u32
    ensures { PixtToXYCall memory.old settings.now value xy v
        out.old result memory.new out.new }
{
    c_pixt_to::pixt_to_xy(memory, settings, value, xy, v, out)
}

// PIXT memory at a linear address to register. The memory stays as lent.
#[unsafe(no_mangle)]
pub extern "C" fn bh_pixt_from_linear(
    memory: &mut [u16],
    settings: &[u32],
    address: u32,
    v: u32,
    out: &mut [u32],
) -> u32
    ensures { PixtFromLinearCall memory.old settings.now address v
        out.old result memory.new out.new }
{
    c_pixt_from::pixt_from_linear(memory, settings, address, v, out)
}

// PIXT memory at an XY address to register. The memory stays as lent.
#[unsafe(no_mangle)]
pub extern "C" fn bh_pixt_from_xy(
    memory: &mut [u16],
    settings: &[u32],
    xy: u32,
    v: u32,
    out: &mut [u32],
) -> u32
    ensures { PixtFromXYCall memory.old settings.now xy v
        out.old result memory.new out.new }
{
    c_pixt_from::pixt_from_xy(memory, settings, xy, v, out)
}

// DRAV: draws the pixel at the point in COLOR1; out[3] is the point advanced by the step.
#[unsafe(no_mangle)]
pub extern "C" fn bh_drav(
    memory: &mut [u16],
    settings: &[u32],
    step: u32,
    point: u32,
    v: u32,
    out: &mut [u32],
) -> u32
    ensures { DravCall memory.old settings.now step point v
        out.old result memory.new out.new }
{
    c_drav::drav(memory, settings, step, point, v, out)
}
