// DRAV for C, on numbers and lent arrays.
#![tactic(auto)]

ghost use Rattle.c_drav.specs.Calls.{DravCall};

// DRAV: draws the pixel at the point in COLOR1; out[3] is the point advanced by the step.
pub fn drav(
    memory: &mut [u16],
    settings: &[u32],
    step: u32,
    point: u32,
    v: u32,
    out: &mut [u32],
) -> u32
    ensures { DravCall memory.old settings.now step point v
        out.old result memory.new out.new }
{
    c_lone::pixel_call(memory, settings, v, point, out, |memory, s, flag| {
        drav::drav(memory, s, step, point, flag)
    })
}
