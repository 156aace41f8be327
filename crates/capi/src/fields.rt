// Fields: moves, memory cycles and states.
ghost use Rattle.c_fields.specs.Calls.{FieldReadCall, FieldWriteCall, FieldCyclesCall};
ghost use Rattle.c_fields.specs.Calls.{MoveStatesCall};

// Reads a field; out[0] is the register. The memory stays as lent.
#[unsafe(no_mangle)]
pub extern "C" fn bh_field_read(
    memory: &mut [u16],
    address: u32,
    size: u32,
    signed: u32,
    out: &mut [u32],
) -> u32
    ensures { FieldReadCall memory.old address size signed out.old
        result memory.new out.new }
{
    c_fields::read(memory, address, size, signed, out)
}

// Writes the low bits of a value to a field.
#[unsafe(no_mangle)]
pub extern "C" fn bh_field_write(memory: &mut [u16], address: u32, size: u32, value: u32) -> u32
    ensures { FieldWriteCall memory.old address size value
        result memory.new }
{
    c_fields::write(memory, address, size, value)
}

// Memory cycles of a field move; out[0] is those of a read, out[1] those of a write.
#[unsafe(no_mangle)]
pub extern "C" fn bh_field_cycles(address: u32, size: u32, out: &mut [u32]) -> u32
    ensures { FieldCyclesCall address size out.old result out.new }
{
    c_fields::cycles(address, size, out)
}

// States of MOVE memory to register; out[0] is the count.
#[unsafe(no_mangle)]
pub extern "C" fn bh_move_states(
    address: u32,
    size: u32,
    mode: u32,
    signed: u32,
    cached: u32,
    out: &mut [u32],
) -> u32
    ensures { MoveStatesCall address size mode signed cached out.old
        result out.new }
{
    c_fields::move_states(address, size, mode, signed, cached, out)
}
