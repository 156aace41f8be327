// Fields for C: moves, memory cycles and states, on numbers and lent arrays.
#![tactic(auto)]

ghost use Rattle.std.specs.Prelude.{◌≡◌};
ghost use Rattle.c_fields.specs.Calls.{FieldReadCall, FieldWriteCall, FieldCyclesCall};
ghost use Rattle.c_fields.specs.Calls.{MoveStatesCall};

use c_arrays::BAD_CALL;
use states::Mode;
use timing::Cycles;

// Reads a field; out[0] is the register, or 0 where it is refused. The memory stays as lent.
pub fn read(memory: &mut [u16], address: u32, size: u32, signed: u32, out: &mut [u32]) -> u32
    ensures { FieldReadCall memory.old address size signed out.old
        result memory.new out.new }
{
    if out.is_empty() {
        return BAD_CALL;
    }
    let register = field::read(memory, address, size, signed != 0);
    out[0] = register.unwrap_or(0);
    answers::answer(&register)
}

// Writes the low bits of a value to a field.
pub fn write(memory: &mut [u16], address: u32, size: u32, value: u32) -> u32
    ensures { FieldWriteCall memory.old address size value
        result memory.new }
{
    answers::answer(&field::write(memory, address, size, value))
}

// Memory cycles of a field move; out[0] is those of a read, out[1] those of a write, or 0 where it
// is refused.
pub fn cycles(address: u32, size: u32, out: &mut [u32]) -> u32
    ensures { FieldCyclesCall address size out.old result out.new }
{
    if out.len() < 2 {
        return BAD_CALL;
    }
    let counted = timing::field_cycles(address, size);
    let cycles = counted.unwrap_or(Cycles { read: 0, write: 0 });
    out[0] = cycles.read;
    out[1] = cycles.write;
    answers::answer(&counted)
}

// States of MOVE memory to register; out[0] is the count, or 0 where it is refused.
pub fn move_states(
    address: u32,
    size: u32,
    mode: u32,
    signed: u32,
    cached: u32,
    out: &mut [u32],
) -> u32
    ensures { MoveStatesCall address size mode signed cached out.old
        result out.new }
{
    if out.is_empty() {
        return BAD_CALL;
    }
    let Ok(mode) = Mode::try_from(mode) else {
        return BAD_CALL;
    };
    let states = states::move_states(address, size, mode, signed != 0, cached != 0);
    out[0] = states.unwrap_or(0);
    answers::answer(&states)
}
