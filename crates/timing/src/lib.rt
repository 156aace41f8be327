// What a field move costs: the case of its alignment and size, and the memory cycles of a read and
// of a write. No public function has a requires.
#![tactic(auto)]

ghost use Rattle.std.specs.Prelude.{◌≡◌};
ghost use Rattle.timing.specs.Cycles.{case_of, read_cycles, write_cycles, cycles_of};

use answers::Refused;

// The cases of a field's alignment and size (003 section 4.1).
#[derive(Clone, Copy, Debug, PartialEq, Eq)]
pub enum Case {
    A,
    B,
    C,
    D,
    E,
    F,
    G,
}

// The memory cycles of a read and of a write.
#[derive(Clone, Copy, Debug, PartialEq, Eq)]
pub struct Cycles {
    pub read: u32,
    pub write: u32,
}

// The memory cycles of a field move. The address is the field's own.
#[tactic(auto, unfolding(crate::specs::Cycles::cycles_of))]
pub fn field_cycles(address: u32, size: u32) -> Result<Cycles, Refused>
    ensures { result ≡ cycles_of address size }
{
    if field_refusal::bad_size(size) {
        return Err(Refused::FieldSize);
    }
    let case = case_of(address % 16, field_refusal::meant(size));
    let read = read_cycles(case);
    let write = write_cycles(case);
    Ok(Cycles { read, write })
}

// The case of a field at bit s of a word.
#[tactic(auto, unfolding(crate::specs::Cycles::case_of))]
pub fn case_of(s: u32, n: u32) -> Case
    ensures { result ≡ case_of s n }
{
    let end = u64::from(s) + u64::from(n);
    if (s == 0) & (n == 16) {
        return Case::A;
    }
    if (n < 16) & (end <= 16) {
        return Case::B;
    }
    if (s == 0) & (n == 32) {
        return Case::C;
    }
    if (16 < n) & ((end == 32) & (0 < s)) {
        return Case::D;
    }
    if (s == 0) & ((16 < n) & (n < 32)) {
        return Case::E;
    }
    if (0 < s) & ((16 < end) & (end < 32)) {
        return Case::F;
    }
    Case::G
}

fn read_cycles(case: Case) -> u32
    ensures { result ≡ read_cycles case }
{
    match case {
        Case::A | Case::B => 1,
        Case::C | Case::D | Case::E | Case::F => 2,
        Case::G => 3,
    }
}

fn write_cycles(case: Case) -> u32
    ensures { result ≡ write_cycles case }
{
    match case {
        Case::A => 1,
        Case::B | Case::C => 2,
        Case::D | Case::E => 3,
        Case::F => 4,
        Case::G => 5,
    }
}
