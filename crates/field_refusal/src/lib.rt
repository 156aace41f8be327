// The refusals of a field call: 10, 18 and 17, in that order. No public function has a requires.
#![tactic(auto)]

ghost use Rattle.std.specs.Prelude.{◌≡◌};
ghost use Rattle.field_refusal.specs.Size.{bad_size, meant};
ghost use Rattle.field_refusal.specs.Refusal.{field_refusal};

use answers::Refused;

// The refusal of a field call, if there is one.
#[tactic(auto, unfolding(crate::specs::Refusal::field_refusal))]
pub fn refusal_of(words: usize, address: u32, size: u32) -> Result<(), Refused>
    ensures { result ≡ field_refusal words address size }
{
    if memory::no_memory(words) {
        return Err(Refused::Memory);
    }
    if bad_size(size) {
        return Err(Refused::FieldSize);
    }
    if 16 * (words as u64) < u64::from(address) + u64::from(meant(size)) {
        return Err(Refused::End);
    }
    Ok(())
}

// Refusal 18: is this no field size?
pub fn bad_size(size: u32) -> bool
    ensures { result ≡ bad_size size }
{
    !(1..=32).contains(&size)
}

// How many bits a size means.
#[tactic(auto, unfolding(crate::specs::Size::meant))]
pub fn meant(size: u32) -> u32
    ensures { result ≡ meant size }
{
    size
}
