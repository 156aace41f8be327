// The machine states of MOVE memory to register. No public function has a requires.
#![tactic(auto)]

ghost use Rattle.std.specs.Prelude.{◌≡◌, ◌≤◌, cond, Ok, Err};
ghost use Rattle.answers.specs.declared.Refused.TheVariants.{Arguments};
ghost use Rattle.states.specs.Mode.{bad_mode, mode_of};
ghost use Rattle.states.specs.MoveStates.{cached_states, uncached_states, base_states};
ghost use Rattle.states.specs.MoveStates.{mode_states, move_states};

use answers::Refused;
use timing::Case;

// How MOVE names its source.
#[derive(Clone, Copy, Debug, PartialEq, Eq)]
pub enum Mode {
    Indirect,
    Postincrement,
    Predecrement,
}

// The modes as numbers: 0, 1 and 2. No other number is a mode.
impl TryFrom<u32> for Mode {
    type Error = Refused;

    ghost try_from_gives = { λ mode r.
        r ≡ cond (bad_mode mode) (Err Arguments) (Ok (mode_of mode)) };

    fn try_from(mode: u32) -> Result<Mode, Refused> {
        match mode {
            0 => Ok(Mode::Indirect),
            1 => Ok(Mode::Postincrement),
            2 => Ok(Mode::Predecrement),
            _ => Err(Refused::Arguments),
        }
    }
}

// The machine states of MOVE memory to register. The address is the field's own; cached says that
// the instruction is in cache.
#[tactic(auto, unfolding(crate::specs::MoveStates::move_states))]
pub fn move_states(
    address: u32,
    size: u32,
    mode: Mode,
    signed: bool,
    cached: bool,
) -> Result<u32, Refused>
    ensures { result ≡ move_states address size mode signed cached }
{
    if field_refusal::bad_size(size) {
        return Err(Refused::FieldSize);
    }
    let case = timing::case_of(address % 16, field_refusal::meant(size));
    let base = base_states(case, cached);
    Ok(base + mode_states(mode) + u32::from(signed))
}

// States of MOVE indirect.
fn base_states(case: Case, cached: bool) -> u32
    ensures { (result ≡ base_states case cached) × (result ≤ 10) }
{
    if cached {
        cached_states(case)
    } else {
        uncached_states(case)
    }
}

// States of MOVE indirect, in cache.
fn cached_states(case: Case) -> u32
    ensures { (result ≡ cached_states case) × (result ≤ 7) }
{
    match case {
        Case::A | Case::B => 3,
        Case::C | Case::D | Case::E | Case::F => 5,
        Case::G => 7,
    }
}

// States of MOVE indirect, without the cache.
fn uncached_states(case: Case) -> u32
    ensures { (result ≡ uncached_states case) × (result ≤ 10) }
{
    match case {
        Case::A | Case::B => 6,
        Case::C | Case::D | Case::E | Case::F => 8,
        Case::G => 10,
    }
}

// States that the mode adds.
fn mode_states(mode: Mode) -> u32
    ensures { (result ≡ mode_states mode) × (result ≤ 1) }
{
    match mode {
        Mode::Indirect | Mode::Postincrement => 0,
        Mode::Predecrement => 1,
    }
}
