// What a call answers: 0 where it is done, or the number of its refusal.
#![tactic(auto)]

ghost use Rattle.std.specs.Prelude.{◌≡◌};
ghost use Rattle.answers.specs.Answer.{refusal_number, answer};

// Bad arguments, which the scope has no number for, and the scope's refusals in its order.
#[derive(Clone, Copy, Debug, PartialEq, Eq)]
pub enum Refused {
    Arguments,
    Memory,
    PixelSize,
    Control,
    Pitch,
    Window,
    Place,
    Start,
    End,
    FieldSize,
    CacheState,
    Form,
    Name,
    Value,
    Count,
    Point,
}

impl From<Refused> for u32 {
    ghost from_gives = { λ r n. n ≡ refusal_number r };

    fn from(r: Refused) -> u32 {
        match r {
            Refused::Arguments => 9,
            Refused::Memory => 10,
            Refused::PixelSize => 11,
            Refused::Control => 12,
            Refused::Pitch => 13,
            Refused::Window => 14,
            Refused::Place => 15,
            Refused::Start => 16,
            Refused::End => 17,
            Refused::FieldSize => 18,
            Refused::CacheState => 19,
            Refused::Form => 20,
            Refused::Name => 21,
            Refused::Value => 22,
            Refused::Count => 23,
            Refused::Point => 24,
        }
    }
}

// The answer of a call: 0 where it is done, else the refusal's number.
pub fn answer<T>(done: &Result<T, Refused>) -> u32
    ensures { result ≡ answer done.now }
{
    match done {
        Ok(_) => 0,
        Err(r) => u32::from(*r),
    }
}
