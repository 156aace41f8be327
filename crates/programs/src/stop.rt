// Why a program ends before all is done. What is to be said of it is written already.
ghost use Rattle.std.specs.Prelude.{◌≤◌};

use plan::BadPlan;

// The plan is refused, as reading it told; or an error, which is one line on standard error.
#[derive(Clone, Copy)]
pub enum Stop {
    Refused(BadPlan),
    Error,
}

impl From<Stop> for u8 {
    ghost from_gives = { λ _ r. r ≤ 2 };

    fn from(stop: Stop) -> u8 {
        match stop {
            Stop::Refused(_) => 1,
            Stop::Error => 2,
        }
    }
}

// The status that a program ends with.
pub fn status(ended: Result<(), Stop>) -> u8
    ensures { result ≤ 2 }
{
    match ended {
        Ok(()) => 0,
        Err(stop) => stop.into(),
    }
}
