// The settings of a drawing: the scope's thirteen names, in its order. CONTROL, PSIZE and PMASK are
// 16 bits wide.
#![tactic(auto)]

ghost use Rattle.std.specs.Prelude.{◌≡◌, ◌%◌, ◌^◌, get_or};
ghost use Rattle.settings.specs.Settings.{settings_of};

#[derive(Clone, Copy)]
pub struct Settings {
    pub saddr: u32,
    pub sptch: u32,
    pub daddr: u32,
    pub dptch: u32,
    pub offset: u32,
    pub wstart: u32,
    pub wend: u32,
    pub dydx: u32,
    pub color0: u32,
    pub color1: u32,
    pub control: u16,
    pub psize: u16,
    pub pmask: u16,
}

// The settings that the first thirteen numbers are; one past the end is 0.
#[tactic(auto, unfolding(crate::specs::Settings::settings_of))]
pub fn settings_of(numbers: &[u64]) -> Settings
    ensures { result ≡ settings_of numbers.now }
{
    Settings {
        saddr: word_at(numbers, names::SADDR),
        sptch: word_at(numbers, names::SPTCH),
        daddr: word_at(numbers, names::DADDR),
        dptch: word_at(numbers, names::DPTCH),
        offset: word_at(numbers, names::OFFSET),
        wstart: word_at(numbers, names::WSTART),
        wend: word_at(numbers, names::WEND),
        dydx: word_at(numbers, names::DYDX),
        color0: word_at(numbers, names::COLOR0),
        color1: word_at(numbers, names::COLOR1),
        control: half_at(numbers, names::CONTROL),
        psize: half_at(numbers, names::PSIZE),
        pmask: half_at(numbers, names::PMASK),
    }
}

// The low 32 bits of a number.
fn word_at(numbers: &[u64], at: usize) -> u32
    ensures { result ≡ get_or numbers.now at 0 % 2 ^ 32 }
{
    (number_at(numbers, at) % (1 << 32)) as u32
}

// The low 16 bits of a number. No twin of word_at to be one generic with it: the types differ, and
// a trait with an impl for each would be no plainer.
fn half_at(numbers: &[u64], at: usize) -> u16
    ensures { result ≡ get_or numbers.now at 0 % 2 ^ 16 }
{
    (number_at(numbers, at) % (1 << 16)) as u16
}

// A number; one past the end is 0.
fn number_at(numbers: &[u64], at: usize) -> u64
    ensures { result ≡ get_or numbers.now at 0 }
{
    numbers.get(at).copied().unwrap_or(0)
}
