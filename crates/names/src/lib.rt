// The fourteen names and the eight drawings, each in the scope's order: the tables of specs/ as
// code. No public function has a requires.
#![tactic(auto)]

ghost use Rattle.std.specs.Prelude.{◌≡◌, ◌+◌};
ghost use Rattle.ascii.specs.Ascii.{joined};
ghost use Rattle.names.specs.Names.{names, limit};
ghost use Rattle.names.specs.Drawings.{drawing_names};

// How many names there are, and how many settings: all but the last name, which is SEED.
pub const COUNT: usize = 14;

pub const SETTINGS: usize = 13;

// The numbers of the names: no enum, as they are places in the table of specs/ and in lists.
pub const SADDR: usize = 0;

pub const SPTCH: usize = 1;

pub const DADDR: usize = 2;

pub const DPTCH: usize = 3;

pub const OFFSET: usize = 4;

pub const WSTART: usize = 5;

pub const WEND: usize = 6;

pub const DYDX: usize = 7;

pub const COLOR0: usize = 8;

pub const COLOR1: usize = 9;

pub const CONTROL: usize = 10;

pub const PSIZE: usize = 11;

pub const PMASK: usize = 12;

pub const SEED: usize = 13;

// The value of PSIZE where nothing is said of it; that of every other name is 0.
pub const PSIZE_DEFAULT: u64 = 16;

// How many drawing_names there are.
pub const DRAWING_COUNT: u64 = 8;

// No memory of a plan has more words.
pub const PLAN_WORDS: usize = 32768;

// The greatest value of the name of a number: one less than its limit. A number that is none may
// have any value.
pub fn greatest(number: u64) -> u64
    ensures { result + 1 ≡ limit number }
{
    if number < CONTROL as u64 {
        return u32::MAX as u64;
    }
    if number < SEED as u64 {
        return u16::MAX as u64;
    }
    u64::MAX
}

// The names, with a tab between any two.
pub fn list() -> [u8; 86]
    ensures { result ≡ joined names }
{
    *b"SADDR\tSPTCH\tDADDR\tDPTCH\tOFFSET\tWSTART\tWEND\tDYDX\tCOLOR0\tCOLOR1\tCONTROL\tPSIZE\tPMASK\tSEED"
}

// The names of the drawings, with a tab between any two.
pub fn drawings() -> [u8; 85]
    ensures { result ≡ joined drawing_names }
{
    *b"FILL L\tFILL XY\tPIXBLT L,L\tPIXBLT L,XY\tPIXBLT XY,L\tPIXBLT XY,XY\tPIXBLT B,L\tPIXBLT B,XY"
}
