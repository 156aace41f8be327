// FILL timing on plain numbers (000 section 13.3): tables 13-5 to 13-7, and the rule over them. No
// public function has a requires.
#![tactic(auto)]

ghost use Rattle.std.specs.Prelude.{◌≡◌, cond, ◌^◌, ◌≤◌, ◌<◌};
ghost use Rattle.fill_tables.specs.Tables.{setup_l, setup_xy};
ghost use Rattle.fill_tables.specs.Tables.{transfer_entry, word_states, edge_states};
ghost use Rattle.fill_tables.specs.Time.{setup_time, words_of, alignment_of, length_of};
ghost use Rattle.fill_tables.specs.Time.{processing_column, transfer_time, adjustment, time_of};

// What the window does to a FILL XY: the columns of table 13-5.
#[derive(Clone, Copy)]
pub enum Adjust {
    Off,
    Fits,
    Start,
    Dimension,
    Both,
}

// Which edges of a row are on word bounds: both, the leading one, the trailing one, neither.
#[derive(Clone, Copy)]
pub enum Alignment {
    A,
    B,
    C,
    D,
}

// An entry of table 13-6: states for each row, and at the end.
#[derive(Clone, Copy)]
pub struct Entry {
    pub row: u64,
    pub end: u64,
}

// What the time of a FILL goes by: is it FILL XY, what does the window do to it, is the cache
// disabled, PP, is there plane masking or transparency; the address and the bits of a row, and the
// rows.
#[derive(Clone, Copy)]
pub struct Fill {
    pub xy: bool,
    pub adjust: Adjust,
    pub disabled: bool,
    pub pp: u16,
    pub masked: bool,
    pub start: u32,
    pub bits: u32,
    pub rows: u16,
}

// The time of a FILL in machine states: its parts, and setup and transfer less the adjustment.
#[derive(Clone, Copy, Default)]
pub struct Time {
    pub setup: u64,
    pub transfer: u64,
    pub adjustment: u64,
    pub states: u64,
}

// The time of a FILL.
pub fn time_of(f: Fill) -> Time
    ensures { result ≡ time_of f }
{
    let setup = setup_time(f);
    let transfer = transfer_time(f);
    let adjustment = adjustment_of(f);
    Time {
        setup,
        transfer,
        adjustment,
        states: setup + transfer - adjustment,
    }
}

fn setup_time(f: Fill) -> u64
    ensures { result ≡ setup_time f }
{
    let adjust = f.adjust;
    let cached = cached_setup(f.xy, adjust);
    if f.disabled { cached + 3 } else { cached }
}

// Table 13-5, without its note.
fn cached_setup(xy: bool, adjust: Adjust) -> u64
    ensures { result ≡ cond xy (setup_xy adjust) setup_l }
{
    match adjust {
        _ if !xy => 4,
        Adjust::Off => 6,
        Adjust::Fits => 9,
        Adjust::Start => 16,
        Adjust::Dimension => 12,
        Adjust::Both => 20,
    }
}

// Its bound is for the sum in `time_of`. `as`: behind `u64::from` the bound of a field isn't known.
fn transfer_time(f: Fill) -> u64
    ensures { (result ≡ transfer_time f) × (result < 2 ^ 49) }
{
    let n = words_of(f.start, f.bits);
    let e = transfer_entry(n, alignment_of(f.start, f.bits));
    let g = word_states(f.masked, f.pp);
    (e.row + n * g) * (f.rows as u64) + e.end
}

// The words that a row's bits lie in. The bound is for the product in `transfer_time`.
fn words_of(start: u32, bits: u32) -> u64
    ensures { (result ≡ words_of start bits) × (result ≤ 2 ^ 29) }
{
    (u64::from(start % 16) + u64::from(bits) + 15) / 16
}

fn alignment_of(start: u32, bits: u32) -> Alignment
    ensures { result ≡ alignment_of start bits }
{
    let leading = start % 16 == 0;
    let trailing = (u64::from(start % 16) + u64::from(bits)) % 16 == 0;
    match (leading, trailing) {
        (true, true) => Alignment::A,
        (true, false) => Alignment::B,
        (false, true) => Alignment::C,
        (false, false) => Alignment::D,
    }
}

// Table 13-6: short, medium and long rows.
fn transfer_entry(n: u64, alignment: Alignment) -> Entry
    ensures { result ≡ transfer_entry (length_of n) alignment }
{
    match n {
        0 | 1 => match alignment {
            Alignment::A => Entry { row: 1, end: 2 },
            Alignment::B => Entry { row: 2, end: 2 },
            Alignment::C | Alignment::D => Entry { row: 2, end: 1 },
        },
        2 => match alignment {
            Alignment::A => Entry { row: 2, end: 2 },
            Alignment::B | Alignment::C => Entry { row: 3, end: 2 },
            Alignment::D => Entry { row: 4, end: 1 },
        },
        _ => match alignment {
            Alignment::A => Entry { row: 1, end: 2 },
            Alignment::B => Entry { row: 2, end: 5 },
            Alignment::C => Entry { row: 3, end: 2 },
            Alignment::D => Entry { row: 4, end: 1 },
        },
    }
}

// Table 13-7: replace; the other Booleans or ADD; SUBS; ADDS, SUB, MAX or MIN.
fn word_states(masked: bool, pp: u16) -> u64
    ensures { result ≡ word_states masked (processing_column pp) }
{
    match pp {
        0 => if masked { 4 } else { 2 },
        1..=16 => if masked { 6 } else { 4 },
        19 => if masked { 8 } else { 6 },
        _ => if masked { 7 } else { 5 },
    }
}

// With plane masking or transparency only.
fn adjustment_of(f: Fill) -> u64
    ensures { result ≡ adjustment f }
{
    if f.masked {
        edge_states(alignment_of(f.start, f.bits)) * (f.rows as u64)
    } else {
        0
    }
}

// The adjustment of a row.
fn edge_states(alignment: Alignment) -> u64
    ensures { result ≡ edge_states alignment }
{
    match alignment {
        Alignment::A => 0,
        Alignment::B | Alignment::C => 2,
        Alignment::D => 4,
    }
}
