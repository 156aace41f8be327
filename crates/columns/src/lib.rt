// The columns of a point, with packed numbers taken apart: its line, and their heading. Each is put
// into a lent buffer where it fits whole: a public function answers the index after it, or the
// index given where it does not fit, and then nothing is written.
#![tactic(auto)]

ghost use Rattle.std.specs.Prelude.{◌≡◌, cond, [], ◌∷◌, ◌++◌, map, ◌+◌, ◌≤◌, length};
ghost use Rattle.address.specs.Coordinate.{x_of, y_of};
ghost use Rattle.listing.specs.Listing.{put, put_if, index_after};
ghost use Rattle.columns.specs.Columns.{columns_heading, columns_line};
ghost use Rattle.columns.specs.Columns.{column_table, column_count};
ghost use Rattle.columns.specs.Held.{held_text, parts_text, held_line};

use settings::Settings;

// How many columns there are.
const COLUMNS: usize = 27;

// The bytes of the heading.
pub const HEADING: usize = 156;

// No line is longer.
pub const LINE: usize = 212;

// 2^16: the low half of a register is what is left of it, the high half how often it has it.
const HALF: u32 = 65536;

// The coordinate 0, as it is held.
const ZERO: u64 = 32768;

// The heading: the names of the columns.
pub fn put_heading(out: &mut [u8], at: usize) -> usize
    ensures value { result ≡ index_after at columns_heading (length out.old) }
    ensures out_after { out.new ≡ put_if at columns_heading out.old }
{
    let text: [u8; HEADING] =
        *b"point\tSADDR\tSADDR_X\tSADDR_Y\tSPTCH\tDADDR\tDADDR_X\tDADDR_Y\tDPTCH\tOFFSET\tWSTART_X\tWSTART_Y\tWEND_X\tWEND_Y\tDX\tDY\tCOLOR0\tCOLOR1\tPP\tT\tW\tPBH\tPBV\tCD\tPSIZE\tPMASK\tSEED\n";
    put_bytes::bytes(out, at, &text)
}

// The line of a point with these values of the fourteen names.
pub fn put(out: &mut [u8], at: usize, point: u64, values: &[u64]) -> usize
    ensures value { result
        ≡ index_after at (columns_line point values.now) (length out.old) }
    ensures out_after { out.new
        ≡ put_if at (columns_line point values.now) out.old }
{
    let columns = columns_of(point, values);
    let mut text = [0u8; LINE];
    let end = line(&mut text, &columns);
    put_bytes::bytes(out, at, &text[..end])
}

// Puts the line of the columns at the start of a text with room for it.
fn line(text: &mut [u8], columns: &[Held]) -> usize
    requires columns_len { length columns.now ≡ column_count }
    requires room { length (held_line columns.now) ≤ length text.old }
    ensures value { result ≡ length (held_line columns.now) }
    ensures text_after { text.new ≡ put 0 (held_line columns.now) text.old }
{
    let last = COLUMNS - 1;
    let mut to = 0;
    for c in &columns[..last] {
        let (coordinate, n) = c.parts();
        to = column(text, to, coordinate, n, ascii::TAB);
    }
    let (coordinate, n) = columns[last].parts();
    column(text, to, coordinate, n, ascii::LINE_END)
}

// Puts the text of a column that fits, and the byte `end`. By the parts of what is held: the enum
// whole would be handed over through memory.
fn column(out: &mut [u8], at: usize, coordinate: bool, n: u64, end: u8) -> usize
    requires { at + length (parts_text coordinate n ++ (end ∷ [])) ≤ length out.old }
    ensures value { result ≡ at + length (parts_text coordinate n ++ (end ∷ [])) }
    ensures out_after { out.new ≡ put at (parts_text coordinate n ++ (end ∷ [])) out.old }
{
    if !coordinate {
        return put_bytes::number(out, at, n, end);
    }
    if n < ZERO {
        let next = put_bytes::bytes(out, at, b"-");
        return put_bytes::number(out, next, ZERO - n, end);
    }
    put_bytes::number(out, at, n - ZERO, end)
}

// ---- what the columns hold

// A column as it is held: a number, or a coordinate with 2^15 added.
#[derive(Clone, Copy)]
enum Held {
    Number(u64),
    Coordinate(u16),
}

impl Held {
    // Is it a coordinate, and the number that is held?
    fn parts(self) -> (bool, u64)
        ensures { parts_text result.0 result.1 ≡ held_text self }
    {
        match self {
            Held::Number(n) => (false, n),
            Held::Coordinate(c) => (true, u64::from(c)),
        }
    }
}

// The columns of a point with these values of the fourteen names.
fn columns_of(point: u64, values: &[u64]) -> [Held; COLUMNS]
    ensures { held_line result ≡ columns_line point values.now }
{
    let s = settings::settings_of(values);
    let seed = values.get(names::SEED).copied().unwrap_or(0);
    in_order(point, s, seed)
}

// The columns of a point, its settings and its SEED, in the order of the table.
fn in_order(point: u64, s: Settings, seed: u64) -> [Held; COLUMNS]
    ensures { map held_text result ≡ map (λ c. c.text) (column_table point s seed) }
{
    [
        Held::Number(point),
        word(s.saddr),
        x(s.saddr),
        y(s.saddr),
        word(s.sptch),
        word(s.daddr),
        x(s.daddr),
        y(s.daddr),
        word(s.dptch),
        word(s.offset),
        x(s.wstart),
        y(s.wstart),
        x(s.wend),
        y(s.wend),
        word(s.dydx % HALF),
        word(s.dydx / HALF),
        word(s.color0),
        word(s.color1),
        half(control::processing(s.control)),
        bit(control::transparency(s.control)),
        half(control::windowing(s.control)),
        bit(control::right_to_left(s.control)),
        bit(control::bottom_to_top(s.control)),
        bit(control::disabled(s.control)),
        half(s.psize),
        half(s.pmask),
        Held::Number(seed),
    ]
}

// The columns of a number with 32 bits, with 16 bits, and with one.
fn word(n: u32) -> Held
    ensures { result ≡ Held.Number n }
{
    Held::Number(u64::from(n))
}

fn half(n: u16) -> Held
    ensures { result ≡ Held.Number n }
{
    Held::Number(u64::from(n))
}

fn bit(b: bool) -> Held
    ensures { result ≡ Held.Number (cond b 1 0) }
{
    Held::Number(u64::from(b))
}

// The columns of a register's coordinates.
fn x(register: u32) -> Held
    ensures { result ≡ Held.Coordinate (x_of register) }
{
    Held::Coordinate(address::x_of(register))
}

fn y(register: u32) -> Held
    ensures { result ≡ Held.Coordinate (y_of register) }
{
    Held::Coordinate(address::y_of(register))
}
