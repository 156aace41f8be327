// Lines of `point`: numbers in decimal and hexadecimal and taken apart, and answers in words.
use crate::writer::Writer;
use drawing::Outcome;
use operation::Operation;
use settings::Settings;
use windows::{Clipped, Rectangle};

// X or Y 0, as coordinates are held. (`address` has this and the next in 32 bits.)
const ZERO: u64 = 32768;

// The halves of a register.
const HALF: u64 = 65536;

// The refusal that `refusal_of` begins with.
const FIRST_REFUSAL: u32 = 10;

impl Writer<'_> {
    // The fourteen values, each with its name.
    pub fn values(&mut self, v: &[u64; names::COUNT]) -> &mut Self {
        self.addresses(v).sizes(v).colors(v).pixels(v)
    }

    fn addresses(&mut self, v: &[u64; names::COUNT]) -> &mut Self {
        self.xy_value(b"SADDR\t", v[names::SADDR])
            .value(b"SPTCH\t", v[names::SPTCH])
            .xy_value(b"DADDR\t", v[names::DADDR])
            .value(b"DPTCH\t", v[names::DPTCH])
            .value(b"OFFSET\t", v[names::OFFSET])
    }

    fn sizes(&mut self, v: &[u64; names::COUNT]) -> &mut Self {
        let dydx = v[names::DYDX];
        self.xy_value(b"WSTART\t", v[names::WSTART])
            .xy_value(b"WEND\t", v[names::WEND])
            .named(b"DYDX\t", dydx, ascii::TAB)
            .hex(dydx)
            .named(b"\tDX ", dydx % HALF, b',')
            .named(b" DY ", dydx / HALF, ascii::LINE_END)
    }

    fn colors(&mut self, v: &[u64; names::COUNT]) -> &mut Self {
        self.value(b"COLOR0\t", v[names::COLOR0])
            .value(b"COLOR1\t", v[names::COLOR1])
            .control(v[names::CONTROL])
    }

    fn pixels(&mut self, v: &[u64; names::COUNT]) -> &mut Self {
        self.value(b"PSIZE\t", v[names::PSIZE])
            .value(b"PMASK\t", v[names::PMASK])
            .value(b"SEED\t", v[names::SEED])
    }

    // A value with its name, in decimal and hexadecimal.
    fn value(&mut self, name: &[u8], n: u64) -> &mut Self {
        self.named(name, n, ascii::TAB).hex(n).bytes(b"\n")
    }

    // A value with its name, in decimal and hexadecimal and taken apart as X and Y.
    fn xy_value(&mut self, name: &[u8], n: u64) -> &mut Self {
        let xy = (n % (HALF * HALF)) as u32;
        self.named(name, n, ascii::TAB)
            .hex(n)
            .bytes(b"\tX ")
            .signed(u64::from(address::x_of(xy)), b',')
            .bytes(b" Y ")
            .signed(u64::from(address::y_of(xy)), ascii::LINE_END)
    }

    // A number in hexadecimal.
    fn hex(&mut self, n: u64) -> &mut Self {
        let mut text = [0u8; 16];
        let k = io::hex(n, 1, &mut text);
        self.bytes(&text[..k]).bytes(b"h")
    }

    // A coordinate, which is held with 2^15 added, as a signed number, and a byte. (`columns` puts
    // one at an index.)
    fn signed(&mut self, c: u64, end: u8) -> &mut Self {
        if c < ZERO {
            return self.bytes(b"-").number(ZERO - c, end);
        }
        self.number(c - ZERO, end)
    }

    // CONTROL's parts.
    fn control(&mut self, value: u64) -> &mut Self {
        let control = (value % HALF) as u16;
        let pp = u64::from(control::processing(control));
        self.named(b"CONTROL\t", value, ascii::TAB)
            .hex(value)
            .named(b"\tPP ", pp, b' ')
            .bytes(b"(")
            .bytes(words_of(pp))
            .bytes(b")")
            .flags(control)
    }

    fn flags(&mut self, control: u16) -> &mut Self {
        self.flag(b", T ", control::transparency(control), b',')
            .named(b" W ", u64::from(control::windowing(control)), b',')
            .flag(b" PBH ", control::right_to_left(control), b',')
            .flag(b" PBV ", control::bottom_to_top(control), b',')
            .flag(b" CD ", control::disabled(control), ascii::LINE_END)
    }

    // A word, a flag and a byte.
    fn flag(&mut self, word: &[u8], flag: bool, end: u8) -> &mut Self {
        self.named(word, u64::from(flag), end)
    }

    // What a drawing hands back, with the bits that it changed and its states.
    pub fn outcome(&mut self, o: Outcome, changed: u64, states: u64) -> &mut Self {
        self.answer(o.answer)
            .named(b"visited\t", o.visited, ascii::LINE_END)
            .named(b"changed\t", changed, ascii::LINE_END)
            .named(b"states\t", states, ascii::LINE_END)
            .flag(b"V\t", o.v, ascii::LINE_END)
            .flag(b"request\t", o.request, ascii::LINE_END)
            .value(b"SADDR after\t", u64::from(o.saddr))
            .value(b"DADDR after\t", u64::from(o.daddr))
            .value(b"DYDX after\t", u64::from(o.dydx))
    }

    // The answer, with its words.
    fn answer(&mut self, answer: u32) -> &mut Self {
        self.named(b"answer\t", u64::from(answer), ascii::TAB);
        if answer < FIRST_REFUSAL {
            return self.bytes(b"done\n");
        }
        self.bytes(b"refused: ")
            .bytes(refusal_of(answer - FIRST_REFUSAL))
            .bytes(b"\n")
    }

    // The destination, and what the window leaves of it.
    pub fn arrays(&mut self, op: Operation, s: Settings) -> &mut Self {
        let r = arrays::rectangle_of(s);
        self.bytes(b"array\t");
        if operation::to_xy(op) {
            return self.clipped(r, arrays::clipped_array(op, s));
        }
        self.cols(u64::from(r.cols), u64::from(r.rows))
    }

    fn clipped(&mut self, r: Rectangle, c: Clipped) -> &mut Self {
        let (x, y) = (u64::from(r.x), u64::from(r.y));
        self.rectangle(x, y, u64::from(r.cols), u64::from(r.rows))
            .bytes(b"drawn\t")
            .rectangle(
                x + u64::from(c.left),
                y + u64::from(c.above),
                u64::from(c.cols),
                u64::from(c.rows),
            )
    }

    // A rectangle: its columns and rows, and where it lies.
    fn rectangle(&mut self, x: u64, y: u64, cols: u64, rows: u64) -> &mut Self {
        if cols == 0 || rows == 0 {
            return self.bytes(b"nothing\n");
        }
        self.span(b"X ", x, cols)
            .span(b"Y ", y, rows)
            .cols(cols, rows)
    }

    // Coordinates from one on.
    fn span(&mut self, name: &[u8], from: u64, count: u64) -> &mut Self {
        let last = from.wrapping_add(count).wrapping_sub(1);
        self.bytes(name)
            .signed(from, b' ')
            .bytes(b"to ")
            .signed(last, b',')
            .bytes(b" ")
    }

    fn cols(&mut self, cols: u64, rows: u64) -> &mut Self {
        self.number(cols, b' ')
            .named(b"columns, ", rows, b' ')
            .bytes(b"rows\n")
    }
}

// What PP stands for (the scope, "One pixel"). PP is a number here, as `plot::process` has it; 22
// to 31 stand for nothing, and are told as they were.
fn words_of(pp: u64) -> &'static [u8] {
    match pp {
        0 => b"S",
        1 => b"S and D",
        2 => b"S and not D",
        3 => b"0",
        4 => b"S or not D",
        5 => b"S xnor D",
        6 => b"not D",
        7 => b"S nor D",
        8 => b"S or D",
        9 => b"D",
        10 => b"S xor D",
        11 => b"not S and D",
        12 => b"all ones",
        13 => b"not S or D",
        14 => b"S nand D",
        15 => b"not S",
        16 => b"S + D",
        17 => b"S + D, at most top",
        18 => b"D - S",
        19 => b"D - S, at least 0",
        20 => b"greater",
        21 => b"lesser",
        22 => b"none",
        _ => b"",
    }
}

// What the n-th refusal of a drawing means: by number, as `Outcome` has its answer.
fn refusal_of(n: u32) -> &'static [u8] {
    match n {
        0 => b"the memory is empty or too large",
        1 => b"PSIZE isn't 1, 2, 4, 8 or 16",
        2 => b"PP is above 21",
        3 => b"a pitch that is used is bad",
        4 => b"the window is bad",
        5 => b"the place is too large",
        6 => b"a start is negative or no multiple of PSIZE",
        7 => b"a pixel lies past the end of the memory",
        _ => b"",
    }
}
