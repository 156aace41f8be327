// The values of a line from a place on: blocks of them, and searches among them.
#![tactic(auto)]

ghost use Rattle.std.specs.Prelude.{◌≡◌, Bool, List, ℕ, map, eqb};
ghost use Rattle.lists.specs.Search.{any, any_pair};
ghost use Rattle.tabs.specs.Fields.{fields_from, field_value, no_number};
ghost use Rattle.values.specs.Tests.{is_above, ComputesTest};
ghost use Rattle.values.specs.Block.{BlockAt};

// Is some field from a place on no number?
pub fn any_no_number(line: &[u8], from: usize) -> bool
    ensures { result ≡ any no_number (fields_from line.now from) }
{
    any_field(line, from, |f| tabs::no_number(f))
}

// Is some value from a place on above this one?
pub fn any_above(line: &[u8], from: usize, most: u64) -> bool
    ensures { result ≡ any (is_above most) (fields_from line.now from) }
{
    any_field(line, from, |f| most < tabs::field_value(f))
}

// Does some value stand twice among those from a place on? Block by block: in the block, or in it
// and behind it. The next block starts where the last one ends: no iterator hands that place on.
pub fn any_twice(line: &[u8], from: usize) -> bool
    ensures { result ≡ any_pair eqb (map field_value (fields_from line.now from)) }
{
    let mut p = from;
    while p <= line.len() {
        let b = block_at(line, p, 0);
        let values = b.values;
        let count = b.count;
        p = b.behind;
        if any_same(&values[..count]) {
            return true;
        }
        if any_among(line, p, &values[..count]) {
            return true;
        }
    }
    false
}

// The values of a block: as many as an axis may have.
pub const BLOCK: usize = 64;

// Values of a line, read once: so many of them, the place behind them, is some field no number, and
// is some value above a given one?
#[derive(Clone, Copy)]
pub struct Block {
    pub values: [u64; BLOCK],
    pub count: usize,
    pub behind: usize,
    pub bad: bool,
    pub above: bool,
}

// The values from a place on, at most a block of them, against the greatest that is good. A loop by
// places of the line, since the place behind the block is handed back.
pub fn block_at(line: &[u8], from: usize, most: u64) -> Block
    ensures { BlockAt line.now from most result }
{
    let mut values = [0; BLOCK];
    let mut count = 0;
    let mut p = from;
    let mut bad = false;
    let mut above = false;
    while (count < BLOCK) & (p <= line.len()) {
        let end = text::part_end(line, p, ascii::TAB);
        let number = text::parse(&line[p..end]);
        let v = number.unwrap_or(0);
        bad |= number.is_none();
        above |= most < v;
        values[count] = v;
        count += 1;
        p = end + 1;
    }
    Block {
        values,
        count,
        behind: p,
        bad,
        above,
    }
}

// Does some number stand twice?
pub fn any_same(held: &[u64]) -> bool
    ensures { result ≡ any_pair eqb held.now }
{
    let mut rest = held;
    while let Some((v, later)) = rest.split_first() {
        if is_among(later, *v) {
            return true;
        }
        rest = later;
    }
    false
}

// Is some value from a place on among the numbers held?
pub fn any_among(line: &[u8], from: usize, held: &[u64]) -> bool
    ensures { let fields = fields_from line.now from in
        result ≡ any (λ f. any (eqb (field_value f)) held.now) fields }
{
    any_field(line, from, |f| is_among(held, tabs::field_value(f)))
}

// Does some field from a place on pass a test?
fn any_field<F: Fn(&[u8]) -> bool>(line: &[u8], from: usize, test: F) -> bool
    requires { (x : _) → F.pre test x }
    ensures { (p : List ℕ → Bool) → ComputesTest F.Fn test p
        → result ≡ any p (fields_from line.now from) }
{
    let Some(rest) = line.get(from..) else {
        return false;
    };
    rest.split(|c| *c == ascii::TAB).any(|f| test(f))
}

// Is a number among those held? Every one is tested, so that the loop has no other exit (it becomes
// vectors, as `contains` does not).
fn is_among(held: &[u64], v: u64) -> bool
    ensures { result ≡ any (eqb v) held.now }
{
    held.iter().fold(false, |found, x| found | (v == *x))
}
