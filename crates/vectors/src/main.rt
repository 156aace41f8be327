// Compares the library with test vectors from standard input. A line is 20 numbers of 8 upper-case
// hex digits, parted by one space and ended by byte 10: 180 bytes. The first number is the kind.
// The numbers of each kind are listed at the function that compares it.
#![tactic(auto)]

ghost use Rattle.std.specs.Prelude.{◌≤◌};
ghost use Rattle.io.specs.Counts.{IsPrefixLen};

use answers::answer;
use cache::Cache;
use segments::Segment;
use states::Mode;
use std::io::Read;
use std::{array, fmt};
use timing::Cycles;

// So many numbers stand in a line, each of so many digits and with a byte behind it.
const NUMBERS: usize = 20;

const DIGITS: usize = 8;

// A line has so many bytes.
const LINE: usize = NUMBERS * (DIGITS + 1);

// How many tests there are.
const TESTS: usize = 8;

// So many of the lines that differ are told of, and no more.
const TOLD: u64 = 20;

// How many values half a number of a line has, and a whole one.
const HALF: u32 = 1 << 16;

const WHOLE: u64 = 1 << 32;

// What a line tests. A line that is no vector is a test too: it has a count and a name.
#[derive(Clone, Copy)]
enum Test {
    NoVector,
    Read,
    Write,
    Cycles,
    States,
    Fetch,
    Image,
    Changed,
}

// The test of a line's kind.
impl From<u32> for Test {
    fn from(kind: u32) -> Test {
        match kind {
            1 => Test::Read,
            2 => Test::Write,
            3 => Test::Cycles,
            4 => Test::States,
            5 => Test::Fetch,
            6 => Test::Image,
            7 => Test::Changed,
            _ => Test::NoVector,
        }
    }
}

impl fmt::Display for Test {
    fn fmt<W: fmt::Write>(&self, f: &mut fmt::Formatter<W>) -> fmt::Result {
        match self {
            Test::NoVector => write!(f, "no vector"),
            Test::Read => write!(f, "field read"),
            Test::Write => write!(f, "field write"),
            Test::Cycles => write!(f, "cycles"),
            Test::States => write!(f, "MOVE states"),
            Test::Fetch => write!(f, "fetch"),
            Test::Image => write!(f, "image"),
            Test::Changed => write!(f, "changed"),
        }
    }
}

// How many lines there were, and how many of them differ.
#[derive(Clone, Copy, Default)]
struct Count {
    vectors: u64,
    differ: u64,
}

impl Count {
    // With a line more.
    fn and(self, differs: bool) -> Count {
        Count {
            vectors: self.vectors.wrapping_add(1),
            differ: self.differ.wrapping_add(u64::from(differs)),
        }
    }
}

impl fmt::Display for Count {
    fn fmt<W: fmt::Write>(&self, f: &mut fmt::Formatter<W>) -> fmt::Result {
        let vectors = self.vectors;
        let differ = self.differ;
        write!(f, "{vectors} vectors, {differ} differ")
    }
}

// The counts of all lines, and of those of each test.
#[derive(Clone, Copy)]
struct Counts {
    all: Count,
    of: [Count; TESTS],
}

// A proof does not know that a test's number is below TESTS: it is asked.
impl Counts {
    fn of(&self, test: Test) -> Count {
        let i = test as usize;
        self.of.get(i).copied().unwrap_or_default()
    }

    fn add(&mut self, test: Test, differs: bool) {
        let i = test as usize;
        self.all = self.all.and(differs);
        if i < self.of.len() {
            self.of[i] = self.of[i].and(differs);
        }
    }
}

fn main(rt: HostRuntime) {
    let mut counts = Counts {
        all: Count::default(),
        of: [Count::default(); TESTS],
    };
    compare_all(&rt, &mut counts);
    report(&rt, &counts);
}

// Compares line by line. A proved loop has to end, and nothing says that the input does, so the
// loop has a last turn that no run reaches.
fn compare_all(rt: &(impl Print + Input), counts: &mut Counts) {
    let mut input = rt.reader();
    for line in 1..u64::MAX {
        if !compare_line(rt, &mut input, line, counts) {
            break;
        }
    }
}

// Reads and compares one line; false where the input has ended.
fn compare_line(rt: &impl Print, input: &mut impl Read, line: u64, counts: &mut Counts) -> bool {
    let mut bytes = [0u8; LINE];
    let got = read_full(input, &mut bytes);
    if got == 0 {
        return false;
    }
    let n = numbers(&bytes);
    let test = if is_line(&bytes[..got]) {
        Test::from(n[0])
    } else {
        Test::NoVector
    };
    let differs = !agrees(test, n);
    if differs && counts.all.differ < TOLD {
        let _ = println!(rt; "differs at line {line}: {test}");
    }
    counts.add(test, differs);
    true
}

// Reads until the buffer is full, the input ends or a read fails, and gives how many bytes it put
// at the buffer's start. A loop, since `read_exact` does not say how many came before the end.
// `programs` has its own: no crate below both reads.
fn read_full(input: &mut impl Read, buffer: &mut [u8]) -> usize
    ensures { IsPrefixLen result buffer.new }
{
    let mut done = 0;
    while done < buffer.len() {
        match input.read(&mut buffer[done..]) {
            Ok(0) | Err(_) => break,
            Ok(n) => done += n,
        }
    }
    done
}

// Does what the library gives agree with every number that a vector expects?
fn agrees(test: Test, n: [u32; NUMBERS]) -> bool {
    match test {
        Test::NoVector => false,
        Test::Read => read_agrees(n),
        Test::Write => write_agrees(n),
        Test::Cycles => cycles_agree(n),
        Test::States => states_agree(n),
        Test::Fetch => fetch_agrees(n),
        Test::Image => image_agrees(n),
        Test::Changed => changed_agrees(n),
    }
}

// 1: words, address, size, signed, m0..m3, answer, value. The memory stays.
fn read_agrees(n: [u32; NUMBERS]) -> bool {
    let mut m = [word(n[5]), word(n[6]), word(n[7]), word(n[8])];
    let words = held(n[1], &m);
    let r = field::read(&mut m[..words], n[2], n[3], n[4] == 1);
    let kept = are_words(m, n[5], n[6], n[7], n[8]);
    n[1] <= 4 && answer(&r) == n[9] && r.unwrap_or(0) == n[10] && kept
}

// 2: words, address, size, value, m0..m3, answer, m0..m3 after.
fn write_agrees(n: [u32; NUMBERS]) -> bool {
    let mut m = [word(n[5]), word(n[6]), word(n[7]), word(n[8])];
    let words = held(n[1], &m);
    let r = field::write(&mut m[..words], n[2], n[3], n[4]);
    let after = are_words(m, n[10], n[11], n[12], n[13]);
    n[1] <= 4 && answer(&r) == n[9] && after
}

// 3: address, size, answer, read cycles, write cycles.
fn cycles_agree(n: [u32; NUMBERS]) -> bool {
    let r = timing::field_cycles(n[1], n[2]);
    let cycles = r.unwrap_or(Cycles { read: 0, write: 0 });
    answer(&r) == n[3] && cycles.read == n[4] && cycles.write == n[5]
}

// 4: address, size, mode, signed, cached, answer, states.
fn states_agree(n: [u32; NUMBERS]) -> bool {
    let Ok(mode) = Mode::try_from(n[3]) else {
        return false;
    };
    let r = states::move_states(n[1], n[2], mode, n[4] == 1, n[5] == 1);
    answer(&r) == n[6] && r.unwrap_or(0) == n[7]
}

// 5: start0..start3, flags, order, address, control, kind, start0..start3, flags, order after.
fn fetch_agrees(n: [u32; NUMBERS]) -> bool {
    let given = cache_of(n[1], n[2], n[3], n[4], n[5], n[6]);
    let after = cache_of(n[10], n[11], n[12], n[13], n[14], n[15]);
    let done = given.fetch(n[7], word(n[8]));
    let kind = match done {
        Ok(fetched) => u32::from(fetched.kind),
        Err(refused) => u32::from(refused),
    };
    kind == n[9] && given.left(done) == after
}

// 6: seed low, seed high, words, word 0..11, answer.
fn image_agrees(n: [u32; NUMBERS]) -> bool {
    let mut m = [0u16; 12];
    let words = held(n[3], &m);
    let answer = answers::answer(&image::fill_image(&mut m[..words], wide(n[1], n[2])));
    let a = are_words([m[0], m[1], m[2], m[3]], n[4], n[5], n[6], n[7]);
    let b = are_words([m[4], m[5], m[6], m[7]], n[8], n[9], n[10], n[11]);
    let c = are_words([m[8], m[9], m[10], m[11]], n[12], n[13], n[14], n[15]);
    n[3] <= 12 && answer == n[16] && a && b && c
}

// 7: words a, words b, a0..a3, b0..b3, answer, count.
fn changed_agrees(n: [u32; NUMBERS]) -> bool {
    let a = [word(n[3]), word(n[4]), word(n[5]), word(n[6])];
    let b = [word(n[7]), word(n[8]), word(n[9]), word(n[10])];
    let before = held(n[1], &a);
    let after = held(n[2], &b);
    let r = memory::changed(&a[..before], &b[..after]);
    let answer = answers::answer(&r);
    n[1] <= 4 && n[2] <= 4 && answer == n[11] && r.unwrap_or(0) == wide(n[12], 0)
}

// How many words of the memory a call is lent: all of it where the vector asks for more.
fn held(words: u32, memory: &[u16]) -> usize
    ensures { IsPrefixLen result memory.now }
{
    memory.len().min(words as usize)
}

// A number of 64 bits from its halves.
fn wide(low: u32, high: u32) -> u64 {
    u64::from(low) + WHOLE * u64::from(high)
}

// A number as a word of memory.
fn word(x: u32) -> u16 {
    (x % HALF) as u16
}

// Are these the four words?
fn are_words(m: [u16; 4], a: u32, b: u32, c: u32, d: u32) -> bool {
    m.map(u32::from) == [a, b, c, d]
}

// A cache state: segment i's eight flags are bits 8i to 8i+7 of flags; the order is four
// bytes, the least recent lowest.
fn cache_of(a: u32, b: u32, c: u32, d: u32, flags: u32, order: u32) -> Cache {
    let [p, q, r, s] = flags.to_le_bytes();
    Cache {
        segments: [segment(a, p), segment(b, q), segment(c, r), segment(d, s)],
        order: order.to_le_bytes(),
    }
}

// A segment from its start address and eight flags, flag 0 lowest. (`c_state` has a function for
// the numbers of its calls: there flags are 32 bits.)
fn segment(start: u32, flags: u8) -> Segment {
    Segment {
        start,
        present: array::from_fn(|j| (flags >> j) % 2 == 1),
    }
}

// The 20 numbers of a line.
fn numbers(line: &[u8; LINE]) -> [u32; NUMBERS] {
    let mut n = [0u32; NUMBERS];
    for (number, text) in n.iter_mut().zip(line.chunks(DIGITS + 1)) {
        *number = text.iter().take(DIGITS).fold(0, |v, b| with_digit(v, *b));
    }
    n
}

// A number with one digit more, of which the first one goes.
fn with_digit(v: u32, b: u8) -> u32 {
    v % (1 << 28) * 16 + digit(b)
}

// A digit's value; 0 for another byte. By hand: `to_digit` takes lower-case digits too.
fn digit(b: u8) -> u32
    ensures { result ≤ 15 }
{
    match b {
        b'0'..=b'9' => u32::from(b - b'0'),
        b'A'..=b'F' => u32::from(b - b'A') + 10,
        _ => 0,
    }
}

// Has the line its digits, spaces and end, and no more?
fn is_line(line: &[u8]) -> bool {
    line.len() == LINE && line.iter().enumerate().all(|(i, b)| is_placed(*b, i))
}

// May this byte stand at this place of a line?
fn is_placed(b: u8, i: usize) -> bool {
    if i == LINE - 1 {
        return b == b'\n';
    }
    if i % (DIGITS + 1) == DIGITS {
        return b == b' ';
    }
    matches!(b, b'0'..=b'9' | b'A'..=b'F')
}

// A line for each test, and for lines of none where there are any; then one for all. What cannot be
// written is let go.
fn report(rt: &impl Print, counts: &Counts) {
    let tests = [
        Test::Read,
        Test::Write,
        Test::Cycles,
        Test::States,
        Test::Fetch,
        Test::Image,
        Test::Changed,
    ];
    for test in tests {
        report_test(rt, test, counts.of(test));
    }
    let none = counts.of(Test::NoVector);
    if 0 < none.vectors {
        report_test(rt, Test::NoVector, none);
    }
    let all = counts.all;
    let _ = println!(rt; "all: {all}");
}

fn report_test(rt: &impl Print, test: Test, count: Count) {
    let _ = println!(rt; "{test}: {count}");
}
