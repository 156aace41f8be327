// Fields of 1 to 32 bits at any bit address of a lent memory: read and write. A call takes a size;
// all below it takes the bits that the size means.
#![tactic(auto)]

ghost use Rattle.std.specs.Prelude.{◌≡◌, ◌+◌, ◌*◌, ◌/◌, ◌%◌, ◌^◌, ◌<◌, ◌≤◌, length};
ghost use Rattle.memory.specs.Bits.{Memory, bit_at, bits_number, with_bits, with_field};
ghost use Rattle.field.specs.Field.{field_refusal, register, field_read, field_written};

use answers::Refused;

// 2^16: words are less.
const WORDS: u64 = 65536;

// 2^32: registers are less.
const REGISTERS: u64 = 4294967296;

// Reads a field into a register, zero or sign extended. The memory stays as lent.
#[tactic(auto, unfolding(crate::specs::Field::field_read))]
pub fn read(memory: &mut [u16], address: u32, size: u32, signed: bool) -> Result<u32, Refused>
    ensures { let m = memory.old in
        (result ≡ field_read m address size signed) × (memory.new ≡ m) }
{
    field_refusal::refusal_of(memory.len(), address, size)?;
    let bits = field_refusal::meant(size);
    let field = Field::of(memory.len(), u64::from(address), u64::from(bits));
    Ok(field.register(memory, signed))
}

// Writes the low bits of a register to a field.
#[tactic(auto, unfolding(crate::specs::Field::field_written))]
pub fn write(memory: &mut [u16], address: u32, size: u32, value: u32) -> Result<(), Refused>
    ensures { let m = memory.old in
        (result ≡ field_refusal (length m) address size)
        × (memory.new ≡ field_written m address size value) }
{
    field_refusal::refusal_of(memory.len(), address, size)?;
    let bits = field_refusal::meant(size);
    write_bits(
        memory,
        u64::from(address),
        u64::from(bits),
        u64::from(value),
    );
    Ok(())
}

// A field in the one to three words that hold it: `size` bits, from bit `s` on of the `count` words
// from word `at` on.
#[derive(Clone, Copy)]
struct Field {
    at: usize,
    count: u64,
    s: u64,
    size: u64,
    ghost some_words: { (0 < count) × (count ≤ 3) },
    ghost within: { (s < 16) × (0 < size) × (size ≤ 32) × (s + size ≤ 16 * count) },
}

impl Field {
    // The field of a memory of so many words. Three words hold it where two are not enough, and
    // else two if there are two: whether one would be enough is not asked, as that test is often
    // guessed wrong.
    fn of(words: usize, address: u64, size: u64) -> Field
        requires { (0 < size) × (size ≤ 32) × (address + size ≤ 16 * words) }
        ensures held { result.at + result.count ≤ words }
        ensures same { (16 * result.at + result.s ≡ address) × (result.size ≡ size) }
    {
        let s = address % 16;
        let at = (address / 16) as usize;
        if 32 < s + size {
            return Field {
                at,
                count: 3,
                s,
                size,
            };
        }
        if words - at < 2 {
            return Field {
                at,
                count: 1,
                s,
                size,
            };
        }
        Field {
            at,
            count: 2,
            s,
            size,
        }
    }

    // The register after a read.
    fn register(self, memory: &[u16], signed: bool) -> u32
        requires { self.at + self.count ≤ length memory.now }
        ensures { result ≡ register memory.now (16 * self.at + self.s) self.size signed }
    {
        let bits = self.read(memory);
        let top = taken(bits, self.size - 1, 1);
        if signed & (top == 1) {
            return (bits + (REGISTERS - (1 << self.size))) as u32;
        }
        bits as u32
    }

    // The field's bits as a number.
    fn read(self, memory: &[u16]) -> u64
        requires { self.at + self.count ≤ length memory.now }
        ensures { result ≡ bits_number (bit_at memory.now) (16 * self.at + self.s) self.size }
    {
        taken(self.window(memory), self.s, self.size)
    }

    // Writes the low bits of a number to the field, and no other bit.
    fn write(self, memory: &mut [u16], x: u64)
        requires { self.at + self.count ≤ length memory.old }
        ensures { memory.new ≡ with_field memory.old (16 * self.at + self.s) self.size x }
    {
        let v = self.window(memory);
        let w = put(v, self.s, self.size, x);
        self.store(memory, w);
    }

    // The words as one number, the first lowest.
    fn window(self, memory: &[u16]) -> u64
        requires { self.at + self.count ≤ length memory.now }
        ensures { result ≡ bits_number (bit_at memory.now) (16 * self.at) (16 * self.count) }
    {
        let a = u64::from(memory[self.at]);
        if self.count == 1 {
            return a;
        }
        let b = u64::from(memory[self.at + 1]);
        if self.count == 2 {
            return a + WORDS * b;
        }
        let c = u64::from(memory[self.at + 2]);
        a + WORDS * (b + WORDS * c)
    }

    // Stores the lowest words of a number in them, the lowest first.
    fn store(self, memory: &mut [u16], v: u64)
        requires inside { self.at + self.count ≤ length memory.old }
        requires words { Memory (length memory.old) memory.old }
        ensures { memory.new ≡ with_field memory.old (16 * self.at) (16 * self.count) v }
    {
        memory[self.at] = (v % WORDS) as u16;
        if self.count == 1 {
            return;
        }
        memory[self.at + 1] = (v / WORDS % WORDS) as u16;
        if self.count == 2 {
            return;
        }
        memory[self.at + 2] = (v / WORDS / WORDS % WORDS) as u16;
    }
}

// Writes the low bits of a number to a field, and no other bit. The words are those of `Field::of`,
// but each number of words has a call of its own, for which the compiler makes code of its own: one
// call for all of them writes at three quarters of the speed.
fn write_bits(memory: &mut [u16], address: u64, size: u64, x: u64)
    requires { (0 < size) × (size ≤ 32) × (address + size ≤ 16 * length memory.old) }
    ensures { memory.new ≡ with_field memory.old address size x }
{
    let s = address % 16;
    let at = (address / 16) as usize;
    if 32 < s + size {
        let three = Field {
            at,
            count: 3,
            s,
            size,
        };
        return three.write(memory, x);
    }
    if memory.len() - at < 2 {
        let one = Field {
            at,
            count: 1,
            s,
            size,
        };
        return one.write(memory, x);
    }
    let two = Field {
        at,
        count: 2,
        s,
        size,
    };
    two.write(memory, x)
}

// A number with the n low bits of x in the place of its bits s to s + n - 1.
fn put(v: u64, s: u64, n: u64, x: u64) -> u64
    requires { (s < 16) × (n ≤ 32) × (v < 2 ^ 48) }
    ensures { result ≡ with_bits v s n x }
{
    v - (taken(v, s, n) << s) + (low(x, n) << s)
}

// The n bits of a number from bit s on.
fn taken(v: u64, s: u64, n: u64) -> u64
    requires { (s < 64) × (n < 64) }
    ensures { result ≡ v / 2 ^ s % 2 ^ n }
{
    low(v >> s, n)
}

// The n low bits of a number.
fn low(x: u64, n: u64) -> u64
    requires { n < 64 }
    ensures { result ≡ x % 2 ^ n }
{
    x & ((1 << n) - 1)
}
