// The image of a seed: the words that the generator gives over a lent memory.
#![tactic(auto)]

ghost use Rattle.std.specs.Prelude.{◌≡◌, ◌+◌, ◌<◌, ◌≤◌, length};
ghost use Rattle.image.specs.Image.{image, image_refusal, imaged};
ghost use Rattle.image.specs.Words.{stored_words};

use answers::Refused;
use generator::Generator;

// 2^16: words are less.
const WORDS: u64 = 65536;

// 2^32: two words are less.
const WORDS_2: u64 = 4294967296;

// 2^48: three words are less.
const WORDS_3: u64 = 281474976710656;

// Fills the memory with the image of the seed.
pub fn fill_image(memory: &mut [u16], seed: u64) -> Result<(), Refused>
    ensures { let m = memory.old in
        (result ≡ image_refusal (length m)) × (memory.new ≡ imaged m seed) }
{
    if memory::no_memory(memory.len()) {
        return Err(Refused::Memory);
    }
    fill(memory, seed);
    Ok(())
}

// Four words of each draw, lowest first, cut off at the memory's end. One generator is lent to
// every draw. By index: behind `chunks_mut` a proof knows a slice's length alone.
fn fill(memory: &mut [u16], seed: u64)
    ensures { memory.new ≡ image (length memory.old) seed }
{
    let mut g = Generator { state: seed };
    let mut at = 0;
    while at < memory.len() {
        let x = g.draw();
        put(memory, at, x);
        at += 4;
    }
}

// Puts the four words of x into the memory from `at` on, lowest first, as far as it goes.
fn put(memory: &mut [u16], at: usize, x: u64)
    requires { at < length memory.old }
    ensures { memory.new ≡ stored_words 4 memory.old at x }
{
    if memory.len() - at < 4 {
        return put_last(memory, at, x);
    }
    memory[at] = (x % WORDS) as u16;
    memory[at + 1] = (x / WORDS % WORDS) as u16;
    memory[at + 2] = (x / WORDS_2 % WORDS) as u16;
    memory[at + 3] = (x / WORDS_3) as u16;
}

// The same where the memory ends first.
fn put_last(memory: &mut [u16], at: usize, x: u64)
    requires { length memory.old ≤ at + 4 }
    ensures { memory.new ≡ stored_words 4 memory.old at x }
{
    let mut rest = x;
    for i in at..memory.len() {
        memory[i] = (rest % WORDS) as u16;
        rest /= WORDS;
    }
}
