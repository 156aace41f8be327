// A lent run of 16-bit words: its bits, and the count of bits in which two memories differ.
#![tactic(auto)]

ghost use Rattle.std.specs.Prelude.{◌≡◌, ◌+◌, ◌-◌, ◌*◌, ◌^◌, ◌<◌, ◌≤◌, max, min, length, get_or};
ghost use Rattle.memory.specs.Bits.{word_bits, most_words, no_memory, bit_at};
ghost use Rattle.memory.specs.Changed.{changed_bits, counted};
ghost use Rattle.memory.specs.Changed.{word_difference, differing_by_word};

use answers::Refused;

// The bits of a word.
pub const WORD_BITS: u64 = 16;

// The words of the largest memory.
pub const MOST_WORDS: usize = 1048576;

// The words that are counted at once: their bits are fewer than 2^16.
const PIECE: usize = 1024;

// Refusal 10: is this no number of words of a memory?
pub fn no_memory(words: usize) -> bool
    ensures { result ≡ no_memory words }
{
    (words == 0) | (MOST_WORDS < words)
}

// A word of the memory; a word past the end is 0.
pub fn word_at(memory: &[u16], at: u64) -> u16
    ensures { result ≡ get_or memory.now at 0 }
{
    if at < memory.len() as u64 {
        memory[at as usize]
    } else {
        0
    }
}

// The bit at an address; a bit past the end is 0.
pub fn bit_at(memory: &[u16], address: u64) -> u16
    ensures { result ≡ bit_at memory.now address }
{
    let w = word_at(memory, address / WORD_BITS);
    let s = (address % WORD_BITS) as u32;
    (w >> s) % 2
}

// How many bits differ between two memories.
pub fn changed(before: &[u16], after: &[u16]) -> Result<u64, Refused>
    ensures { result ≡ counted before.now after.now }
{
    if no_memory(before.len()) | no_memory(after.len()) {
        return Err(Refused::Memory);
    }
    Ok(changed_bits(before, after))
}

// The count, word by word: of the words that both have, in pieces, then of those that only one has.
// Loops by index: over `chunks` and `zip` the library for C counts a tenth as many words a second.
fn changed_bits(before: &[u16], after: &[u16]) -> u64
    requires { (length before.now ≤ most_words) × (length after.now ≤ most_words) }
    ensures { result ≡ changed_bits before.now after.now }
{
    let both = lesser(before.len(), after.len());
    let mut bits: u64 = 0;
    let mut i: usize = 0;
    while i < both {
        let next = i + lesser(PIECE, both - i);
        bits += changed_piece(before, after, i, next) as u64;
        i = next;
    }
    changed_tail(before, after, i, bits)
}

// The count of the words from `from` on and below `to`, which both memories have. It is kept in 16
// bits, so that the compiler takes eight words at once.
fn changed_piece(before: &[u16], after: &[u16], from: usize, to: usize) -> u16
    requires to_in_bounds { (to ≤ length before.now) × (to ≤ length after.now) }
    requires from_le_to { (from ≤ to) × (word_bits * (to - from) < 2 ^ word_bits) }
    ensures { let m = before.now in let m' = after.now in
        differing_by_word m m' from + result ≡ differing_by_word m m' to }
{
    let mut bits: u16 = 0;
    let mut i = from;
    while i < to {
        bits += difference(before[i], after[i]) as u16;
        i += 1;
    }
    bits
}

// The count of all words, where that of the words below `from` is known.
fn changed_tail(before: &[u16], after: &[u16], from: usize, known: u64) -> u64
    requires before_len_bound { (length before.now ≤ most_words) × (length after.now ≤ most_words) }
    requires fact { let m = before.now in let m' = after.now in
        (from ≤ max (length m) (length m')) × (known ≡ differing_by_word m m' from) }
    ensures { result ≡ changed_bits before.now after.now }
{
    let end = greater(before.len(), after.len());
    let mut bits = known;
    let mut i = from;
    while i < end {
        bits += difference(word_at(before, i as u64), word_at(after, i as u64)) as u64;
        i += 1;
    }
    bits
}

// In how many bits two words differ: the ones of their exclusive or.
fn difference(v: u16, w: u16) -> u32
    ensures { (result ≡ word_difference v w) × (result ≤ word_bits) }
{
    u16::count_ones(v ^ w)
}

// The lesser of two numbers.
fn lesser(a: usize, b: usize) -> usize
    ensures { result ≡ min a b }
{
    if a < b { a } else { b }
}

// The greater of two numbers.
fn greater(a: usize, b: usize) -> usize
    ensures { result ≡ max a b }
{
    if a < b { b } else { a }
}
