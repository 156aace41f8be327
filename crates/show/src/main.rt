// Shows what there is: a field read and written, what it costs, an image, eight fetches of the
// instruction cache. What cannot be written is let go.
#![tactic(auto)]

use answers::answer;
use cache::Cache;
use states::Mode;
use timing::Cycles;

fn main(rt: HostRuntime) {
    show_field(&rt);
    show_image(&rt);
    show_cache(&rt);
}

// Size 8 at address 12 over two words: read, its costs, and the words after a write.
fn show_field(rt: &impl Print) {
    let mut space = [0xf000u16, 0x000au16];
    let memory: &mut [u16] = &mut space;
    let _ = println!(rt; "field of 8 bits at address 12 over f000 000a");
    let plain = field::read(memory, 12, 8, false).unwrap_or(0);
    let _ = println!(rt; "  read\t{plain:08x}");
    let signed = field::read(memory, 12, 8, true).unwrap_or(0);
    let _ = println!(rt; "  signed\t{signed:08x}");
    let none = Cycles { read: 0, write: 0 };
    let Cycles { read, write } = timing::field_cycles(12, 8).unwrap_or(none);
    let _ = println!(rt; "  memory cycles of a read, of a write\t{read}\t{write}");
    let states = states::move_states(12, 8, Mode::Indirect, false, true).unwrap_or(0);
    let _ = println!(rt; "  states of MOVE in cache\t{states}");
    let written = answer(&field::write(memory, 12, 8, 0x33));
    let _ = println!(rt; "  write 33\tanswer {written}");
    let past = answer(&field::write(memory, u32::MAX, 8, 0x33));
    let _ = println!(rt; "  write at ffffffff\tanswer {past}");
}

// The image of seed 1 over four words, and the bits in which it differs from zeros.
fn show_image(rt: &impl Print) {
    let zeros = [0u16; 4];
    let mut space = [0u16; 4];
    let memory: &mut [u16] = &mut space;
    image::fill_image(memory, 1).unwrap();
    let low = field::read(memory, 0, 32, false).unwrap_or(0);
    let high = field::read(memory, 32, 32, false).unwrap_or(0);
    let bits = memory::changed(&zeros, memory).unwrap_or(0);
    let _ = println!(rt; "image of seed 1 over 4 words");
    let _ = println!(rt; "  words 1 and 0\t{low:08x}");
    let _ = println!(rt; "  words 3 and 2\t{high:08x}");
    let _ = println!(rt; "  bits that are 1\t{bits}");
}

// Eight fetches from the fresh cache.
fn show_cache(rt: &impl Print) {
    let _ = println!(rt; "fetches from the fresh cache");
    let mut cache = Cache::fresh();
    for address in [0u32, 64, 16, 512, 1024, 1536, 2048, 0] {
        cache = shown(rt, cache, address);
    }
}

// One fetch, with its line, and the state after it.
fn shown(rt: &impl Print, cache: Cache, address: u32) -> Cache {
    let done = cache.fetch(address, 0);
    match done {
        Ok(fetched) => {
            let kind = fetched.kind;
            let _ = println!(rt; "  {address}\t{kind}");
        }
        Err(_) => {
            let _ = println!(rt; "  {address}\trefused");
        }
    }
    cache.left(done)
}
