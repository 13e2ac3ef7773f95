// The list writer, and one link of a block.
ghost use Rattle.std.specs.Prelude.{◌≡◌};
ghost use Rattle.c_calls.specs.Lists.{write_reply, link_reply, c_write_list, c_link_at};

use lists::link_at;
use writing::write_list;

// Writes a list of n fragments, its links as words, two each, to the front of `buffer`; its bytes, 0 where it is refused.
#[unsafe(no_mangle)]
pub extern "C" fn welmocant_write_list(
    n: u32,
    words: &[u32],
    buffer: &mut [u8],
    size: &mut u64,
) -> u32
    ensures { write_reply result size.new buffer.new ≡ c_write_list n words.now buffer.old }
{
    match write_list(n, words, buffer) {
        Ok(end) => {
            *size = end as u64;
            0
        }
        Err(why) => {
            *size = 0;
            why.number()
        }
    }
}

// The link at byte `at` of a block, where `entries` came before it in the pass: its two ends, and the byte behind it; refused, the place.
#[unsafe(no_mangle)]
pub extern "C" fn welmocant_link_at(
    n: u32,
    entries: u32,
    block: &[u8],
    at: usize,
    a: &mut u32,
    b: &mut u32,
    next: &mut u64,
) -> u32
    ensures { link_reply result a.new b.new next.new ≡ c_link_at n entries block.now at }
{
    match link_at(n, entries, block, at) {
        Ok((first, second, after)) => {
            *a = first;
            *b = second;
            *next = after as u64;
            0
        }
        Err(bad) => {
            *a = 0;
            *b = 0;
            *next = bad.place as u64;
            bad.number
        }
    }
}
