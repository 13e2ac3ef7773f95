// A list file: its head, and how much of a buffer is whole links.
ghost use Rattle.std.specs.Prelude.{◌≡◌};
ghost use Rattle.lists.specs.List.{cut_block};
ghost use Rattle.c_calls.specs.File.{head_reply, c_head};

use lists::{bad_size, cut};
use numbers::read_number;

// The head of a list file, from its first bytes: the number of fragments, and the byte where the links begin.
#[unsafe(no_mangle)]
pub extern "C" fn welmocant_head(file: &[u8], n: &mut u32, begins: &mut u64) -> u32
    ensures { head_reply result n.new begins.new ≡ c_head file.now }
{
    match read_number(file, 0) {
        Ok((value, next)) => {
            if bad_size(value) {
                *n = 0;
                *begins = 0;
                return 1;
            }
            *n = value;
            *begins = next as u64;
            0
        }
        Err(why) => {
            *n = 0;
            *begins = 0;
            why.number()
        }
    }
}

// How many of a buffer's bytes are whole links: a block for take. The others begin the next buffer.
#[unsafe(no_mangle)]
pub extern "C" fn welmocant_whole(buffer: &[u8]) -> usize
    ensures { result ≡ cut_block buffer.now }
{
    cut(buffer)
}
