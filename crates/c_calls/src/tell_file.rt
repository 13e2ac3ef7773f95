// Telling a list file.
ghost use Rattle.std.specs.Prelude.{◌≡◌};
ghost use Rattle.c_telling.specs.Answers.{ended};
ghost use Rattle.c_calls.specs.Tell.{told, c_begin, c_tell};

use c_telling::{TELLING, end_tell, heard_in, put_telling, telling_in};
use c_words::wide;
use telling::{begin, tell};

// To tell a file with room k.
#[unsafe(no_mangle)]
pub extern "C" fn welmocant_begin(k: u32, words: &mut [u32]) -> u32
    ensures { ended result words.new ≡ c_begin k words.old }
{
    if words.len() < TELLING {
        return 3;
    }
    put_telling(begin(wide(k)), words);
    0
}

// Tells what was read.
#[unsafe(no_mangle)]
pub extern "C" fn welmocant_tell(
    words: &mut [u32],
    frag: &mut [u32],
    held: &mut [u32],
    buffer: &mut [u8],
    text: &mut [u8],
    heard: usize,
) -> u32
    ensures { told (ended result words.new) frag.new held.new buffer.new text.new ≡ c_tell words.old frag.old held.old buffer.old text.old heard }
{
    if words.len() < TELLING {
        return 3;
    }
    let t = telling_in(words);
    let next = tell(t, frag, held, buffer, text, heard_in(heard));
    end_tell(next, words)
}
