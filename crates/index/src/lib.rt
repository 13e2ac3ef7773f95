// An index of words in a part of a table: a word stands in the first empty slot from its home slot on.
#![tactic(auto)]

ghost use Rattle.std.specs.Prelude.{◌≡◌};
ghost use Rattle.index.specs.Index.{home_of, Place};

// What a word noted may have added to it: words are compared without it.
pub const FLAG: u32 = 1073741824;

// The home slot of a word, by the high part of a product. The last eighth of the slots is room to run on.
fn home(size: u32, w: u32) -> usize
    ensures { result ≡ home_of size w }
{
    let spread = w as u64 * 2654435769 % 4294967296;
    (spread * (size - size / 8) as u64 / 4294967296) as usize
}

// The slot where a word stands, or where the way from its home ends: the first empty slot, or `size`. A slot past the end of the table is empty.
pub fn look(words: &[u32], at: usize, size: u32, w: u32) -> usize
    ensures { Place at size words.now w result }
{
    let from = home(size, w);
    let end = (size as usize).min(words.len().saturating_sub(at));
    for i in from..end {
        let x = words[at + i];
        if x == 0 {
            return i;
        }
        if x % FLAG == w {
            return i;
        }
    }
    from.max(end)
}
