// Words of a table from one place to another: what they say, clearing them, and whether they are 0.
ghost use Rattle.std.specs.Prelude.{◌≡◌, ◌-◌, take, drop};
ghost use Rattle.state.specs.Layout.{wiped, Says};
ghost use Rattle.state.specs.Test.{all_zero};

pub fn wide(word: u32) -> usize
    ensures { Says result word }
{
    word as usize
}

// The words from `from` to `to` become 0, as far as the table goes.
pub fn clear(words: &mut [u32], from: usize, to: usize)
    ensures { words.new ≡ wiped from to words.old }
{
    let end = to.min(words.len());
    if from < end {
        words[from..end].fill(0);
    }
}

// Whether the words from `from` to `to` are 0, as far as the table goes. All are looked at: without a way out the loop takes several at a time.
pub fn zeros(words: &[u32], from: usize, to: usize) -> bool
    ensures { result ≡ all_zero (take (to - from) (drop from words.now)) }
{
    let end = to.min(words.len());
    let part = &words[from.min(end)..end];
    let mut found = false;
    for &w in part {
        found |= w != 0;
    }
    !found
}
