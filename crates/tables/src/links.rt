// The held links.
ghost use Rattle.std.specs.Prelude.{◌≡◌, set};
ghost use Rattle.state.specs.Layout.{held_link, link_word};

// Fragments that one word tells apart.
pub const RADIX: u32 = 32768;

// The smaller end of the held link at place i; 0 past the table.
pub fn low_end(held: &[u32], i: usize) -> usize
    ensures { result ≡ (held_link held.now i).0 }
{
    if held.len() <= i {
        return 0;
    }
    (held[i] / RADIX) as usize
}

// The larger end.
pub fn high_end(held: &[u32], i: usize) -> usize
    ensures { result ≡ (held_link held.now i).1 }
{
    if held.len() <= i {
        return 0;
    }
    (held[i] % RADIX) as usize
}

// The word of a link, the smaller end in the high part; 0 where an end is too great for a word.
pub fn word_of(a: usize, b: usize) -> u32
    ensures { result ≡ link_word a b }
{
    if RADIX as usize <= a {
        return 0;
    }
    if RADIX as usize <= b {
        return 0;
    }
    if a < b {
        return a as u32 * RADIX + b as u32;
    }
    b as u32 * RADIX + a as u32
}

// The link between a and b is put at place i; nothing changes where that is past the table.
pub fn put_link(held: &mut [u32], i: usize, a: usize, b: usize)
    ensures { held.new ≡ set held.old i (link_word a b) }
{
    if held.len() <= i {
        return;
    }
    held[i] = word_of(a, b);
}
