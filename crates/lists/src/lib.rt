// Blocks of links and list files, read. Numbers are read through the crate `numbers`, known by its promises only.
#![tactic(auto)]

ghost use Rattle.std.specs.Prelude.{◌≡◌};
ghost use Rattle.numbers.specs.Answers.{due};
ghost use Rattle.lists.specs.List.{no_size, placed, bad_ends, read_ends, read_link, scan_link, scan_block, read_list, cut_block};
ghost use Rattle.lists.specs.Scan.{bad_link, scan_from, scan_end};
ghost use Rattle.lists.specs.Answers.{told_ends, told_link, told_count, told_list};

use numbers::{Refusal, Why};

// The greatest number of fragments, and of entries in one pass.
pub const FRAGMENTS_MOST: u32 = 32768;

pub const ENTRIES_MOST: u32 = 16777215;

// The two numbers that begin at `at`, and the position after them.
fn ends_at(block: &[u8], at: usize) -> Result<(u32, u32, usize), Why>
    ensures { told_ends result ≡ read_ends block.now at }
{
    let (a, middle) = numbers::read_number(block, at)?;
    let (b, next) = numbers::read_number(block, middle)?;
    Ok((a, b, next))
}

// No list has n fragments.
pub fn bad_size(n: u32) -> bool
    ensures { result ≡ no_size n }
{
    n == 0 || n > FRAGMENTS_MOST
}

// What is wrong with the ends of a link, read or to be written: refusal 4 or 5, or nothing.
pub fn bad_ends(n: u32, a: u32, b: u32) -> Result<(), Why>
    ensures { due result ≡ bad_ends n a b }
{
    if a >= n {
        return Err(Why::NoFragment);
    }
    if b >= n {
        return Err(Why::NoFragment);
    }
    if a == b {
        return Err(Why::Same);
    }
    Ok(())
}

// What is wrong with a link whose numbers were read: refusal 4, 5 or 12, or nothing.
fn bad_link(n: u32, entries: u32, a: u32, b: u32) -> Result<(), Why>
    ensures { due result ≡ bad_link n entries a b }
{
    bad_ends(n, a, b)?;
    if entries >= ENTRIES_MOST {
        return Err(Why::Entries);
    }
    Ok(())
}

// The link that begins at byte `at` of a block of a list of n fragments, or what is wrong with it.
fn whole_link(n: u32, entries: u32, block: &[u8], at: usize) -> Result<(u32, u32, usize), Why>
    ensures { placed at (told_ends result) ≡ read_link n entries block.now at }
{
    let (a, b, next) = ends_at(block, at)?;
    bad_link(n, entries, a, b)?;
    Ok((a, b, next))
}

// The link that begins at byte `at` of a block, where `entries` came before it in the pass: its two ends and the position after it.
pub fn link_at(n: u32, entries: u32, block: &[u8], at: usize) -> Result<(u32, u32, usize), Refusal>
    ensures { told_link result ≡ scan_link n entries block.now at }
{
    if bad_size(n) {
        return Err(Why::Fragments.at(0));
    }
    match whole_link(n, entries, block, at) {
        Ok(link) => Ok(link),
        Err(why) => Err(why.at(at)),
    }
}

// The answer of a scan: what is bad with the link at `at`, or else the count.
fn answered(bad: Result<(), Why>, at: usize, count: u32) -> Result<u32, Refusal>
    ensures { told_count result ≡ scan_end (due bad) at count }
{
    match bad {
        Ok(()) => Ok(count),
        Err(why) => Err(why.at(at)),
    }
}

// The number of links from byte `from` on.
fn scan_from(n: u32, entries: u32, block: &[u8], from: usize) -> Result<u32, Refusal>
    ensures { told_count result ≡ scan_from n entries block.now from }
{
    let mut told = entries;
    let mut at = from;
    let mut bad = Ok(());
    'links: while at < block.len() {
        let mut first = 0;
        let mut second = 0;
        let mut next = at;
        for ends in 0usize..2 {
            match numbers::read_number(block, next) {
                Ok((value, after)) => {
                    first = second;
                    second = value;
                    next = after;
                }
                Err(why) => {
                    bad = Err(why);
                    break 'links;
                }
            }
        }
        match bad_link(n, told, first, second) {
            Ok(()) => {
                told += 1;
                at = next;
            }
            Err(why) => {
                bad = Err(why);
                break 'links;
            }
        }
    }
    answered(bad, at, told - entries)
}

// The number of links of a block, where `entries` came before it in the pass.
pub fn scan(n: u32, entries: u32, block: &[u8]) -> Result<u32, Refusal>
    ensures { told_count result ≡ scan_block n entries block.now }
{
    if bad_size(n) {
        return Err(Refusal::from(Why::Fragments));
    }
    scan_from(n, entries, block, 0)
}

// A whole list file: the number of fragments, the position where the links begin, and the number of links. Places count from its start.
pub fn read_list(file: &[u8]) -> Result<(u32, usize, u32), Refusal>
    ensures { told_list result ≡ read_list file.now }
{
    let (n, begins) = numbers::read_number(file, 0)?;
    if bad_size(n) {
        return Err(Refusal::from(Why::Fragments));
    }
    let count = scan_from(n, 0, file, begins)?;
    Ok((n, begins, count))
}

// Where the last whole link of a part of a list ends: the part's first bytes up to there are a block, and the others begin the next part.
pub fn cut(part: &[u8]) -> usize
    ensures { result ≡ cut_block part.now }
{
    let mut at: usize = 0;
    loop {
        match ends_at(part, at) {
            Ok((_, _, next)) => {
                at = next;
            }
            Err(why) => {
                return match why {
                    Why::Unfinished => at,
                    _ => part.len(),
                };
            }
        }
    }
}
