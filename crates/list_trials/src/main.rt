// Lists at random, from a fixed seed, written, read back, and damaged: `lists` and `writing` against a second reading, written here from document
// 01, which takes the bytes one by one.
#![tactic(auto)]

ghost use Rattle.std.specs.Prelude.{◌≤◌};

use numbers::Refusal;
use std::io;

const TRIALS: usize = 20000;

// What no refusal has for its number.
const DIFFER: u32 = 99;

// How often the two readings agreed, by answer, and how often they differed.
#[derive(Drop)]
struct Tally {
    given: u64,
    four: u64,
    five: u64,
    seven: u64,
    eight: u64,
    twelve: u64,
    differ: u64,
}

// The second reading's state: the groups of a number so far, the link's first number where it is read, where the link begins.
#[derive(Clone, Copy)]
struct Reading {
    value: u64,
    groups: u32,
    first: u64,
    ends: u32,
    start: usize,
    links: u32,
}

// Lehmer's generator of modulus 2^31 - 1.
fn next(seed: u64) -> u64 {
    seed % 2147483647 * 48271 % 2147483647
}

// What a group's seven bits count behind so many others.
fn scaled(byte: u8, groups: u32) -> u64
    ensures { result ≤ 2080768 }
{
    let bits = byte as u64 % 128;
    if groups == 0 {
        bits
    } else if groups == 1 {
        bits * 128
    } else {
        bits * 16384
    }
}

fn count(n: u32) -> u32 {
    if n < 1000000 { n + 1 } else { n }
}

fn refusal(number: u32, place: usize) -> Refusal {
    Refusal { number, place }
}

// A link's second number is read; or the number of what is wrong with it.
fn link(r: Reading, n: u32, entries: u32, value: u64, after: usize) -> Result<Reading, u32> {
    if r.first >= n as u64 || value >= n as u64 {
        return Err(4);
    }
    if r.first == value {
        return Err(5);
    }
    if entries as u64 + r.links as u64 >= 16777215 {
        return Err(12);
    }
    Ok(Reading {
        value: 0,
        groups: 0,
        first: 0,
        ends: 0,
        start: after,
        links: count(r.links),
    })
}

// A number's last byte is read.
fn last(r: Reading, n: u32, entries: u32, byte: u8, after: usize) -> Result<Reading, u32> {
    if byte == 0 && r.groups > 0 {
        return Err(7);
    }
    let value = r.value % 16777216 + scaled(byte, r.groups);
    if r.ends == 1 {
        return link(r, n, entries, value, after);
    }
    Ok(Reading {
        value: 0,
        groups: 0,
        first: value,
        ends: 1,
        ..r
    })
}

fn step(r: Reading, n: u32, entries: u32, byte: u8, after: usize) -> Result<Reading, u32> {
    if byte < 128 {
        return last(r, n, entries, byte, after);
    }
    if r.groups >= 2 {
        return Err(7);
    }
    Ok(Reading {
        value: r.value % 16777216 + scaled(byte, r.groups),
        groups: count(r.groups),
        ..r
    })
}

fn second(n: u32, entries: u32, s: &[u8]) -> Result<u32, Refusal> {
    let mut r = Reading {
        value: 0,
        groups: 0,
        first: 0,
        ends: 0,
        start: 0,
        links: 0,
    };
    for (i, &b) in s.iter().enumerate() {
        match step(r, n, entries, b, i + 1) {
            Ok(further) => r = further,
            Err(number) => return Err(refusal(number, r.start)),
        }
    }
    if r.ends == 1 || r.groups > 0 {
        return Err(refusal(8, r.start));
    }
    Ok(r.links)
}

// The refusal on which two answers agree, 0 where both give the same number of links, else `DIFFER`.
fn same(a: Result<u32, Refusal>, b: Result<u32, Refusal>) -> u32 {
    match (a, b) {
        (Ok(x), Ok(y)) if x == y => 0,
        (Err(p), Err(q)) if p.number == q.number && p.place == q.place => p.number,
        _ => DIFFER,
    }
}

fn sum(a: u32, b: u32) -> u32 {
    if a > 16777215 {
        return 0;
    }
    if b > 16777215 {
        return 0;
    }
    a + b
}

fn moved(place: usize, by: usize) -> usize {
    if place > 1000 {
        return 0;
    }
    if by > 1000 {
        return 0;
    }
    place + by
}

// What is told behind so many links and bytes.
fn later(told: Result<u32, Refusal>, links: u32, by: usize) -> Result<u32, Refusal> {
    match told {
        Ok(x) => Ok(sum(links, x)),
        Err(r) => Err(Refusal {
            place: moved(r.place, by),
            ..r
        }),
    }
}

// The block told in two parts: the first `k` bytes up to the cut, and the others.
fn parts(n: u32, entries: u32, block: &[u8], k: usize) -> Result<u32, Refusal> {
    if k > block.len() {
        return Ok(0);
    }
    let c = lists::cut(&block[..k]);
    if c > block.len() {
        return Ok(0);
    }
    let x = lists::scan(n, entries, &block[..c])?;
    later(lists::scan(n, sum(entries, x), &block[c..]), x, c)
}

fn compared(n: u32, entries: u32, block: &[u8], seed: u64) -> u32 {
    let whole = lists::scan(n, entries, block);
    let k = (seed % 20) as usize;
    if k <= block.len() && same(whole, parts(n, entries, block, k)) == DIFFER {
        return DIFFER;
    }
    same(whole, second(n, entries, block))
}

// One byte of two is small, one of four any, and one has the top bit set.
fn byte(seed: u64) -> u8 {
    let kind = seed % 4;
    if kind < 2 {
        (seed / 4 % 6) as u8
    } else if kind == 2 {
        (seed / 4 % 256) as u8
    } else {
        (seed / 4 % 128 + 128) as u8
    }
}

fn put(buffer: &mut [u8], at: usize, byte: u8) {
    if at < buffer.len() {
        buffer[at] = byte;
    }
}

// Nothing done, cut, one byte changed, or one byte more: the block's end afterwards.
fn damage(buffer: &mut [u8], first: usize, end: usize, seed: u64) -> usize {
    let kind = seed % 4;
    let value = byte(next(next(seed)));
    let at = first % 1000 + (next(seed) % 6) as usize;
    if kind == 1 && at < end {
        return at;
    }
    if kind == 2 && at < end {
        put(buffer, at, value);
        return end;
    }
    if kind == 3 && end < 1000 {
        put(buffer, end, value);
        return moved(end, 1);
    }
    end
}

fn told(seed: u64) -> u32 {
    if seed % 5 == 0 {
        (16777215 - seed / 5 % 4) as u32
    } else {
        (seed % 1000) as u32
    }
}

fn damaged(n: u32, buffer: &mut [u8], end: usize, seed: u64) -> u32 {
    let first: usize = if n < 128 { 1 } else { 2 };
    let e = damage(buffer, first, end, seed);
    if first > e {
        return DIFFER;
    }
    if e > buffer.len() {
        return DIFFER;
    }
    compared(n, told(next(seed)), &buffer[first..e], next(seed))
}

// Whether the links from `begins` on are the words, to the end.
fn links_back(n: u32, words: &[u32], file: &[u8], begins: usize) -> Result<bool, Refusal> {
    let mut at = begins;
    for &[u, v] in words.as_chunks::<2>().0 {
        let (a, b, next) = lists::link_at(n, 0, file, at)?;
        if a != u || b != v {
            return Ok(false);
        }
        at = next;
    }
    Ok(at == file.len())
}

fn read_back(n: u32, words: &[u32], file: &[u8]) -> Result<bool, Refusal> {
    let (m, begins, count) = lists::read_list(file)?;
    if m != n || count as usize * 2 != words.len() {
        return Ok(false);
    }
    links_back(n, words, file, begins)
}

fn written(n: u32, words: &[u32], buffer: &mut [u8], seed: u64) -> u32 {
    match writing::write_list(n, words, buffer) {
        Ok(end) if end <= buffer.len() => match read_back(n, words, &buffer[..end]) {
            Ok(true) => damaged(n, buffer, end, seed),
            _ => DIFFER,
        },
        _ => DIFFER,
    }
}

// An end of a link of n fragments, and another.
fn one(n: u32, seed: u64) -> u32 {
    if n < 2 { 0 } else { (seed % 65536) as u32 % n }
}

fn other(n: u32, a: u32, seed: u64) -> u32 {
    if n < 3 {
        return if a == 0 { 1 } else { 0 };
    }
    let step = (seed % 65536) as u32 % (n - 1);
    sum(a, sum(1, step)) % n
}

fn fragments(seed: u64) -> u32 {
    if seed % 2 == 0 {
        (2 + seed / 2 % 6) as u32
    } else {
        (2 + seed / 2 % 300) as u32
    }
}

fn listed(n: u32, p: u64, q: u64, r: u64, seed: u64) -> u32 {
    let mut buffer = [170u8; 18];
    let words = [
        one(n, p),
        other(n, one(n, p), q),
        one(n, q),
        other(n, one(n, q), r),
        one(n, r),
        other(n, one(n, r), p),
    ];
    let k = (seed % 4 * 2) as usize;
    written(n, &words[..k], &mut buffer, next(seed))
}

fn trial(seed: u64) -> u32 {
    let p = next(seed);
    let q = next(p);
    let r = next(q);
    listed(fragments(seed), p, q, r, next(r))
}

fn more(n: u64, is: bool) -> u64 {
    if !is {
        return n;
    }
    if n < 1000000 { n + 1 } else { n }
}

fn counted(t: Tally, v: u32) -> Tally {
    Tally {
        given: more(t.given, v == 0),
        four: more(t.four, v == 4),
        five: more(t.five, v == 5),
        seven: more(t.seven, v == 7),
        eight: more(t.eight, v == 8),
        twelve: more(t.twelve, v == 12),
        differ: more(t.differ, v == DIFFER),
    }
}

fn trials() -> Tally {
    let mut t = Tally {
        given: 0,
        four: 0,
        five: 0,
        seven: 0,
        eight: 0,
        twelve: 0,
        differ: 0,
    };
    let mut seed: u64 = 2026;
    for _ in 0..TRIALS {
        seed = next(seed);
        t = counted(t, trial(seed));
    }
    t
}

fn often(rt: &impl Print, n: u64) -> io::Result<()> {
    if n > 100 {
        print!(rt; " yes")
    } else {
        print!(rt; " no")
    }
}

fn main(rt: HostRuntime) -> io::Result<()> {
    let t = trials();
    print!(rt;
        "random lists, written, read back, damaged {TRIALS}: expected 0 different, got {}",
        t.differ
    )?;
    print!(rt;
        "\n  more than 100 times accepted and refused 4, 5, 7, 8, 12: expected yes yes yes yes yes yes, got"
    )?;
    often(&rt, t.given)?;
    often(&rt, t.four)?;
    often(&rt, t.five)?;
    often(&rt, t.seven)?;
    often(&rt, t.eight)?;
    often(&rt, t.twelve)?;
    println!(rt)
}
