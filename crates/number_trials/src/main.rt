// Bytes and values at random, from a fixed seed: the number crate against a second reading, written here from document 01 with no loop.
#![tactic(auto)]

use numbers::Why;
use std::io;

const TRIALS: usize = 20000;

// A kind of answer that no call gives.
const DIFFER: u32 = 15;

// Lehmer's generator of modulus 2^31 - 1.
fn next(seed: u64) -> u64 {
    seed % 2147483647 * 48271 % 2147483647
}

// One byte of four is 0, one is any, two have the top bit set.
fn byte(seed: u64) -> u8 {
    let kind = seed % 4;
    let any = seed / 4 % 256;
    if kind == 0 {
        0
    } else if kind == 1 {
        any as u8
    } else {
        (any % 128 + 128) as u8
    }
}

// Five bytes, of which a part is lent.
fn block(seed: u64, s: &mut [u8]) {
    let mut now = seed;
    for b in s.iter_mut() {
        now = next(now);
        *b = byte(now);
    }
}

// The second reading: a byte, and what may stand behind it, with weights 1, 128 and 16,384.
fn second(s: &[u8], at: usize) -> Result<(u32, usize), Why> {
    let a = u32::from(*s.get(at).ok_or(Why::Unfinished)?);
    if a < 128 {
        Ok((a, at + 1))
    } else {
        second_byte(a, s, at + 1)
    }
}

fn second_byte(a: u32, s: &[u8], at: usize) -> Result<(u32, usize), Why> {
    let b = u32::from(*s.get(at).ok_or(Why::Unfinished)?);
    if b == 0 {
        Err(Why::Form)
    } else if b < 128 {
        Ok((a % 128 + 128 * b, at + 1))
    } else {
        third_byte(a % 128 + b % 128 * 128, s, at + 1)
    }
}

fn third_byte(low: u32, s: &[u8], at: usize) -> Result<(u32, usize), Why> {
    let c = u32::from(*s.get(at).ok_or(Why::Unfinished)?);
    if c == 0 || c > 127 {
        Err(Why::Form)
    } else {
        Ok((low % 16384 + 16384 * c, at + 1))
    }
}

// The refusal on which two answers agree, 0 where both give the same value and position, else `DIFFER`.
fn kind(a: Result<(u32, usize), Why>, b: Result<(u32, usize), Why>) -> u32 {
    if a != b {
        return DIFFER;
    }
    match a {
        Ok(_) => 0,
        Err(why) => why.number(),
    }
}

// A block of up to five bytes, read from a position in it or behind it.
fn reading(seed: u64) -> u32 {
    let mut bytes = [0u8; 5];
    block(seed, &mut bytes);
    read_part(&bytes, (seed / 8 % 6) as usize, (seed / 64 % 4) as usize)
}

fn read_part(s: &[u8], len: usize, at: usize) -> u32 {
    if len > s.len() {
        return DIFFER;
    }
    kind(numbers::read_number(&s[..len], at), second(&s[..len], at))
}

// A value of any length, or too great.
fn value(seed: u64, kind: u64) -> u32 {
    if kind == 0 {
        (seed % 256) as u32
    } else if kind == 1 {
        (seed % 65536) as u32
    } else {
        (seed % 3000000) as u32
    }
}

// Such a value, whose width is told, into up to five bytes of aa.
fn writing(seed: u64) -> u32 {
    let mut bytes = [170u8; 5];
    let given = value(next(seed), seed % 3);
    if numbers::width(given) != size(given) {
        return DIFFER;
    }
    write_part(
        given,
        &mut bytes,
        (seed / 8 % 6) as usize,
        (seed / 64 % 4) as usize,
    )
}

// What the second reading reads of what was written, where the writer must write; and every other byte as it was.
fn write_part(value: u32, s: &mut [u8], len: usize, at: usize) -> u32 {
    if len > s.len() {
        return DIFFER;
    }
    let w = numbers::write_number(value, &mut s[..len], at).map(|end| (value, end));
    let bytes = size(value);
    let (expected, count) = if value > 2097151 {
        (Err(Why::Form), 0)
    } else if at >= len || len - at < bytes {
        (Err(Why::Short), 0)
    } else {
        (second(&s[..len], at), bytes)
    };
    if kept(s, at, count) {
        kind(w, expected)
    } else {
        DIFFER
    }
}

// How many bytes a value takes, and 0 where it is too great.
fn size(value: u32) -> usize {
    if value < 128 {
        1
    } else if value < 16384 {
        2
    } else if value < 2097152 {
        3
    } else {
        0
    }
}

// Whether every byte but `count` from `from` on is aa.
fn kept(s: &[u8], from: usize, count: usize) -> bool {
    for (i, &b) in s.iter().enumerate() {
        if b != 170 && (i < from || i - from >= count) {
            return false;
        }
    }
    true
}

fn more(n: u64) -> u64 {
    if n < 1000000 { n + 1 } else { n }
}

// Runs the trials. Each kind of answer that is to be met is `one`, `two` or a number read or written.
fn trials(rt: &impl Print, write: bool, one: u32, two: u32) -> io::Result<()> {
    let mut met = [0u64; 16];
    let mut seed: u64 = 2026;
    for _ in 0..TRIALS {
        seed = next(seed);
        let k = (if write { writing(seed) } else { reading(seed) } % 16) as usize;
        met[k] = more(met[k]);
    }
    show(
        rt,
        met[15],
        met[0],
        met[(one % 16) as usize],
        met[(two % 16) as usize],
    )
}

fn show(rt: &impl Print, differ: u64, given: u64, one: u64, two: u64) -> io::Result<()> {
    print!(rt; "{TRIALS}: expected 0 different, got {differ}")?;
    print!(rt; "\n  each kind of answer more than 1000 times: expected yes, got ")?;
    if given > 1000 && one > 1000 && two > 1000 {
        println!(rt; "yes")
    } else {
        println!(rt; "no")
    }
}

fn main(rt: HostRuntime) -> io::Result<()> {
    print!(rt; "random reads ")?;
    trials(&rt, false, 7, 8)?;
    print!(rt; "random writes ")?;
    trials(&rt, true, 7, 3)
}
