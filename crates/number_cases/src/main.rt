// Runs document 01's byte cases and the cases around them against the number crate. Each line says the case, what is expected and what was got.
// What is expected is worked out by hand from document 01.
#![tactic(auto)]

use numbers::Refusal;
use std::io;

fn text(rt: &impl Print, s: &str) -> io::Result<()> {
    print!(rt; "{s}")
}

fn number(rt: &impl Print, n: u64) -> io::Result<()> {
    print!(rt; "{n}")
}

fn labelled(rt: &impl Print, label: &str, n: u64) -> io::Result<()> {
    text(rt, label)?;
    number(rt, n)
}

fn bytes(rt: &impl Print, s: &[u8]) -> io::Result<()> {
    for &b in s {
        print!(rt; " {b:02x}")?;
    }
    Ok(())
}

fn refusal(rt: &impl Print, r: Refusal) -> io::Result<()> {
    labelled(rt, " refused ", r.number as u64)?;
    labelled(rt, " at ", r.place as u64)
}

fn show_read(rt: &impl Print, label: &str, r: Result<(u32, usize), Refusal>) -> io::Result<()> {
    text(rt, label)?;
    match r {
        Ok((value, next)) => {
            labelled(rt, " ", value as u64)?;
            labelled(rt, " next ", next as u64)
        }
        Err(r) => refusal(rt, r),
    }
}

fn show_written(
    rt: &impl Print,
    label: &str,
    w: Result<usize, Refusal>,
    after: &[u8],
) -> io::Result<()> {
    text(rt, label)?;
    match w {
        Ok(next) => labelled(rt, " next ", next as u64),
        Err(r) => refusal(rt, r),
    }?;
    text(rt, ",")?;
    bytes(rt, after)
}

// What a refusal of one number has: no place.
fn bad(number: u32) -> Refusal {
    Refusal { number, place: 0 }
}

fn read_case(
    rt: &impl Print,
    s: &[u8],
    at: usize,
    expected: Result<(u32, usize), Refusal>,
) -> io::Result<()> {
    text(rt, "read")?;
    bytes(rt, s)?;
    labelled(rt, " from ", at as u64)?;
    show_read(rt, ": expected", expected)?;
    let got = numbers::read_number(s, at).map_err(Refusal::from);
    show_read(rt, ", got", got)?;
    println!(rt)
}

// Into `room` bytes of aa; `after` is what they are to be afterwards.
fn write_case(
    rt: &impl Print,
    value: u32,
    room: usize,
    at: usize,
    expected: Result<usize, Refusal>,
    after: &[u8],
) -> io::Result<()> {
    let mut buffer = [170u8; 5];
    labelled(rt, "write ", value as u64)?;
    labelled(rt, " from ", at as u64)?;
    show_written(rt, ": expected", expected, after)?;
    write_into(rt, value, &mut buffer, room, at)?;
    println!(rt)
}

fn write_into(
    rt: &impl Print,
    value: u32,
    buffer: &mut [u8],
    room: usize,
    at: usize,
) -> io::Result<()> {
    if room <= buffer.len() {
        let w = numbers::write_number(value, &mut buffer[..room], at);
        show_written(rt, ", got", w.map_err(Refusal::from), &buffer[..room])?;
    }
    Ok(())
}

// Document 01: 127 is 7F, 128 is 80 01, 32,767 is FF FF 01, 32,768 is 80 80 02.
fn known_reads(rt: &impl Print) -> io::Result<()> {
    read_case(rt, b"\x7f", 0, Ok((127, 1)))?;
    read_case(rt, b"\x80\x01", 0, Ok((128, 2)))?;
    read_case(rt, b"\xff\xff\x01", 0, Ok((32767, 3)))?;
    read_case(rt, b"\x80\x80\x02", 0, Ok((32768, 3)))
}

// 80 00 gives 7, 80 80 80 gives 7, 80 80 and the end gives 8.
fn known_refusals(rt: &impl Print) -> io::Result<()> {
    read_case(rt, b"\x80\x00", 0, Err(bad(7)))?;
    read_case(rt, b"\x80\x80\x80", 0, Err(bad(7)))?;
    read_case(rt, b"\x80\x80", 0, Err(bad(8)))
}

// The first and the last value of each length: 127 + 127 * 128 is 16,383, and 127 * 16,384 more is 2,097,151.
fn more_reads(rt: &impl Print) -> io::Result<()> {
    read_case(rt, b"\x00", 0, Ok((0, 1)))?;
    read_case(rt, b"\xff\x7f", 0, Ok((16383, 2)))?;
    read_case(rt, b"\x80\x80\x01", 0, Ok((16384, 3)))?;
    read_case(rt, b"\xff\xff\x7f", 0, Ok((2097151, 3)))
}

// What no number of three bytes may be, and the end inside a number.
fn bad_reads(rt: &impl Print) -> io::Result<()> {
    read_case(rt, b"\x80\x80\x00", 0, Err(bad(7)))?;
    read_case(rt, b"\xff\xff\x80\x01", 0, Err(bad(7)))?;
    read_case(rt, b"\xff", 0, Err(bad(8)))?;
    read_case(rt, b"", 0, Err(bad(8)))
}

// A number between others.
fn placed_reads(rt: &impl Print) -> io::Result<()> {
    read_case(rt, b"\x05\xff\x7f\x09", 1, Ok((16383, 3)))?;
    read_case(rt, b"\x05\xff\x7f\x09", 3, Ok((9, 4)))
}

// Positions at and past the end.
fn past_reads(rt: &impl Print) -> io::Result<()> {
    read_case(rt, b"\x05\xff\x7f\x09", 4, Err(bad(8)))?;
    read_case(rt, b"\x05\xff\x7f\x09", 5, Err(bad(8)))?;
    read_case(rt, b"\x05\xff", 1, Err(bad(8)))?;
    read_case(rt, b"\x05", 18446744073709551615, Err(bad(8)))
}

fn known_writes(rt: &impl Print) -> io::Result<()> {
    write_case(rt, 0, 1, 0, Ok(1), b"\x00")?;
    write_case(rt, 127, 1, 0, Ok(1), b"\x7f")?;
    write_case(rt, 128, 2, 0, Ok(2), b"\x80\x01")?;
    write_case(rt, 16383, 2, 0, Ok(2), b"\xff\x7f")?;
    write_case(rt, 16384, 3, 0, Ok(3), b"\x80\x80\x01")
}

fn more_writes(rt: &impl Print) -> io::Result<()> {
    write_case(rt, 32767, 3, 0, Ok(3), b"\xff\xff\x01")?;
    write_case(rt, 32768, 3, 0, Ok(3), b"\x80\x80\x02")?;
    write_case(rt, 2097151, 3, 0, Ok(3), b"\xff\xff\x7f")?;
    write_case(rt, 2097152, 3, 0, Err(bad(7)), b"\xaa\xaa\xaa")?;
    write_case(rt, 4294967295, 3, 0, Err(bad(7)), b"\xaa\xaa\xaa")
}

// Bytes before and behind the number stay; room short by one.
fn placed_writes(rt: &impl Print) -> io::Result<()> {
    write_case(rt, 128, 5, 1, Ok(3), b"\xaa\x80\x01\xaa\xaa")?;
    write_case(rt, 5, 5, 4, Ok(5), b"\xaa\xaa\xaa\xaa\x05")?;
    write_case(rt, 0, 0, 0, Err(bad(3)), b"")?;
    write_case(rt, 128, 1, 0, Err(bad(3)), b"\xaa")?;
    write_case(rt, 16384, 2, 0, Err(bad(3)), b"\xaa\xaa")
}

// Positions with too little room behind them, or none; 7 is tested before 3.
fn past_writes(rt: &impl Print) -> io::Result<()> {
    write_case(rt, 16384, 5, 3, Err(bad(3)), b"\xaa\xaa\xaa\xaa\xaa")?;
    write_case(rt, 0, 5, 5, Err(bad(3)), b"\xaa\xaa\xaa\xaa\xaa")?;
    write_case(rt, 0, 5, 6, Err(bad(3)), b"\xaa\xaa\xaa\xaa\xaa")?;
    write_case(
        rt,
        0,
        5,
        18446744073709551615,
        Err(bad(3)),
        b"\xaa\xaa\xaa\xaa\xaa",
    )?;
    write_case(rt, 2097152, 0, 0, Err(bad(7)), b"")
}

fn width_case(rt: &impl Print, value: u32, expected: u64) -> io::Result<()> {
    labelled(rt, "width ", value as u64)?;
    labelled(rt, ": expected ", expected)?;
    labelled(rt, ", got ", numbers::width(value) as u64)?;
    println!(rt)
}

// The first and the last value of each length, and values that have no form.
fn widths(rt: &impl Print) -> io::Result<()> {
    width_case(rt, 0, 1)?;
    width_case(rt, 127, 1)?;
    width_case(rt, 128, 2)?;
    width_case(rt, 16383, 2)?;
    width_case(rt, 16384, 3)?;
    width_case(rt, 2097151, 3)?;
    width_case(rt, 2097152, 0)?;
    width_case(rt, 4294967295, 0)
}

fn main(rt: HostRuntime) -> io::Result<()> {
    known_reads(&rt)?;
    known_refusals(&rt)?;
    more_reads(&rt)?;
    bad_reads(&rt)?;
    placed_reads(&rt)?;
    past_reads(&rt)?;
    known_writes(&rt)?;
    more_writes(&rt)?;
    placed_writes(&rt)?;
    past_writes(&rt)?;
    widths(&rt)
}
