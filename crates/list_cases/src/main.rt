// Runs document 01's link cases and the cases around them against the crates `lists` and `writing`. Each line says the case, what is expected
// and what was got. What is expected is worked out by hand from document 01.
#![tactic(auto)]

use numbers::Refusal;
use std::io;

fn text(rt: &impl Print, s: &str) -> io::Result<()> {
    print!(rt; "{s}")
}

fn number(rt: &impl Print, n: u64) -> io::Result<()> {
    print!(rt; "{n}")
}

fn labelled(rt: &impl Print, label: &str, n: u64) -> io::Result<()> {
    text(rt, label)?;
    number(rt, n)
}

fn byte(rt: &impl Print, b: u8) -> io::Result<()> {
    print!(rt; " {b:02x}")
}

fn bytes(rt: &impl Print, s: &[u8]) -> io::Result<()> {
    for &b in s {
        byte(rt, b)?;
    }
    Ok(())
}

fn listing(rt: &impl Print, label: &str, s: &[u8]) -> io::Result<()> {
    text(rt, label)?;
    bytes(rt, s)
}

fn word(rt: &impl Print, w: u32) -> io::Result<()> {
    labelled(rt, " ", w as u64)
}

fn words(rt: &impl Print, s: &[u32]) -> io::Result<()> {
    for &w in s {
        word(rt, w)?;
    }
    Ok(())
}

fn refusal(number: u32, place: usize) -> Refusal {
    Refusal { number, place }
}

fn show_refusal(rt: &impl Print, r: Refusal) -> io::Result<()> {
    labelled(rt, " refused ", r.number as u64)?;
    labelled(rt, " at ", r.place as u64)
}

fn show_scanned(rt: &impl Print, label: &str, s: Result<u32, Refusal>) -> io::Result<()> {
    text(rt, label)?;
    match s {
        Ok(count) => labelled(rt, " links ", count as u64),
        Err(r) => show_refusal(rt, r),
    }
}

fn show_link(
    rt: &impl Print,
    label: &str,
    l: Result<(u32, u32, usize), Refusal>,
) -> io::Result<()> {
    text(rt, label)?;
    match l {
        Ok((a, b, next)) => {
            labelled(rt, " ends ", a as u64)?;
            word(rt, b)?;
            labelled(rt, " next ", next as u64)
        }
        Err(r) => show_refusal(rt, r),
    }
}

fn show_listed(
    rt: &impl Print,
    label: &str,
    l: Result<(u32, usize, u32), Refusal>,
) -> io::Result<()> {
    text(rt, label)?;
    match l {
        Ok((n, begins, count)) => {
            labelled(rt, " fragments ", n as u64)?;
            labelled(rt, " begins ", begins as u64)?;
            labelled(rt, " links ", count as u64)
        }
        Err(r) => show_refusal(rt, r),
    }
}

fn show_written(
    rt: &impl Print,
    label: &str,
    w: Result<usize, Refusal>,
    after: &[u8],
) -> io::Result<()> {
    text(rt, label)?;
    match w {
        Ok(end) => labelled(rt, " end ", end as u64),
        Err(r) => show_refusal(rt, r),
    }?;
    listing(rt, ",", after)
}

fn scanned(
    rt: &impl Print,
    n: u32,
    entries: u32,
    block: &[u8],
    expected: Result<u32, Refusal>,
) -> io::Result<()> {
    listing(rt, ":", block)?;
    show_scanned(rt, ": expected", expected)?;
    show_scanned(rt, ", got", lists::scan(n, entries, block))?;
    println!(rt)
}

// A scan with n = 4.
fn scan_case(
    rt: &impl Print,
    entries: u32,
    block: &[u8],
    expected: Result<u32, Refusal>,
) -> io::Result<()> {
    labelled(rt, "scan after ", entries as u64)?;
    scanned(rt, 4, entries, block, expected)
}

fn bad_scan(
    rt: &impl Print,
    entries: u32,
    block: &[u8],
    number: u32,
    place: usize,
) -> io::Result<()> {
    scan_case(rt, entries, block, Err(refusal(number, place)))
}

// A scan with another n.
fn sized_scan(
    rt: &impl Print,
    n: u32,
    block: &[u8],
    expected: Result<u32, Refusal>,
) -> io::Result<()> {
    labelled(rt, "scan n ", n as u64)?;
    scanned(rt, n, 0, block, expected)
}

fn linked(
    rt: &impl Print,
    n: u32,
    entries: u32,
    block: &[u8],
    at: usize,
    expected: Result<(u32, u32, usize), Refusal>,
) -> io::Result<()> {
    listing(rt, ":", block)?;
    labelled(rt, " from ", at as u64)?;
    show_link(rt, ": expected", expected)?;
    show_link(rt, ", got", lists::link_at(n, entries, block, at))?;
    println!(rt)
}

// A link with n = 4.
fn link_case(
    rt: &impl Print,
    entries: u32,
    block: &[u8],
    at: usize,
    expected: Result<(u32, u32, usize), Refusal>,
) -> io::Result<()> {
    labelled(rt, "link after ", entries as u64)?;
    linked(rt, 4, entries, block, at, expected)
}

fn bad_link(rt: &impl Print, entries: u32, block: &[u8], at: usize, number: u32) -> io::Result<()> {
    link_case(rt, entries, block, at, Err(refusal(number, at)))
}

// A link with another n.
fn sized_link(
    rt: &impl Print,
    n: u32,
    block: &[u8],
    at: usize,
    expected: Result<(u32, u32, usize), Refusal>,
) -> io::Result<()> {
    labelled(rt, "link n ", n as u64)?;
    linked(rt, n, 0, block, at, expected)
}

fn list_case(
    rt: &impl Print,
    file: &[u8],
    expected: Result<(u32, usize, u32), Refusal>,
) -> io::Result<()> {
    listing(rt, "list", file)?;
    show_listed(rt, ": expected", expected)?;
    show_listed(rt, ", got", lists::read_list(file))?;
    println!(rt)
}

fn bad_list(rt: &impl Print, file: &[u8], number: u32, place: usize) -> io::Result<()> {
    list_case(rt, file, Err(refusal(number, place)))
}

fn cut_case(rt: &impl Print, part: &[u8], expected: usize) -> io::Result<()> {
    listing(rt, "cut", part)?;
    labelled(rt, ": expected ", expected as u64)?;
    labelled(rt, ", got ", lists::cut(part) as u64)?;
    println!(rt)
}

// Into `room` bytes of aa; `after` is what they are to be afterwards.
fn write_case(
    rt: &impl Print,
    n: u32,
    links: &[u32],
    room: usize,
    expected: Result<usize, Refusal>,
    after: &[u8],
) -> io::Result<()> {
    let mut buffer = [170u8; 8];
    labelled(rt, "write n ", n as u64)?;
    text(rt, " links")?;
    words(rt, links)?;
    show_written(rt, ": expected", expected, after)?;
    write_into(rt, n, links, &mut buffer, room)?;
    println!(rt)
}

fn write_into(
    rt: &impl Print,
    n: u32,
    links: &[u32],
    buffer: &mut [u8],
    room: usize,
) -> io::Result<()> {
    if room <= buffer.len() {
        let w = writing::write_list(n, links, &mut buffer[..room]);
        show_written(rt, ", got", w.map_err(Refusal::from), &buffer[..room])?;
    }
    Ok(())
}

fn bad_write(rt: &impl Print, n: u32, links: &[u32], number: u32) -> io::Result<()> {
    write_case(rt, n, links, 2, Err(refusal(number, 0)), b"\xaa\xaa")
}

// Document 01, with n = 4: 0-4 gives 4, 9-9 gives 4, 2-2 gives 5.
fn known_scans(rt: &impl Print) -> io::Result<()> {
    bad_scan(rt, 0, b"\x00\x04", 4, 0)?;
    bad_scan(rt, 0, b"\x09\x09", 4, 0)?;
    bad_scan(rt, 0, b"\x02\x02", 5, 0)?;
    bad_scan(rt, 0, b"\x04\x00", 4, 0)
}

fn least_scans(rt: &impl Print) -> io::Result<()> {
    scan_case(rt, 0, b"", Ok(0))?;
    bad_scan(rt, 0, b"\x01", 8, 0)?;
    scan_case(rt, 0, b"\x00\x01", Ok(1))?;
    scan_case(rt, 0, b"\x03\x00\x00\x03\x00\x03", Ok(3))
}

// Each refusal at the first, the second and the last of three links.
fn far_scans(rt: &impl Print) -> io::Result<()> {
    bad_scan(rt, 0, b"\x00\x04\x01\x02\x02\x03", 4, 0)?;
    bad_scan(rt, 0, b"\x00\x01\x00\x04\x02\x03", 4, 2)?;
    bad_scan(rt, 0, b"\x00\x01\x01\x02\x00\x04", 4, 4)
}

fn same_scans(rt: &impl Print) -> io::Result<()> {
    bad_scan(rt, 0, b"\x02\x02\x01\x02\x02\x03", 5, 0)?;
    bad_scan(rt, 0, b"\x00\x01\x02\x02\x02\x03", 5, 2)?;
    bad_scan(rt, 0, b"\x00\x01\x01\x02\x02\x02", 5, 4)
}

fn long_scans(rt: &impl Print) -> io::Result<()> {
    bad_scan(rt, 0, b"\x80\x00\x01\x02\x02\x03", 7, 0)?;
    bad_scan(rt, 0, b"\x00\x01\x80\x00\x02\x03", 7, 2)?;
    bad_scan(rt, 0, b"\x00\x01\x01\x02\x02\x80\x00", 7, 4)?;
    bad_scan(rt, 0, b"\x00\x01\x80\x80\x80\x01\x02", 7, 2)
}

fn ended_scans(rt: &impl Print) -> io::Result<()> {
    bad_scan(rt, 0, b"\x00\x80", 8, 0)?;
    bad_scan(rt, 0, b"\x00\x01\x01", 8, 2)?;
    bad_scan(rt, 0, b"\x00\x01\x80", 8, 2)?;
    bad_scan(rt, 0, b"\x00\x01\x01\x02\x02", 8, 4)?;
    bad_scan(rt, 0, b"\x00\x01\x01\x02\x02\x80\x80", 8, 4)
}

// Entry number 16,777,215 is the last.
fn full_scans(rt: &impl Print) -> io::Result<()> {
    scan_case(rt, 16777215, b"", Ok(0))?;
    scan_case(rt, 16777214, b"\x00\x01", Ok(1))?;
    bad_scan(rt, 16777215, b"\x00\x01\x01\x02\x02\x03", 12, 0)?;
    bad_scan(rt, 16777214, b"\x00\x01\x01\x02\x02\x03", 12, 2)?;
    bad_scan(rt, 16777213, b"\x00\x01\x01\x02\x02\x03", 12, 4)
}

// 12 comes after the other refusals of a link, and 7 and 8 before 4.
fn ordered_scans(rt: &impl Print) -> io::Result<()> {
    bad_scan(rt, 4294967295, b"\x00\x01", 12, 0)?;
    bad_scan(rt, 16777215, b"\x00\x04", 4, 0)?;
    bad_scan(rt, 16777215, b"\x02\x02", 5, 0)?;
    bad_scan(rt, 0, b"\x09\x80\x00", 7, 0)?;
    bad_scan(rt, 0, b"\x09", 8, 0)
}

// n is 1 to 32,768, and 1 comes before the links; 32,767 is FF FF 01.
fn sized_scans(rt: &impl Print) -> io::Result<()> {
    sized_scan(rt, 0, b"", Err(refusal(1, 0)))?;
    sized_scan(rt, 0, b"\x00\x01", Err(refusal(1, 0)))?;
    sized_scan(rt, 32768, b"\x00\xff\xff\x01", Ok(1))?;
    sized_scan(rt, 32769, b"\x00\xff\xff\x01", Err(refusal(1, 0)))?;
    sized_scan(rt, 32769, b"\x00\x01\x80\x00", Err(refusal(1, 0)))
}

fn known_links(rt: &impl Print) -> io::Result<()> {
    link_case(rt, 0, b"\x00\x01\x02\x03", 0, Ok((0, 1, 2)))?;
    link_case(rt, 16777214, b"\x00\x01\x02\x03", 2, Ok((2, 3, 4)))?;
    bad_link(rt, 16777215, b"\x00\x01\x02\x03", 2, 12)?;
    link_case(rt, 0, b"\x00\x01\x02\x03", 1, Ok((1, 2, 3)))
}

fn ended_links(rt: &impl Print) -> io::Result<()> {
    bad_link(rt, 0, b"\x00\x01\x02\x03", 3, 8)?;
    bad_link(rt, 0, b"\x00\x01\x02\x03", 4, 8)?;
    bad_link(rt, 0, b"\x00\x01\x02\x03", 9, 8)
}

fn sized_links(rt: &impl Print) -> io::Result<()> {
    sized_link(rt, 0, b"\x00\x01", 0, Err(refusal(1, 0)))?;
    sized_link(rt, 32768, b"\x00\xff\xff\x01", 0, Ok((0, 32767, 4)))?;
    sized_link(rt, 32769, b"\x00\x01\x02\x03", 2, Err(refusal(1, 0)))?;
    sized_link(rt, 32769, b"\x00\x01", 9, Err(refusal(1, 0)))
}

// The first is the list of document 01's program case; 32,768 is 80 80 02, and 32,769 is 81 80 02.
fn known_lists(rt: &impl Print) -> io::Result<()> {
    list_case(rt, b"\x04\x00\x01\x00\x02\x00\x03\x01\x02", Ok((4, 1, 4)))?;
    list_case(rt, b"\x80\x80\x02", Ok((32768, 3, 0)))?;
    list_case(rt, b"\x80\x01\x00\x7f", Ok((128, 2, 1)))
}

fn bad_headers(rt: &impl Print) -> io::Result<()> {
    bad_list(rt, b"\x81\x80\x02", 1, 0)?;
    bad_list(rt, b"\x00", 1, 0)?;
    bad_list(rt, b"", 8, 0)?;
    bad_list(rt, b"\x80\x00", 7, 0)
}

fn bad_lists(rt: &impl Print) -> io::Result<()> {
    bad_list(rt, b"\x04\x00\x01\x02", 8, 3)?;
    bad_list(rt, b"\x04\x00\x04", 4, 1)?;
    bad_list(rt, b"\x04\x00\x01\x02\x02", 5, 3)?;
    bad_list(rt, b"\x80\x01\x00\x80\x01", 4, 2)
}

fn least_cuts(rt: &impl Print) -> io::Result<()> {
    cut_case(rt, b"", 0)?;
    cut_case(rt, b"\x01", 0)?;
    cut_case(rt, b"\x00\x01", 2)?;
    cut_case(rt, b"\x00\x01\x02", 2)?;
    cut_case(rt, b"\x00\x01\x02\x80", 2)
}

// 80 00 and 80 80 80 are no numbers, whatever follows: the cut leaves them to the scan.
fn known_cuts(rt: &impl Print) -> io::Result<()> {
    cut_case(rt, b"\x00\x01\x80", 2)?;
    cut_case(rt, b"\x00\x80\x01\x05", 3)?;
    cut_case(rt, b"\x80\x00\x01", 3)?;
    cut_case(rt, b"\x00\x01\x80\x80\x80\x05", 6)
}

fn least_writes(rt: &impl Print) -> io::Result<()> {
    let none: [u32; 0] = [];
    write_case(rt, 4, &none, 2, Ok(1), b"\x04\xaa")?;
    let two = [0u32, 1, 0, 2];
    write_case(rt, 4, &two, 8, Ok(5), b"\x04\x00\x01\x00\x02\xaa\xaa\xaa")?;
    write_case(rt, 4, &two, 5, Ok(5), b"\x04\x00\x01\x00\x02")
}

fn known_writes(rt: &impl Print) -> io::Result<()> {
    let two = [0u32, 1, 0, 2];
    write_case(rt, 4, &two, 4, Err(refusal(3, 0)), b"\xaa\xaa\xaa\xaa")?;
    let wide = [32767u32, 0];
    write_case(
        rt,
        32768,
        &wide,
        8,
        Ok(7),
        b"\x80\x80\x02\xff\xff\x01\x00\xaa",
    )
}

// In the order of the tests: 1, then 4 and 5 by first bad link, then 8, then 3.
fn bad_writes(rt: &impl Print) -> io::Result<()> {
    let far = [0u32, 4, 2, 2, 1];
    bad_write(rt, 0, &far, 1)?;
    bad_write(rt, 32769, &far, 1)?;
    bad_write(rt, 4, &far, 4)?;
    let same = [2u32, 2, 0, 4, 1];
    bad_write(rt, 4, &same, 5)
}

fn more_writes(rt: &impl Print) -> io::Result<()> {
    let nine = [9u32, 9];
    bad_write(rt, 4, &nine, 4)?;
    let odd = [0u32, 1, 4];
    bad_write(rt, 4, &odd, 8)?;
    let one = [0u32, 1];
    bad_write(rt, 4, &one, 3)
}

fn scans(rt: &impl Print) -> io::Result<()> {
    known_scans(rt)?;
    least_scans(rt)?;
    far_scans(rt)?;
    same_scans(rt)?;
    long_scans(rt)?;
    ended_scans(rt)?;
    full_scans(rt)?;
    ordered_scans(rt)?;
    sized_scans(rt)
}

fn others(rt: &impl Print) -> io::Result<()> {
    known_links(rt)?;
    ended_links(rt)?;
    sized_links(rt)?;
    known_lists(rt)?;
    bad_headers(rt)?;
    bad_lists(rt)?;
    least_cuts(rt)?;
    known_cuts(rt)
}

fn main(rt: HostRuntime) -> io::Result<()> {
    scans(&rt)?;
    others(&rt)?;
    least_writes(&rt)?;
    known_writes(&rt)?;
    bad_writes(&rt)?;
    more_writes(&rt)
}
