// The report of a state in Read: what is asked of all fragments at once, written line by line.
#![tactic(auto)]

ghost use Rattle.std.specs.Prelude.{◌≡◌, ◌+◌, ◌*◌, ◌<◌, ◌≤◌};
ghost use Rattle.numbers.specs.Answers.{wrote};
ghost use Rattle.state.specs.Layout.{forest_in};
ghost use Rattle.testing.specs.Only.{Only};
ghost use Rattle.text.specs.Lines.{store};
ghost use Rattle.text.specs.Put.{Put, Line, ample};
ghost use Rattle.lines.specs.Report.{fragment_at, lines_to, report_lines, report_call};
ghost use Rattle.lines.specs.Threads.{Answered, Threadable, Threaded};

use numbers::Why;
use reaches::{CUT, PIECE};
use state::{State, clear, wide};
use tables::{SCRATCH, parent_at};
pub use text::{no_file_line, refusal_line};
use threads::{soles, thread};

mod threads;

fn fragment_at(frag: &[u32], n: usize, v: usize, out: &mut [u8], at: usize) -> usize
    requires { Answered n frag.now × (v < n) × (at ≤ ample) }
    ensures { Line (fragment_at n (forest_in n frag.now) v) 200 at out.old result out.new }
{
    let p = parent_at(frag, n, v);
    let q = wide(frag[PIECE * n + v]);
    let c = frag[CUT * n + v] != 0;
    text::fragment_line(out, at, v as u64, p as u64, q as u64, c)
}

fn fragments(frag: &[u32], n: usize, out: &mut [u8], from: usize) -> usize
    requires { Answered n frag.now × (from ≤ 200) }
    ensures { Line (lines_to (fragment_at n (forest_in n frag.now)) n) (200 * n) from out.old result out.new }
{
    let mut at = from;
    for v in 0..n {
        at = fragment_at(frag, n, v, out, at);
    }
    at
}

fn all_lines(s: State, frag: &[u32], out: &mut [u8]) -> usize
    requires { Threaded s.n frag.now }
    ensures { Put (report_lines s.n s.entries s.passes (forest_in s.n frag.now)) 0 out.old result out.new }
{
    let first = text::first_line(out, s.n as u64, s.entries as u64, s.passes as u64);
    let second = fragments(frag, s.n, out, first);
    soles(frag, s.n, out, second)
}

// The text is gone through twice: for its length, and to write it.
fn written(s: State, frag: &mut [u32], out: &mut [u8]) -> Result<usize, Why>
    requires { Threadable s.n frag.old }
    ensures { (wrote result out.new ≡ store out.old (report_lines s.n s.entries s.passes (forest_in s.n frag.old))) × Only (10 * s.n) (12 * s.n) frag.old frag.new }
{
    thread(frag, s.n);
    let size = all_lines(s, frag, &mut out[..0]);
    if out.len() < size {
        return Err(Why::Short);
    }
    all_lines(s, frag, out);
    Ok(size)
}

// Writes the report of a state in Read. The fragment table is lent to work in; it is left as found.
pub fn report(s: State, frag: &mut [u32], held: &[u32], out: &mut [u8]) -> Result<usize, Why>
    ensures { (wrote result out.new ≡ report_call s frag.old held.now out.old) × (frag.new ≡ frag.old) }
{
    reaches::spread(s, frag, held)?;
    let end = written(s, frag, out);
    clear(frag, SCRATCH * s.n, State::WORDS * s.n);
    end
}
