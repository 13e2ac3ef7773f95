// The lines of the report as text.
#![tactic(auto)]

ghost use Rattle.std.specs.Prelude.{◌≡◌};
ghost use Rattle.numbers.specs.Answers.{wrote};
ghost use Rattle.text.specs.Lines.{refusal_line, no_file_line, store};

pub use lines::{first_line, fragment_line, sole_line};
use numbers::Why;

mod lines;

// Writes the line of a refusal.
pub fn refusal_line(number: u32, place: usize, out: &mut [u8]) -> Result<usize, Why>
    ensures { wrote result out.new ≡ store out.old (refusal_line number place) }
{
    let size = lines::refusal_text(&mut out[..0], number as u64, place as u64);
    if out.len() < size {
        return Err(Why::Short);
    }
    lines::refusal_text(out, number as u64, place as u64);
    Ok(size)
}

// Writes the line that says that there is no file.
pub fn no_file_line(out: &mut [u8]) -> Result<usize, Why>
    ensures { wrote result out.new ≡ store out.old no_file_line }
{
    let size = lines::no_file_text(&mut out[..0]);
    if out.len() < size {
        return Err(Why::Short);
    }
    lines::no_file_text(out);
    Ok(size)
}
