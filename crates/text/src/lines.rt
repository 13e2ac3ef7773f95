// Text written into a lent buffer as far as it has room. The position goes on where the room ends, so that a run over no room tells the length.
ghost use Rattle.std.specs.Prelude.{◌≡◌, [], ◌∷◌, ◌+◌, ◌≤◌, length};
ghost use Rattle.text.specs.Lines.{decimal, item, first_line, cut_word, fragment_line, sole_line, refusal_line, no_file_line};
ghost use Rattle.text.specs.Put.{Put, Line, ample, within};

// The greatest position from which a line is written.
const AMPLE: usize = 1000000000;

fn byte(out: &mut [u8], at: usize, b: u8) -> usize
    requires { at ≤ ample + 400 }
    ensures { Put (b ∷ []) at out.old result out.new }
{
    if at < out.len() {
        out[at] = b;
        return at + 1;
    }
    at + 1
}

fn word(out: &mut [u8], at: usize, bytes: &[u8]) -> usize
    requires { (at ≤ ample + 300) × (length bytes.now ≤ 20) }
    ensures { Put bytes.now at out.old result out.new }
{
    let mut end = at;
    for &b in bytes {
        end = byte(out, end, b);
    }
    end
}

fn number(out: &mut [u8], at: usize, x: u64) -> usize
    requires { at ≤ ample + 300 }
    ensures { Put (decimal x) at out.old result out.new }
{
    if x < 10 {
        return byte(out, at, (x % 10 + 48) as u8);
    }
    let end = number(out, at, x / 10);
    byte(out, end, (x % 10 + 48) as u8)
}

// A word, and a number behind it.
fn item(out: &mut [u8], at: usize, name: &[u8], x: u64) -> usize
    requires { (at ≤ ample + 200) × (length name.now ≤ 20) }
    ensures { Line (item name.now x) 40 at out.old result out.new }
{
    let middle = word(out, at, name);
    number(out, middle, x)
}

pub fn first_line(out: &mut [u8], n: u64, links: u64, passes: u64) -> usize
    ensures { Line (first_line n links passes) 200 0 out.old result out.new }
{
    let a = item(out, 0, b"fragments ", n);
    let b = item(out, a, b" links ", links);
    let c = item(out, b, b" passes ", passes);
    byte(out, c, 10)
}

fn cut_word(out: &mut [u8], at: usize, cut: bool) -> usize
    requires { at ≤ ample + 200 }
    ensures { Line (cut_word cut) 20 at out.old result out.new }
{
    if cut {
        return word(out, at, b" cut yes\n");
    }
    word(out, at, b" cut no\n")
}

pub fn fragment_line(out: &mut [u8], at: usize, v: u64, p: u64, q: u64, cut: bool) -> usize
    ensures { Line (within at (fragment_line v p q cut)) 200 at out.old result out.new }
{
    if at > AMPLE {
        return at;
    }
    let a = item(out, at, b"", v);
    let b = item(out, a, b" parent ", p);
    let c = item(out, b, b" piece ", q);
    cut_word(out, c, cut)
}

pub fn sole_line(out: &mut [u8], at: usize, a: u64, b: u64) -> usize
    ensures { Line (within at (sole_line a b)) 100 at out.old result out.new }
{
    if at > AMPLE {
        return at;
    }
    let x = item(out, at, b"sole ", a);
    let y = item(out, x, b" ", b);
    byte(out, y, 10)
}

pub(crate) fn refusal_text(out: &mut [u8], number: u64, place: u64) -> usize
    ensures { Put (refusal_line number place) 0 out.old result out.new }
{
    let x = item(out, 0, b"refused ", number);
    let y = item(out, x, b" at ", place);
    byte(out, y, 10)
}

pub(crate) fn no_file_text(out: &mut [u8]) -> usize
    ensures { Put no_file_line 0 out.old result out.new }
{
    word(out, 0, b"no file\n")
}
