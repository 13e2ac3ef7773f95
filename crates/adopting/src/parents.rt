// A table of parents that is to be adopted: its tests.
ghost use Rattle.std.specs.Prelude.{◌<◌, ◌≤◌, ◌≡◌, length};
ghost use Rattle.rules.specs.Search.{every};
ghost use Rattle.rules.specs.Adopting.{adoptable};
ghost use Rattle.adopting.specs.Adopt.{below, Inside, Verdict};

use state::wide;

// 'an adopted parent is n or more'
fn inside(parents: &[u32], n: usize) -> bool
    requires { n ≤ length parents.now }
    ensures { result ≡ every (below n parents.now) n }
{
    parents[..n].iter().all(|&p| wide(p) < n)
}

// 'or parents run in a cycle of two or more': whether v's way leads to a root, or to one below v, whose way was followed before.
fn leads(parents: &[u32], n: usize, v: usize) -> bool
    requires { Inside n parents.now × (v < n) }
    ensures { Verdict n parents.now v result }
{
    let mut u = v;
    for _ in 0..n {
        let p = wide(parents[u]);
        if p == u || p < v {
            return true;
        }
        u = p;
    }
    wide(parents[u]) == u
}

fn all_lead(parents: &[u32], n: usize) -> bool
    requires { Inside n parents.now }
    ensures { result ≡ adoptable n parents.now }
{
    (0..n).all(|v| leads(parents, n, v))
}

pub(crate) fn may_adopt(parents: &[u32], n: usize) -> bool
    requires { n ≤ length parents.now }
    ensures { result ≡ adoptable n parents.now }
{
    inside(parents, n) && all_lead(parents, n)
}
