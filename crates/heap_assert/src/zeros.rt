// The longest name of zeros that is free in what putting terms in would make of an assertion.
ghost use Rattle.std.specs.Prelude.{◌≡◌, max, []};
ghost use Rattle.tht_tree.specs.Rules.Sizes.{max_by};
ghost use Rattle.tht_logic.specs.Putting.{zeros_made as zeros_of};
ghost use Rattle.pure_terms.specs.Inside.{puts_of};
ghost use Rattle.pure_terms.specs.Zeros.{put_zeros};
ghost use Rattle.heap_assert.specs.ByNames.{zeros_inside as longest};

use pure_terms::{Inside, zeros_inside};
use sqlite_items::Items;
use std::alloc::Global;
use tht_tree::assn::Assn;
use tht_tree::plain::Name;
use tht_tree::term::Term;

/// How long the longest name of zeros is that is free in the assertion with these put in, or 0 where there is none.
pub(crate) fn zeros_made(alloc: Global, assn: &Assn, by: &Inside<'_>) -> usize
    ensures { result ≡ zeros_of (puts_of by.now) assn.now }
{
    let none = no_name(alloc);
    free_zeros(assn, &none, by)
}

// A name without zeros, which stands for each bound name.
fn no_name(alloc: Global) -> Name
    ensures { result ≡ [] }
{
    Name::new(String::new(alloc))
}

fn free_zeros(assn: &Assn, none: &Name, by: &Inside<'_>) -> usize
    ensures { result ≡ longest none.now (puts_of by.now) assn.now }
{
    match assn {
        Assn::Emp => 0,
        Assn::Fact(t) => zeros_inside(t.get(), by),
        Assn::Own(t, u) => zeros_inside(t.get(), by).max(zeros_inside(u.get(), by)),
        Assn::Shared(t, u) => zeros_inside(t.get(), by).max(zeros_inside(u.get(), by)),
        Assn::Star(a, b) => free_zeros(a.get(), none, by).max(free_zeros(b.get(), none, by)),
        Assn::Inst(_, ts) => terms_zeros(ts, by),
        Assn::Exists(x, _, a) => free_zeros(a.get(), none, &Inside::Renamed(&*x, &*none, &*by)),
        Assn::Either(a, b) => free_zeros(a.get(), none, by).max(free_zeros(b.get(), none, by)),
    }
}

// The same of a list of terms.
fn terms_zeros(terms: &Items<Term>, by: &Inside<'_>) -> usize
    ensures { result ≡ max_by (put_zeros (puts_of by.now)) terms.now }
{
    let mut most: usize = 0;
    for term in terms.as_slice() {
        most = most.max(zeros_inside(term, by));
    }
    most
}
