// The size of what putting terms in would make of an assertion: at most 2^64 - 1, where the counts stay.
ghost use Rattle.std.specs.Prelude.{◌≡◌, ◌+◌, ◌-◌, ◌^◌, min, max, sum_by};
ghost use Rattle.tht_tree.specs.Normal.Putting.{put_nodes, put_levels};
ghost use Rattle.tht_tree.specs.Rules.Sizes.{max_by};
ghost use Rattle.pure_terms.specs.Inside.{puts_of};
ghost use Rattle.heap_assert.specs.ByNames.{nodes_inside, levels_inside as depth_inside};

use pure_terms::{Inside, levels_inside, size_inside};
use sqlite_items::Items;
use tht_tree::assn::Assn;
use tht_tree::term::Term;

/// How many nodes the assertion has with these put in. What a bound name is replaced by has one.
pub(crate) fn put_size(assn: &Assn, by: &Inside<'_>) -> u64
    ensures { result ≡ min (nodes_inside (puts_of by.now) assn.now) (2 ^ 64 - 1) }
{
    match assn {
        Assn::Emp => 1,
        Assn::Fact(t) => size_inside(t.get(), by).saturating_add(1),
        Assn::Own(t, u) => over_two(size_inside(t.get(), by), size_inside(u.get(), by)),
        Assn::Shared(t, u) => over_two(size_inside(t.get(), by), size_inside(u.get(), by)),
        Assn::Star(a, b) => over_two(put_size(a.get(), by), put_size(b.get(), by)),
        Assn::Inst(_, ts) => terms_size(ts, by).saturating_add(1),
        Assn::Exists(x, _, a) => {
            put_size(a.get(), &Inside::Renamed(&*x, &*x, &*by)).saturating_add(1)
        }
        Assn::Either(a, b) => over_two(put_size(a.get(), by), put_size(b.get(), by)),
    }
}

fn terms_size(terms: &Items<Term>, by: &Inside<'_>) -> u64
    ensures { result ≡ min (sum_by (put_nodes (puts_of by.now)) terms.now) (2 ^ 64 - 1) }
{
    let mut total: u64 = 0;
    for term in terms.as_slice() {
        total = total.saturating_add(size_inside(term, by));
    }
    total
}

// One more than two counts together.
fn over_two(a: u64, b: u64) -> u64
    ensures { result ≡ min (a + b + 1) (2 ^ 64 - 1) }
{
    a.saturating_add(b).saturating_add(1)
}

/// How many levels the assertion has with these put in. What a bound name is replaced by has one.
pub(crate) fn put_depth(assn: &Assn, by: &Inside<'_>) -> u64
    ensures { result ≡ min (depth_inside (puts_of by.now) assn.now) (2 ^ 64 - 1) }
{
    match assn {
        Assn::Emp => 1,
        Assn::Fact(t) => levels_inside(t.get(), by).saturating_add(1),
        Assn::Own(t, u) => over_deeper(levels_inside(t.get(), by), levels_inside(u.get(), by)),
        Assn::Shared(t, u) => over_deeper(levels_inside(t.get(), by), levels_inside(u.get(), by)),
        Assn::Star(a, b) => over_deeper(put_depth(a.get(), by), put_depth(b.get(), by)),
        Assn::Inst(_, ts) => terms_depth(ts, by).saturating_add(1),
        Assn::Exists(x, _, a) => {
            put_depth(a.get(), &Inside::Renamed(&*x, &*x, &*by)).saturating_add(1)
        }
        Assn::Either(a, b) => over_deeper(put_depth(a.get(), by), put_depth(b.get(), by)),
    }
}

// The most levels of a term in the list, or 0 where there is none.
fn terms_depth(terms: &Items<Term>, by: &Inside<'_>) -> u64
    ensures { result ≡ min (max_by (put_levels (puts_of by.now)) terms.now) (2 ^ 64 - 1) }
{
    let mut most: u64 = 0;
    for term in terms.as_slice() {
        most = most.max(levels_inside(term, by));
    }
    most
}

// One more than the greater of two counts.
fn over_deeper(a: u64, b: u64) -> u64
    ensures { result ≡ min (max a b + 1) (2 ^ 64 - 1) }
{
    a.max(b).saturating_add(1)
}
