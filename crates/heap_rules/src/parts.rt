// Parts of atoms, counted from 1: of a cell its place and its value, of an instance its arguments.
ghost use Rattle.std.specs.Prelude.{◌≡◌, ◌∷◌, [], Some};
ghost use Rattle.std.specs.Option.{option_copied, option_map};
ghost use Rattle.tht_tree.specs.declared.assn.Assn.{out-Assn};
ghost use Rattle.tht_logic.specs.Rules.Parts.{Part, part_at, side as side_at, argument_from_1};
ghost use Rattle.heap_rules.specs.Stages.{argument_at, argument_put};

use sqlite_items::{Boxed, Items};
use tht_tree::assn::Assn;
use tht_tree::term::Term;

/// Part k of an atom.
#[tactic(auto, using(crate::proofs::AtomParts::own_part, crate::proofs::AtomParts::shared_part, crate::proofs::AtomParts::instance_part))]
pub(crate) fn part_of(atom: &Assn, k: u64) -> Option<&Term>
    ensures { option_copied result ≡ option_map (λ p. p.term) (part_at k (out-Assn atom.now)) }
{
    match atom {
        Assn::Own(t, u) => side(k, t.get(), u.get()),
        Assn::Shared(t, u) => side(k, t.get(), u.get()),
        Assn::Inst(_, ts) => argument(k, ts),
        _ => None,
    }
}

// The first or the second of two terms.
fn side<'a>(k: u64, t: &'a Term, u: &'a Term) -> Option<&'a Term>
    ensures { option_copied result ≡ side_at k t.now u.now }
{
    if k == 1 {
        return Some(t);
    }
    if k == 2 {
        return Some(u);
    }
    None
}

// Argument k of an instance.
fn argument(k: u64, ts: &Items<Term>) -> Option<&Term>
    ensures { option_copied result ≡ argument_at k ts.now }
{
    if k == 0 {
        return None;
    }
    if k > ts.len() as u64 {
        return None;
    }
    ts.get((k - 1) as usize)
}

/// The atom with this term in the place of its part k, which must be there.
pub(crate) fn put_part(atom: Assn, k: u64, term: Boxed<Term>) -> Assn
    ensures { (part : Part) → part_at k (out-Assn atom) ≡ Some part → result ≡ part.with term }
{
    match atom {
        Assn::Own(t, u) => {
            let (t, u) = put_side(k, t, u, term);
            Assn::Own(t, u)
        }
        Assn::Shared(t, u) => {
            let (t, u) = put_side(k, t, u, term);
            Assn::Shared(t, u)
        }
        Assn::Inst(name, ts) => Assn::Inst(name, put_argument(k, ts, term.into_inner())),
        other => {
            forget_term(term);
            other
        }
    }
}

// Two terms with this one in the place of the first, or else of the second.
fn put_side(k: u64, t: Boxed<Term>, u: Boxed<Term>, term: Boxed<Term>) -> (Boxed<Term>, Boxed<Term>)
    ensures first { k ≡ 1 → result ≡ (term, u) }
    ensures second { k ≡ 2 → result ≡ (t, term) }
{
    if k == 1 {
        forget_term(t);
        (term, u)
    } else {
        forget_term(u);
        (t, term)
    }
}

// The arguments with this term in the place of argument k, if that is there.
fn put_argument(k: u64, ts: Items<Term>, term: Term) -> Items<Term>
    ensures { result ≡ argument_put k term ts }
{
    if k == 0 {
        return ts;
    }
    if k > ts.len() as u64 {
        return ts;
    }
    let mut ts = ts;
    ts.set((k - 1) as usize, term);
    ts
}

fn forget_term(term: Boxed<Term>) {
    let _ = term;
}
