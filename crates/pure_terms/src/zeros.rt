// How long the longest name of zeros in a term is.
ghost use Rattle.std.specs.Prelude.{◌≡◌};
ghost use Rattle.tht_tree.specs.declared.term.Term.TheVariants.{Var};
ghost use Rattle.pure_terms.specs.Zeros.{only_zeros, zeros, zeros_in};

use tht_tree::plain::Name;
use tht_tree::term::Term;

/// How long the longest name of zeros in the term is, or 0 where there is none.
pub(crate) fn term_zeros(term: &Term) -> usize
    ensures { result ≡ zeros_in term.now }
{
    match term {
        Term::Num(_) => 0,
        Term::True => 0,
        Term::False => 0,
        Term::Null => 0,
        Term::Nil => 0,
        Term::Unit => 0,
        Term::Var(x) => name_zeros(x),
        Term::Len(a) => term_zeros(a.get()),
        Term::Offset(a, _) => term_zeros(a.get()),
        Term::Mul(a, b) => term_zeros(a.get()).max(term_zeros(b.get())),
        Term::Add(a, b) => term_zeros(a.get()).max(term_zeros(b.get())),
        Term::Sub(a, b) => term_zeros(a.get()).max(term_zeros(b.get())),
        Term::Cons(a, b) => term_zeros(a.get()).max(term_zeros(b.get())),
        Term::Cat(a, b) => term_zeros(a.get()).max(term_zeros(b.get())),
        Term::Eq(a, b) => term_zeros(a.get()).max(term_zeros(b.get())),
        Term::Lt(a, b) => term_zeros(a.get()).max(term_zeros(b.get())),
        Term::Le(a, b) => term_zeros(a.get()).max(term_zeros(b.get())),
        Term::Not(a) => term_zeros(a.get()),
        Term::And(a, b) => term_zeros(a.get()).max(term_zeros(b.get())),
        Term::Or(a, b) => term_zeros(a.get()).max(term_zeros(b.get())),
        Term::Imp(a, b) => term_zeros(a.get()).max(term_zeros(b.get())),
    }
}

// The same of a variable.
pub(crate) fn zeros_of(variable: &Name) -> usize
    ensures { result ≡ zeros_in (Var variable.now) }
{
    name_zeros(variable)
}

// Of how many zeros a name consists, and 0 for a name with another letter.
fn name_zeros(name: &Name) -> usize
    ensures { result ≡ zeros name.now }
{
    let text = name.as_str();
    if are_zeros(text.as_bytes()) {
        text.len()
    } else {
        0
    }
}

fn are_zeros(bytes: &[u8]) -> bool
    ensures { result ≡ only_zeros bytes.now }
{
    for byte in bytes {
        if *byte != b'0' {
            return false;
        }
    }
    true
}
