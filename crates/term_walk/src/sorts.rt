//! The sort of a term.
ghost use Rattle.std.specs.Prelude.{◌≡◌, ◌⊎◌, IfOk, IfErr, OnOk, [], ◌∷◌, option_copied};
ghost use Rattle.tht_tree.specs.Walk.Sorts.{sort_of as the_sort, of_sort, part as part_end, parts, name_sort, logic_only as logic_end};
ghost use Rattle.tht_tree.specs.declared.plain.Sort.TheVariants.{Bool, Seq};
ghost use Rattle.term_walk.specs.Scopes.{scope_of};

use crate::scope::Scope;
use tht_tree::plain::{Name, Sort};
use tht_tree::term::Term;
use tht_tree::walk::{Class, SortEnd};

/// The sort of a term, which may be one of the program, or the first in its text why it has none.
#[cycle(sort)]
#[tactic(auto, unfolding(tht_tree::specs::Walk::Sorts::sort_of))]
pub fn sort_of(scope: &Scope, term: &Term, program: bool) -> Result<Sort, SortEnd>
    ensures ok { IfOk result (λ s. the_sort (scope_of scope.now) program term.now ≡ Ok s) }
    ensures err { IfErr result (λ e. (e ≡ SortEnd.Memory) ⊎ (the_sort (scope_of scope.now) program term.now ≡ Err e)) }
{
    match term {
        Term::Num(_) => Ok(Sort::Nat),
        Term::True => Ok(Sort::Bool),
        Term::False => Ok(Sort::Bool),
        Term::Null => Ok(Sort::Loc),
        Term::Nil => logic_only(Sort::Seq, program),
        Term::Unit => Ok(Sort::Unit),
        Term::Var(x) => sort_of_name(x, scope.get(x), program),
        Term::Len(a) => over_one(scope, a.get(), Sort::Seq, Sort::Nat, program),
        Term::Offset(a, _) => over_one(scope, a.get(), Sort::Loc, Sort::Loc, program),
        Term::Mul(a, b) => over_two(scope, a.get(), b.get(), Sort::Nat, Sort::Nat, program),
        Term::Add(a, b) => over_two(scope, a.get(), b.get(), Sort::Nat, Sort::Nat, program),
        Term::Sub(a, b) => over_two(scope, a.get(), b.get(), Sort::Nat, Sort::Nat, program),
        Term::Cons(a, b) => sequence(scope, a.get(), b.get(), Sort::Nat, program),
        Term::Cat(a, b) => sequence(scope, a.get(), b.get(), Sort::Seq, program),
        Term::Eq(a, b) => equation(scope, a.get(), b.get(), program),
        Term::Lt(a, b) => over_two(scope, a.get(), b.get(), Sort::Nat, Sort::Bool, program),
        Term::Le(a, b) => over_two(scope, a.get(), b.get(), Sort::Nat, Sort::Bool, program),
        Term::Not(a) => over_one(scope, a.get(), Sort::Bool, Sort::Bool, program),
        Term::And(a, b) => over_two(scope, a.get(), b.get(), Sort::Bool, Sort::Bool, program),
        Term::Or(a, b) => over_two(scope, a.get(), b.get(), Sort::Bool, Sort::Bool, program),
        Term::Imp(a, b) => over_two(scope, a.get(), b.get(), Sort::Bool, Sort::Bool, program),
    }
}

// A term of this sort, whose one part must have the wanted one.
#[cycle(sort)]
fn over_one(
    scope: &Scope,
    a: &Term,
    wanted: Sort,
    sort: Sort,
    program: bool,
) -> Result<Sort, SortEnd>
    ensures ok { IfOk result (λ s. of_sort sort (part_end wanted (the_sort (scope_of scope.now) program a.now) ∷ []) ≡ Ok s) }
    ensures err { IfErr result (λ e. (e ≡ SortEnd.Memory) ⊎ (of_sort sort (part_end wanted (the_sort (scope_of scope.now) program a.now) ∷ []) ≡ Err e)) }
{
    part(scope, a, wanted, program)?;
    Ok(sort)
}

// A term of this sort, whose two parts must have the wanted one.
#[cycle(sort)]
fn over_two(
    scope: &Scope,
    a: &Term,
    b: &Term,
    wanted: Sort,
    sort: Sort,
    program: bool,
) -> Result<Sort, SortEnd>
    ensures ok { IfOk result (λ s. of_sort sort (part_end wanted (the_sort (scope_of scope.now) program a.now) ∷ part_end wanted (the_sort (scope_of scope.now) program b.now) ∷ []) ≡ Ok s) }
    ensures err { IfErr result (λ e. (e ≡ SortEnd.Memory) ⊎ (of_sort sort (part_end wanted (the_sort (scope_of scope.now) program a.now) ∷ part_end wanted (the_sort (scope_of scope.now) program b.now) ∷ []) ≡ Err e)) }
{
    part(scope, a, wanted, program)?;
    part(scope, b, wanted, program)?;
    Ok(sort)
}

// A sequence, made from a part that must have the wanted sort, and a sequence.
#[cycle(sort)]
fn sequence(scope: &Scope, a: &Term, b: &Term, wanted: Sort, program: bool) -> Result<Sort, SortEnd>
    ensures ok { IfOk result (λ s. of_sort Seq (part_end wanted (the_sort (scope_of scope.now) program a.now) ∷ part_end Seq (the_sort (scope_of scope.now) program b.now) ∷ logic_end program ∷ []) ≡ Ok s) }
    ensures err { IfErr result (λ e. (e ≡ SortEnd.Memory) ⊎ (of_sort Seq (part_end wanted (the_sort (scope_of scope.now) program a.now) ∷ part_end Seq (the_sort (scope_of scope.now) program b.now) ∷ logic_end program ∷ []) ≡ Err e)) }
{
    part(scope, a, wanted, program)?;
    part(scope, b, Sort::Seq, program)?;
    logic_only(Sort::Seq, program)
}

// An equation between two terms of one sort.
#[cycle(sort)]
fn equation(scope: &Scope, a: &Term, b: &Term, program: bool) -> Result<Sort, SortEnd>
    ensures ok { IfOk result (λ s. of_sort Bool (parts (the_sort (scope_of scope.now) program a.now) (the_sort (scope_of scope.now) program b.now) ∷ []) ≡ Ok s) }
    ensures err { IfErr result (λ e. (e ≡ SortEnd.Memory) ⊎ (of_sort Bool (parts (the_sort (scope_of scope.now) program a.now) (the_sort (scope_of scope.now) program b.now) ∷ []) ≡ Err e)) }
{
    let wanted = sort_of(scope, a, program)?;
    part(scope, b, wanted, program)?;
    Ok(Sort::Bool)
}

// A part that must have this sort.
#[cycle(sort)]
fn part(scope: &Scope, term: &Term, wanted: Sort, program: bool) -> Result<(), SortEnd>
    ensures ok { OnOk result (part_end wanted (the_sort (scope_of scope.now) program term.now) ≡ None) }
    ensures err { IfErr result (λ e. (e ≡ SortEnd.Memory) ⊎ (part_end wanted (the_sort (scope_of scope.now) program term.now) ≡ Some e)) }
{
    let found = sort_of(scope, term, program)?;
    if wanted == found {
        Ok(())
    } else {
        Err(SortEnd::Clash { wanted, found })
    }
}

// A term of the logic alone, with this sort.
fn logic_only(sort: Sort, program: bool) -> Result<Sort, SortEnd>
    ensures ok { IfOk result (λ s. of_sort sort (logic_end program ∷ []) ≡ Ok s) }
    ensures err { IfErr result (λ e. of_sort sort (logic_end program ∷ []) ≡ Err e) }
{
    if program {
        Err(SortEnd::LogicOnly)
    } else {
        Ok(sort)
    }
}

fn sort_of_name(name: &Name, class: Option<&Class>, program: bool) -> Result<Sort, SortEnd>
    ensures ok { IfOk result (λ s. name_sort program name.now (option_copied class.entry) ≡ Ok s) }
    ensures err { IfErr result (λ e. (e ≡ SortEnd.Memory) ⊎ (name_sort program name.now (option_copied class.entry) ≡ Err e)) }
{
    match class {
        Some(Class::Root) => Ok(Sort::Loc),
        Some(Class::Program(sort)) => logic_only(*sort, program && *sort == Sort::Seq),
        Some(Class::Logic(sort)) => logic_only(*sort, program),
        _ => Err(unknown(name)),
    }
}

fn unknown(name: &Name) -> SortEnd
    ensures { (result ≡ SortEnd.Memory) ⊎ (result ≡ SortEnd.Unknown name.now) }
{
    match name.copy() {
        Ok(name) => SortEnd::Unknown { name },
        Err(_) => SortEnd::Memory,
    }
}
