// Normal forms of terms.
ghost use Rattle.std.specs.Prelude.{◌≡◌, [], ◌∷◌, false, IfOk};
ghost use Rattle.tht_tree.specs.declared.plain.Sort.{Sort};
ghost use Rattle.tht_tree.specs.Terms.{value};
ghost use Rattle.tht_tree.specs.Rules.Scoping.{sort_of, variable_sort};
ghost use Rattle.tht_tree.specs.Syntax.{Names};
ghost use Rattle.tht_tree.specs.Values.{Env};
ghost use Rattle.tht_tree.specs.Normal.Forms.{sum_in as sum_of_form, items_in as items_of_form, place_form_in as place_of_form, formula_in as formula_of_form, negated, name_form as name_form_of, with_part, with_parts, within, items_length, moved, normal as normal_of, normal_term};
ghost use Rattle.tht_tree.specs.Normal.Sums.{atom};
ghost use Rattle.normal_laws.proofs.NormalValues.{Fits};
ghost use Rattle.pure_terms.specs.Making.{has_wide};
ghost use Rattle.pure_terms.specs.Answers.{IsAnswer, IsTermAnswer};
ghost use Rattle.pure_terms.specs.Binary.{combined};
ghost use Rattle.pure_terms.specs.Locals.{locals_of};

use crate::forms::{
    atom_sum, cat_form, cons_form, difference_form, length_form, moved_form, number_form,
    product_form, sum_form,
};
use crate::formulas::{and_formula, at_most, equation, imp_formula, less, not_formula, or_formula};
use crate::sorts::Scope;
use crate::trees::form_term;
use sqlite_items::Items;
use std::alloc::Global;
use tht_tree::form::{Form, Item, NormalEnd, PlaceForm, Sum};
use tht_tree::plain::{Name, Sort};
use tht_tree::state::Local;
use tht_tree::term::Term;

/// The operations on two terms.
#[derive(Clone, Copy)]
pub(crate) enum Op {
    Mul,
    Add,
    Sub,
    Cons,
    Cat,
    Eq,
    Lt,
    Le,
    And,
    Or,
    Imp,
}

/// The normal form of a term, as a term, where the scope tells the sorts of its variables: two terms have one normal form
/// where these are the same tree. It is `Large` where a sum, or a product before it is made, has more than 65,536 monomials,
/// and `Wide` where a number is above 2^128 - 1.
///
/// Where the term has a sort, it and its normal form have one value in every environment that fits the scope.
#[tactic(auto, using(crate::proofs::NormalAnswers::one_value))]
pub fn normal(alloc: Global, scope: &Scope, term: &Term) -> Result<Term, NormalEnd>
    ensures answer { IsTermAnswer result (normal_term (locals_of scope.now) term.now) }
    ensures value { (roots : Names) (env : Env) → Fits roots (locals_of scope.now) env → (s : Sort) → sort_of roots (locals_of scope.now) term.now ≡ Some s →
        IfOk result (λ t. value roots env t ≡ value roots env term.now) }
{
    let form = normal_form(alloc, scope, term)?;
    Ok(form_term(alloc, form)?)
}

/// The normal form of a term.
#[cycle(normal)]
pub(crate) fn normal_form(alloc: Global, scope: &Scope, term: &Term) -> Result<Form, NormalEnd>
    ensures { IsAnswer result (normal_of (locals_of scope.now) term.now) }
{
    match term {
        Term::Num(n) => number_form(alloc, *n),
        Term::True => Ok(Form::Bool(Term::True)),
        Term::False => Ok(Form::Bool(Term::False)),
        Term::Null => Ok(Form::Loc(PlaceForm::Null)),
        Term::Nil => Ok(Form::Seq(Items::new(alloc))),
        Term::Unit => Ok(Form::Unit),
        Term::Var(x) => name_form(alloc, scope, x),
        Term::Len(a) => over_length(alloc, scope, a.get()),
        Term::Offset(a, k) => over_offset(alloc, scope, a.get(), *k),
        Term::Mul(a, b) => over_two(alloc, scope, a.get(), b.get(), Op::Mul),
        Term::Add(a, b) => over_two(alloc, scope, a.get(), b.get(), Op::Add),
        Term::Sub(a, b) => over_two(alloc, scope, a.get(), b.get(), Op::Sub),
        Term::Cons(a, b) => over_two(alloc, scope, a.get(), b.get(), Op::Cons),
        Term::Cat(a, b) => over_two(alloc, scope, a.get(), b.get(), Op::Cat),
        Term::Eq(a, b) => over_two(alloc, scope, a.get(), b.get(), Op::Eq),
        Term::Lt(a, b) => over_two(alloc, scope, a.get(), b.get(), Op::Lt),
        Term::Le(a, b) => over_two(alloc, scope, a.get(), b.get(), Op::Le),
        Term::Not(a) => over_negation(alloc, scope, a.get()),
        Term::And(a, b) => over_two(alloc, scope, a.get(), b.get(), Op::And),
        Term::Or(a, b) => over_two(alloc, scope, a.get(), b.get(), Op::Or),
        Term::Imp(a, b) => over_two(alloc, scope, a.get(), b.get(), Op::Imp),
    }
}

// The length of a sequence.
#[cycle(normal)]
fn over_length(alloc: Global, scope: &Scope, a: &Term) -> Result<Form, NormalEnd>
    ensures { IsAnswer result (with_part (normal_of (locals_of scope.now) a.now) (λ m. within (items_length (items_of_form m)))) }
{
    let form = normal_form(alloc, scope, a)?;
    length_form(alloc, items_in(alloc, form))
}

// The place so many cells further.
#[cycle(normal)]
fn over_offset(alloc: Global, scope: &Scope, a: &Term, by: u8) -> Result<Form, NormalEnd>
    ensures { IsAnswer result (with_part (normal_of (locals_of scope.now) a.now) (λ m. moved by (place_of_form m))) }
{
    let form = normal_form(alloc, scope, a)?;
    moved_form(place_in(form), by)
}

// The negation of a formula.
#[cycle(normal)]
fn over_negation(alloc: Global, scope: &Scope, a: &Term) -> Result<Form, NormalEnd>
    ensures { IsAnswer result (with_part (normal_of (locals_of scope.now) a.now) (λ m. Ok (Form.Bool (negated (formula_of_form m))))) }
{
    let form = normal_form(alloc, scope, a)?;
    negation(alloc, form)
}

// Two terms under an operation.
#[cycle(normal)]
fn over_two(alloc: Global, scope: &Scope, a: &Term, b: &Term, op: Op) -> Result<Form, NormalEnd>
    ensures { IsAnswer result (with_parts (normal_of (locals_of scope.now) a.now) (normal_of (locals_of scope.now) b.now) (combined op)) }
{
    let first = normal_form(alloc, scope, a)?;
    let second = normal_form(alloc, scope, b)?;
    combine(alloc, op, first, second)
}

// The form of two terms under an operation, by their forms.
fn combine(alloc: Global, op: Op, first: Form, second: Form) -> Result<Form, NormalEnd>
    requires { has_wide (sum_of_form first) ≡ false }
    ensures { IsAnswer result (combined op first second) }
{
    match op {
        Op::Mul => product_form(alloc, sum_in(alloc, first), sum_in(alloc, second)),
        Op::Add => sum_form(alloc, sum_in(alloc, first), sum_in(alloc, second)),
        Op::Sub => difference_form(alloc, sum_in(alloc, first), sum_in(alloc, second)),
        Op::Cons => cons_form(alloc, sum_in(alloc, first), items_in(alloc, second)),
        Op::Cat => cat_form(items_in(alloc, first), items_in(alloc, second)),
        Op::Eq => Ok(Form::Bool(equation(alloc, first, second)?)),
        Op::Lt => Ok(Form::Bool(less(alloc, sum_in(alloc, first), sum_in(alloc, second))?)),
        Op::Le => Ok(Form::Bool(at_most(alloc, sum_in(alloc, first), sum_in(alloc, second))?)),
        Op::And => Ok(Form::Bool(and_formula(alloc, formula_in(first), formula_in(second))?)),
        Op::Or => Ok(Form::Bool(or_formula(alloc, formula_in(first), formula_in(second))?)),
        Op::Imp => Ok(Form::Bool(imp_formula(alloc, formula_in(first), formula_in(second))?)),
    }
}

fn negation(alloc: Global, form: Form) -> Result<Form, NormalEnd>
    ensures { IsAnswer result (Ok (Form.Bool (negated (formula_of_form form)))) }
{
    Ok(Form::Bool(not_formula(alloc, formula_in(form))?))
}

// A name is a variable of the scope, and any other is a root's.
fn name_form(alloc: Global, scope: &Scope, name: &Name) -> Result<Form, NormalEnd>
    ensures { IsAnswer result (Ok (name_form_of (variable_sort (locals_of scope.now name.now)) name.now)) }
{
    let sort = variable(scope, name);
    let name = name.copy()?;
    form_of_name(alloc, sort, name)
}

// A variable of this sort, or a root.
fn form_of_name(alloc: Global, sort: Option<Sort>, name: Name) -> Result<Form, NormalEnd>
    ensures { IsAnswer result (Ok (name_form_of sort name)) }
{
    match sort {
        Some(Sort::Nat) => number_of_name(alloc, name),
        Some(Sort::Bool) => Ok(Form::Bool(Term::Var(name))),
        Some(Sort::Loc) => Ok(Form::Loc(PlaceForm::At(name, 0))),
        Some(Sort::Unit) => Ok(Form::Unit),
        Some(Sort::Seq) => all_of(alloc, name),
        None => Ok(Form::Loc(PlaceForm::Root(name))),
    }
}

// The number that a variable stands for.
fn number_of_name(alloc: Global, name: Name) -> Result<Form, NormalEnd>
    ensures { IsAnswer result (Ok (Form.Nat (atom (Term.Var name)))) }
{
    let sum = atom_sum(alloc, Term::Var(name))?;
    Ok(Form::Nat(sum))
}

// The sequence of all the elements of a variable.
fn all_of(alloc: Global, name: Name) -> Result<Form, NormalEnd>
    ensures { IsAnswer result (Ok (Form.Seq (Item.All name ∷ []))) }
{
    let mut items = Items::new(alloc);
    items.push(Item::All(name))?;
    Ok(Form::Seq(items))
}

// The sort of a variable in scope.
fn variable(scope: &Scope, name: &Name) -> Option<Sort>
    ensures { result ≡ variable_sort (locals_of scope.now name.now) }
{
    match scope.get(name.as_str()) {
        Some(Local::Variable(sort)) => Some(*sort),
        Some(Local::Hypothesis) => None,
        None => None,
    }
}

// ---- what a form is as one of a sort, where it has that sort

pub(crate) fn sum_in(alloc: Global, form: Form) -> Sum
    ensures { result ≡ sum_of_form form }
{
    match form {
        Form::Nat(sum) => sum,
        _ => Items::new(alloc),
    }
}

fn items_in(alloc: Global, form: Form) -> Items<Item>
    ensures { result ≡ items_of_form form }
{
    match form {
        Form::Seq(items) => items,
        _ => Items::new(alloc),
    }
}

fn place_in(form: Form) -> PlaceForm
    ensures { result ≡ place_of_form form }
{
    match form {
        Form::Loc(place) => place,
        _ => PlaceForm::Null,
    }
}

fn formula_in(form: Form) -> Term
    ensures { result ≡ formula_of_form form }
{
    match form {
        Form::Bool(formula) => formula,
        _ => Term::False,
    }
}
