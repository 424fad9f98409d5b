// Normal forms of terms, comparisons, and what is read off them.
use crate::plain::{Memory, Name};
use crate::term::Term;
use sqlite_items::Items;
use std::alloc::AllocError;

/// A product of atoms, in the order of terms, each as often as it is a factor. An atom is a variable, `len` of a variable, or
/// a difference.
pub type Product = Items<Term>;

/// A coefficient times a product of atoms.
#[derive(Drop)]
pub struct Monomial {
    pub coefficient: u128,
    pub atoms: Items<Term>,
}

/// A sum of monomials: in a normal form their products strictly ascend, and no coefficient is 0.
pub type Sum = Items<Monomial>;

/// An item of a sequence: an element, or all the elements of a variable.
#[derive(Drop)]
pub enum Item {
    One(Items<Monomial>),
    All(Name),
}

/// A place: `null`, a root, or a variable with the sum of its offsets.
#[derive(Drop)]
pub enum PlaceForm {
    Null,
    Root(Name),
    At(Name, u128),
}

/// A normal form, by the sort of its term: a formula's is a term, which is `true`, `false`, or neither.
#[derive(Drop)]
pub enum Form {
    Nat(Items<Monomial>),
    Seq(Items<Item>),
    Loc(PlaceForm),
    Unit,
    Bool(Term),
}

/// Why a term has no normal form: too many monomials; a number above 2^128 - 1, or a coefficient that leaves `i128`; or there
/// is no memory for it, of which the definitions do not speak.
#[derive(Clone, Copy, Debug, PartialEq, Eq)]
pub enum NormalEnd {
    Large,
    Wide,
    Memory,
}

/// A comparison of two numbers: the left one is at most the right one, or below it where strict.
#[derive(Drop)]
pub struct Comparison {
    pub left: Term,
    pub right: Term,
    pub strict: bool,
}

/// A coefficient times a product, which is a variable, or the constant where it has no factor.
#[derive(Drop)]
pub struct LinearTerm {
    pub coefficient: i128,
    pub atoms: Items<Term>,
}

/// The sum of these is at most 0. Their products strictly ascend.
pub type Inequality = Items<LinearTerm>;

/// Why no term is put in for names: what it would make passes the limits of a formula; or there is no memory for it.
#[derive(Clone, Copy, Debug, PartialEq, Eq)]
pub enum PutEnd {
    Large,
    Memory,
}

impl From<Memory> for NormalEnd {
    ghost use Rattle.std.specs.Prelude.{◌≡◌};
    ghost use Rattle.tht_tree.specs.declared.form.NormalEnd.TheVariants.{Memory};

    ghost from_gives = { λ _ e. e ≡ Memory };

    fn from(_error: Memory) -> NormalEnd {
        NormalEnd::Memory
    }
}

impl From<AllocError> for NormalEnd {
    ghost use Rattle.std.specs.Prelude.{◌≡◌};
    ghost use Rattle.tht_tree.specs.declared.form.NormalEnd.TheVariants.{Memory};

    ghost from_gives = { λ _ e. e ≡ Memory };

    fn from(_error: AllocError) -> NormalEnd {
        NormalEnd::Memory
    }
}

impl From<Memory> for PutEnd {
    ghost use Rattle.std.specs.Prelude.{◌≡◌};
    ghost use Rattle.tht_tree.specs.declared.form.PutEnd.TheVariants.{Memory};

    ghost from_gives = { λ _ e. e ≡ Memory };

    fn from(_error: Memory) -> PutEnd {
        PutEnd::Memory
    }
}

impl From<AllocError> for PutEnd {
    ghost use Rattle.std.specs.Prelude.{◌≡◌};
    ghost use Rattle.tht_tree.specs.declared.form.PutEnd.TheVariants.{Memory};

    ghost from_gives = { λ _ e. e ≡ Memory };

    fn from(_error: AllocError) -> PutEnd {
        PutEnd::Memory
    }
}
