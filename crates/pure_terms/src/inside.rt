// What is put in for names inside binders.
ghost use Rattle.std.specs.Prelude.{◌≡◌};
ghost use Rattle.pure_terms.specs.Inside.{puts_of};

use crate::puts::Inside;
use crate::subst::Subst;

/// What is put in inside no binder: these terms.
pub fn outside(by: &Subst) -> Inside<'_>
    ensures { puts_of result ≡ by.now }
{
    Inside::Terms(by)
}
