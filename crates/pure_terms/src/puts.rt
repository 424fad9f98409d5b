// What is put in for names inside binders.
use crate::subst::Subst;
use tht_tree::plain::Name;

/// What is put in for names where a walk stands inside binders: new names for those that are bound there, the innermost first, and
/// then the terms of a `Subst`.
#[derive(Clone, Copy)]
pub enum Inside<'a> {
    /// Inside no binder.
    Terms(&'a Subst),
    /// Inside a binder of the first name, for which the second one is put in.
    Renamed(&'a Name, &'a Name, &'a Inside<'a>),
}
