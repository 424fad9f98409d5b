// The names that are bound where a walk over two assertions stands.
use tht_tree::plain::Name;

/// The names that are bound in the one and the other of two assertions, in pairs, the innermost first.
#[derive(Clone, Copy)]
pub(crate) enum Binders<'a> {
    None,
    Pair(&'a Name, &'a Name, &'a Binders<'a>),
}
