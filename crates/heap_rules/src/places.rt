// Where the predicates and the procs of a file stand.
ghost use Rattle.heap_rules.specs.PredicatePlaces.{ArePlaces, ArePlaces-prop, AreProcs, AreProcs-prop};

use std::collections::BTreeMap;
use tht_tree::decl::Decl;

/// For each name the place of the last declaration with it, of one kind.
pub(crate) type Places = BTreeMap<String, usize>;

/// The predicates and the procs of a file by their names.
#[derive(Drop)]
pub struct Predicates<'a> {
    pub(crate) decls: &'a [Decl],
    pub(crate) places: Places,
    pub(crate) procs: Places,
    ghost placed: { ArePlaces places decls.now } by { ArePlaces-prop places decls.now },
    ghost procs_placed: { AreProcs procs decls.now } by { AreProcs-prop procs decls.now },
}
