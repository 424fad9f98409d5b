// Files.
use crate::assn::Assn;
use crate::body::Body;
use crate::decl::Decl;
use crate::plain::{Name, Sort, Spot};
use sqlite_items::{Boxed, Items};

/// The command that a run starts with: its postcondition speaks of its result by this name.
#[derive(Drop)]
pub struct Main {
    pub spot: Spot,
    pub result: Name,
    pub sort: Sort,
    pub post: Assn,
    pub body: Boxed<Body>,
}

/// A source file.
pub struct Source1 {
    pub version: u32,
    pub decls: Items<Decl>,
    pub main: Main,
}

// By hand, so that a crate that lets a file go does not prove the drop of its whole tree again.
impl Drop for Source1 {
    fn drop(self) {
        let Source1 {
            version: _,
            decls,
            main,
        } = self;
        let _ = decls;
        let _ = main;
    }
}
