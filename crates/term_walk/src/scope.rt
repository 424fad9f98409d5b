//! What each name in scope stands for. An `Err` is want of memory, after which nothing is known of the scope.
ghost use Rattle.std.specs.Prelude.{◌≡◌, OnOk, IfOk, option_copied};
ghost use Rattle.tht_tree.specs.Walk.Names.{no_names, with_name};
ghost use Rattle.term_walk.specs.Scopes.{scope_of, put_back, unbound};

use sqlite_items::Items;
use std::alloc::{AllocError, Global};
use std::collections::BTreeMap;
use tht_tree::plain::Name;
use tht_tree::walk::Class;

/// A name that was bound, and what it stood for before, mostly nothing.
#[derive(Drop)]
pub struct Shadow {
    pub name: Name,
    pub class: Option<Class>,
}

/// What each name in scope stands for.
#[derive(Drop)]
pub struct Scope {
    classes: BTreeMap<String, Class>,
}

impl Scope {
    /// No name in scope.
    #[tactic(auto, unfolding(crate::specs::Scopes::scope_of))]
    pub fn new(alloc: Global) -> Scope
        ensures { scope_of result ≡ no_names }
    {
        Scope {
            classes: BTreeMap::new(alloc),
        }
    }

    /// What the name stands for.
    #[tactic(auto, unfolding(crate::specs::Scopes::scope_of))]
    pub fn get(&self, name: &Name) -> Option<&Class>
        ensures { option_copied result ≡ scope_of self.now name.now }
    {
        self.classes.get(name.as_str())
    }

    /// Brings a name into scope. The result is what it stood for before, mostly nothing: `unbind` takes it back.
    #[tactic(auto, unfolding(crate::specs::Scopes::scope_of))]
    pub fn bind(&mut self, name: &Name, class: Class) -> Result<Option<Class>, AllocError>
        ensures bound { OnOk result (scope_of self.new ≡ with_name (scope_of self.old) name.now class) }
        ensures shadowed { IfOk result (λ was. was ≡ scope_of self.old name.now) }
    {
        let key = name.copy_text()?;
        let shadowed = self.classes.insert(key, class)?;
        Ok(shadowed)
    }

    /// Takes a name out of scope. What it stood for before, as `bind` gave it, comes back.
    pub fn unbind(&mut self, name: &Name, shadowed: Option<Class>) -> Result<(), AllocError>
        ensures { OnOk result (scope_of self.new ≡ put_back (scope_of self.old) name.now shadowed) }
    {
        match shadowed {
            Some(class) => {
                let _ = self.bind(name, class)?;
            }
            None => self.remove(name),
        }
        Ok(())
    }

    fn remove(&mut self, name: &Name)
        ensures { scope_of self.new ≡ put_back (scope_of self.old) name.now None }
    {
        let _ = self.classes.remove(name.as_str());
    }

    /// Brings a name into scope until the names that were bound so are all taken out by `unbind_all`.
    #[tactic(auto, using(crate::proofs::Shadowing::bound_more))]
    pub fn bind_in(
        &mut self,
        name: &Name,
        class: Class,
        bound: &mut Items<Shadow>,
    ) -> Result<(), AllocError>
        ensures known { OnOk result (scope_of self.new ≡ with_name (scope_of self.old) name.now class) }
        ensures outer { OnOk result (unbound (scope_of self.new) bound.new ≡ unbound (scope_of self.old) bound.old) }
    {
        let copy = name.copy()?;
        let shadowed = self.bind(name, class)?;
        bound.push(Shadow {
            name: copy,
            class: shadowed,
        })?;
        Ok(())
    }

    /// Takes these names out of scope, the last first.
    #[tactic(auto, using(crate::proofs::Shadowing::unbound_last))]
    pub fn unbind_all(&mut self, bound: Items<Shadow>) -> Result<(), AllocError>
        ensures { OnOk result (scope_of self.new ≡ unbound (scope_of self.old) bound) }
    {
        let mut bound = bound;
        while let Some(shadow) = bound.pop() {
            let Shadow { name, class } = shadow;
            self.unbind(&name, class)?;
        }
        Ok(())
    }
}
