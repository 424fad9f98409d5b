//! The parameters of declarations.
ghost use Rattle.std.specs.Prelude.{◌≡◌, OnOk, IfOk};
ghost use Rattle.tht_tree.specs.Walk.Names.{new_params as new_params_code, with_params, param_sorts, param_number as number_of};
ghost use Rattle.tht_tree.specs.Walk.Decls.{all_storable as all_storable_code};
ghost use Rattle.term_walk.specs.Scopes.{scope_of, unbound};
ghost use Rattle.term_walk.specs.Params.{variable_of};

use crate::codes::first;
use crate::scope::{Scope, Shadow};
use crate::terms::{new_name, storable};
use sqlite_items::Items;
use std::alloc::{AllocError, Global};
use tht_tree::decl::Param;
use tht_tree::plain::{Name, Sort};
use tht_tree::walk::{Class, WalkCode};

// A variable of the program, or of the logic.
fn variable(program: bool, sort: Sort) -> Class
    ensures { result ≡ variable_of program sort }
{
    if program {
        Class::Program(sort)
    } else {
        Class::Logic(sort)
    }
}

/// Brings parameters into scope, one after another, as variables of the program or of the logic. The result is N2 where a name
/// is in scope already, or stands twice among them.
pub fn bind_params(
    program: bool,
    params: &[Param],
    scope: &mut Scope,
    bound: &mut Items<Shadow>,
) -> Result<Option<WalkCode>, AllocError>
    ensures ok { IfOk result (λ c. c ≡ new_params_code (variable_of program) (scope_of scope.old) params.now) }
    ensures known { OnOk result (scope_of scope.new ≡ with_params (variable_of program) (scope_of scope.old) params.now) }
    ensures outer { OnOk result (unbound (scope_of scope.new) bound.new ≡ unbound (scope_of scope.old) bound.old) }
{
    let mut code = None;
    for param in params {
        code = first(code, new_name(scope, &param.name));
        scope.bind_in(&param.name, variable(program, param.sort), bound)?;
    }
    Ok(code)
}

/// The sorts of parameters.
pub fn sorts_of(alloc: Global, params: &[Param]) -> Result<Items<Sort>, AllocError>
    ensures { IfOk result (λ ss. ss ≡ param_sorts params.now) }
{
    let mut sorts = Items::new(alloc);
    for param in params {
        sorts.push(param.sort)?;
    }
    Ok(sorts)
}

/// S5: what parameters of commands may hold.
pub fn all_storable(params: &[Param]) -> Option<WalkCode>
    ensures { result ≡ all_storable_code params.now }
{
    let mut code = None;
    for param in params {
        code = first(code, storable(param.sort));
    }
    code
}

/// The number, from 0, of the first parameter with this name; that of the parameters where none has it.
pub fn param_number(name: &Name, params: &[Param]) -> usize
    ensures { result ≡ number_of name.now params.now }
{
    let mut number = 0;
    for param in params {
        if name.as_str() == param.name.as_str() {
            return number;
        }
        number += 1;
    }
    number
}
