// Lists of one to eight: what an `alloc` puts into the cells that it makes.
ghost use Rattle.std.specs.Prelude.{◌≡◌, ◌+◌, ◌<◌, ◌≤◌, [], ◌∷◌, ◌++◌, length, IfOk, OnOk, OnErr};
ghost use Rattle.code_form.specs.Eval.{all_of};

use crate::eval::eval;
use crate::expr::Expr;
use sqlite_items::Items;
use std::marker::Model;
use tht_tree::plain::Value;

/// One to eight expressions, which contracts see as a list.
#[derive(Drop)]
pub struct Row {
    exprs: Items<Expr>,
}

impl Model for Row {
    ghost use Rattle.std.specs.Prelude.{List, ◌≤◌, length};
    ghost use Rattle.std.specs.Coded.{coded_list};
    ghost use Rattle.code_form.specs.declared.expr.Expr.{Expr};
    ghost use Rattle.code_form.specs.contracts.expr.Expr as expr;

    ghost Value = { List Expr };

    ghost coded = { coded_list expr.the_row.coded };

    ghost view = { λ r. r.exprs };

    ghost invariant = { λ r. (1 ≤ length r.exprs) × (length r.exprs ≤ 8) };
}

impl Row {
    /// These expressions, of which there are one to eight.
    pub fn new(exprs: Items<Expr>) -> Row
        requires at_least_one { 1 ≤ length exprs }
        requires at_most_eight { length exprs ≤ 8 }
        ensures { result ≡ exprs }
    {
        Row { exprs }
    }

    pub fn as_slice(&self) -> &[Expr]
        ensures exprs { result.now ≡ self.now }
        ensures at_least_one { 1 ≤ length self.now }
        ensures at_most_eight { length self.now ≤ 8 }
    {
        self.exprs.as_slice()
    }
}

/// One to eight values, which contracts see as a list. It takes no memory.
#[derive(Drop)]
pub struct Values {
    items: [Value; 8],
    len: usize,
}

impl Model for Values {
    ghost use Rattle.std.specs.Prelude.{List, ◌≤◌, length, take};
    ghost use Rattle.tht_tree.specs.declared.plain.Value.{Value as ValueOf};

    ghost Value = { List ValueOf };

    ghost view = { λ v. take v.len v.items };

    ghost invariant = { λ v. (1 ≤ v.len) × (v.len ≤ 8) };
}

impl Values {
    pub fn as_slice(&self) -> &[Value]
        ensures values { result.now ≡ self.now }
        ensures at_least_one { 1 ≤ length self.now }
        ensures at_most_eight { length self.now ≤ 8 }
    {
        &self.items[..self.len]
    }
}

/// The values of a row of expressions, where each has one.
#[tactic(auto, using(crate::proofs::Rows::in_front_more, crate::proofs::Rows::in_front_last, std::proofs::lemmas::List::take_more_set))]
pub fn values_of(row: &Row, env: &[Value]) -> Option<Values>
    ensures { result ≡ all_of env.now row.now }
{
    let mut items = [Value::Unit; 8];
    let mut len = 0;
    for e in row.as_slice() {
        items[len] = eval(e, env)?;
        len += 1;
    }
    Some(Values { items, len })
}
