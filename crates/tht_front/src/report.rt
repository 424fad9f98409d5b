// The text of a report.
ghost use Rattle.std.specs.Prelude.{◌≡◌, ◌≤◌, ◌<◌, ◌++◌, ◌∷◌, ◌==◌, length, drop, string_bytes, IfOk, OnOk};
ghost use Rattle.std.specs.List.{prefix_len};
ghost use Rattle.tht_tree.specs.Texts.{end_text, next_place, order_text, place_text, report_text, run_end, run_text, value_text};

use std::alloc::{AllocError, Global};
use tht_tree::plain::{Name, Place, Value};
use tht_tree::run::End;

// How many runs stand on a line of an order.
const RUNS_ON_A_LINE: u8 = 16;

/// A run that has ended: how, what it cost, how many attempts were given up, and the branches in the order of their steps.
#[derive(Debug, Drop)]
pub struct Ran {
    pub end: End,
    pub cost: u32,
    pub given_up: u64,
    pub order: Vec<u32>,
}

/// The report of a run of a file with these roots.
pub fn report(alloc: Global, roots: &[Name], ran: &Ran) -> Result<Vec<u8>, AllocError>
    ensures { IfOk result (λ bytes. bytes.items ≡ report_text roots.now ran.now.end ran.now.cost ran.now.given_up ran.now.order.items) }
{
    let mut text = String::new(alloc);
    write_end(&mut text, roots, ran.end)?;
    let events = ran.order.len();
    let cost = ran.cost;
    let given_up = ran.given_up;
    write!(
        text,
        "events {events}\ncost {cost}\naborts {given_up}\norder\n"
    )?;
    write_order(&mut text, &ran.order)?;
    Ok(text.into_bytes())
}

fn write_end(text: &mut String, roots: &[Name], end: End) -> Result<(), AllocError>
    ensures { OnOk result (string_bytes text.new ≡ string_bytes text.old ++ end_text roots.now end) }
{
    match end {
        End::Done(value) => {
            text.push_str("end done\nresult ")?;
            write_value(text, roots, value)?;
            text.push_str("\n")?;
            Ok(())
        }
        End::Spent(branch) => writeln!(text, "end spent {branch}"),
        End::Big(branch) => writeln!(text, "end big {branch}"),
    }
}

fn write_value(text: &mut String, roots: &[Name], value: Value) -> Result<(), AllocError>
    ensures { OnOk result (string_bytes text.new ≡ string_bytes text.old ++ value_text roots.now value) }
{
    match value {
        Value::Nat(n) => write!(text, "{n}"),
        Value::Bool(true) => text.push_str("true"),
        Value::Bool(false) => text.push_str("false"),
        Value::Loc(place) => write_place(text, roots, place),
        Value::Unit => text.push_str("()"),
    }
}

fn write_place(text: &mut String, roots: &[Name], place: Place) -> Result<(), AllocError>
    ensures { OnOk result (string_bytes text.new ≡ string_bytes text.old ++ place_text roots.now place) }
{
    match place {
        Place::Null => text.push_str("null"),
        Place::Root(root) => match roots.get(root as usize) {
            Some(name) => text.push_str(name.as_str()),
            None => Ok(()),
        },
        Place::Cell { arena, index } => write!(text, "@{arena}.{index}"),
    }
}

// Writes the runs of an order, sixteen on a line.
fn write_order(text: &mut String, order: &[u32]) -> Result<(), AllocError>
    ensures { OnOk result (string_bytes text.new ≡ string_bytes text.old ++ order_text order.now) }
{
    let mut place: u8 = 0;
    let mut rest = order;
    while let [branch, ..] = rest {
        let count = leading(*branch, rest);
        let after = rest_after(rest, count);
        write_run(text, *branch, count)?;
        place = write_run_end(text, place, after.is_empty())?;
        rest = after;
    }
    Ok(())
}

// How many entries at the front are this branch.
fn leading(branch: u32, order: &[u32]) -> usize
    ensures count { result ≡ prefix_len (λ entry. entry == branch) order.now }
    ensures bound { result ≤ length order.now }
{
    order.iter().take_while(|entry| **entry == branch).count()
}

fn rest_after(order: &[u32], count: usize) -> &[u32]
    requires { count ≤ length order.now }
    ensures { result.now ≡ drop count order.now }
{
    &order[count..]
}

fn write_run(text: &mut String, branch: u32, count: usize) -> Result<(), AllocError>
    ensures { OnOk result (string_bytes text.new ≡ string_bytes text.old ++ run_text (branch, count)) }
{
    if count == 1 {
        write!(text, "{branch}")
    } else {
        write!(text, "{branch}*{count}")
    }
}

// Writes what ends a run, and returns how many stand on the line then.
fn write_run_end(text: &mut String, place: u8, is_last: bool) -> Result<u8, AllocError>
    requires { place ≤ 15 }
    ensures text { OnOk result (string_bytes text.new ≡ string_bytes text.old ++ run_end place is_last) }
    ensures place { IfOk result (λ next. next ≡ next_place place) }
{
    let is_full = place == RUNS_ON_A_LINE - 1;
    if is_last || is_full {
        text.push_str("\n")?;
    } else {
        text.push_str(" ")?;
    }
    Ok(if is_full { 0 } else { place + 1 })
}
