// The machine over numbered code, a step at a time.
ghost use Rattle.std.specs.Prelude.{◌≡◌, ◌++◌, ◌+◌, ◌≤◌, ℕ, suc, true, Some, map, length, vec_len, vec_capacity, slice_set, IfOk, OnOk, OnErr, IsSome};
ghost use Rattle.tht_tree.specs.Values.{has_sort as sort_is};
ghost use Rattle.tht_logic.specs.Machine.{Mem, Tree};
ghost use Rattle.tht_logic.specs.PlainPrograms.{is_plain_file};
ghost use Rattle.tht_logic.specs.Procedures.{bodies_in};
ghost use Rattle.tht_logic.specs.Runs.{start_of};
ghost use Rattle.code_form.specs.Codes.{bodies_of};
ghost use Rattle.code_form.specs.Branches.{IsOf, IsSameButMoved, at_work, next_place, program_of, standing_of};
ghost use Rattle.code_form.specs.Fronts.{FrontTakes, front_after, front_ask, front_cells};
ghost use Rattle.tagged_interp.specs.Labs.{StandsFor, program, held as held_in, index_of};
ghost use Rattle.tagged_interp.specs.Steps.{SaysTheStep, IsUnchangedUnlessWent, main_value, IsLowestBranch};

use code_form::{Ask, BranchState, Code, Told, lower};
use std::alloc::Global;
use std::marker::Model;
use tht_tree::file::Source1;
use tht_tree::plain::{Memory, Place, Sort, Value};

/// What a step came to.
#[derive(Clone, Copy, Debug, PartialEq, Eq)]
pub enum LabSaid {
    /// The step was made, at this cost.
    Went { cost: u32 },
    /// A fault: at this place there is no cell that the branch may touch.
    Touch { place: Place },
    /// A fault: the cell that is read holds a value of another sort, or a statement in front whose step is not built yet.
    Wrong,
    /// A term does not fit the machine.
    Big,
    /// The step costs more than is left.
    Longer,
    /// The branch has no step: its body has become a value, or there is no such branch.
    Cannot,
}

/// The machine on one file: its code, branch 0, and the cells that the branch has made. Contracts see these three.
pub struct Lab {
    code: Code,
    main: BranchState,
    // By their indexes: none where one was freed.
    cells: Vec<Option<Value>>,
}

impl Model for Lab {
    ghost use Rattle.std.specs.Coded.{codes};
    ghost use Rattle.code_form.specs.contracts.code.Code as numbered;
    ghost use Rattle.tagged_interp.specs.Labs.{LabValue, IsWhole};

    ghost Value = { LabValue };

    ghost coded = { Prim.hlevel (codes, numbered.the_row.coded) };

    ghost view = { λ l. record { code = l.code; main = l.main; cells = l.cells.items } };

    ghost invariant = { λ l. IsWhole l.code l.main l.cells.items };
}

// By hand, so that a crate that lets a machine go does not prove the drop of its code again.
impl Drop for Lab {
    fn drop(self) {
        let Lab { code, main, cells } = self;
        let _ = code;
        let _ = main;
        let _ = cells;
    }
}

impl Lab {
    /// The machine before the first step of a run of the file: branch 0 has main's body, and there is no cell.
    pub fn open(alloc: Global, file: &Source1) -> Result<Lab, Memory>
        requires plain { is_plain_file file.now ≡ true }
        ensures bodies { IfOk result (λ lab. bodies_of lab.code ≡ bodies_in file.now) }
        ensures start { IfOk result (λ lab. (budget : ℕ) → StandsFor lab (start_of file.now budget).mem (start_of file.now budget).tree) }
    {
        let code = lower(alloc, file)?;
        let main = BranchState::first(alloc, &code)?;
        Ok(Lab {
            code,
            main,
            cells: Vec::new(alloc),
        })
    }

    /// The machine's step of the branch with this number, where so much of the budget is left. A step that did not go has changed
    /// nothing, and neither has want of memory.
    pub fn step(&mut self, branch: u32, left: u32) -> Result<LabSaid, Memory>
        ensures says { IfOk result (λ said. SaysTheStep self.old branch left said self.new) }
        ensures keeps { IfOk result (λ said. IsUnchangedUnlessWent self.old said self.new) }
        ensures err { OnErr result (self.new ≡ self.old) }
    {
        if branch != 0 {
            return Ok(LabSaid::Cannot);
        }
        match self.ask() {
            Ask::Value(_) => Ok(LabSaid::Cannot),
            Ask::FrontBig => Ok(LabSaid::Big),
            _ if left == 0 => Ok(LabSaid::Longer),
            Ask::TermBig => Ok(LabSaid::Big),
            Ask::Read { place, sort } => self.read(place, sort),
            Ask::Write { place, value } => self.write(place, value),
            Ask::Alloc { values } => self.alloc(values.as_slice()),
            Ask::Free { place } => self.free(place),
            Ask::Call => self.call(),
            // Their steps are not built yet: they are faults.
            Ask::Publish { .. } => Ok(LabSaid::Wrong),
            Ask::Retract { .. } => Ok(LabSaid::Wrong),
            Ask::Atomic => Ok(LabSaid::Wrong),
            Ask::Fork => Ok(LabSaid::Wrong),
            Ask::BlockEnd => unreachable!(),
            Ask::Waiting { .. } => unreachable!(),
        }
    }

    /// Main's value, where its body has become one.
    pub fn value(&self) -> Option<Value>
        ensures { (m : Mem) (t : Tree) → StandsFor self.now m t → result ≡ main_value t }
    {
        match self.ask() {
            Ask::Value(value) => Some(value),
            _ => None,
        }
    }

    /// The lowest branch whose step is not `Cannot`, where there is one.
    pub fn lowest(&self) -> Option<u32>
        ensures { (m : Mem) (t : Tree) → StandsFor self.now m t → IsLowestBranch (bodies_of self.now.code) m t result }
    {
        match self.value() {
            Some(_) => None,
            None => Some(0),
        }
    }

    // What stands in front of branch 0, which is at work.
    fn ask(&self) -> Ask
        ensures { result ≡ front_ask (program self.now) }
    {
        self.main.ask(&self.code)
    }

    fn read(&mut self, place: Place, sort: Sort) -> Result<LabSaid, Memory>
        requires front { front_ask (program self.old) ≡ Ask.Read place sort }
        ensures says { IfOk result (λ said. (left : ℕ) → SaysTheStep self.old 0 (suc left) said self.new) }
        ensures keeps { IfOk result (λ said. IsUnchangedUnlessWent self.old said self.new) }
        ensures err { OnErr result (self.new ≡ self.old) }
    {
        let Some(value) = held(self.cells.as_slice(), place) else {
            return Ok(LabSaid::Touch { place });
        };
        if !has_sort(sort, value) {
            return Ok(LabSaid::Wrong);
        }
        go_past(&mut self.main, &self.code, Told::Got(value))?;
        Ok(LabSaid::Went { cost: 1 })
    }

    fn write(&mut self, place: Place, value: Value) -> Result<LabSaid, Memory>
        requires front { front_ask (program self.old) ≡ Ask.Write place value }
        ensures says { IfOk result (λ said. (left : ℕ) → SaysTheStep self.old 0 (suc left) said self.new) }
        ensures keeps { IfOk result (λ said. IsUnchangedUnlessWent self.old said self.new) }
        ensures err { OnErr result (self.new ≡ self.old) }
    {
        if held(self.cells.as_slice(), place).is_none() {
            return Ok(LabSaid::Touch { place });
        }
        go_past(&mut self.main, &self.code, Told::Went)?;
        set(&mut self.cells, place, Some(value));
        Ok(LabSaid::Went { cost: 1 })
    }

    fn alloc(&mut self, values: &[Value]) -> Result<LabSaid, Memory>
        requires front { front_ask (program self.old) ≡ Ask.Alloc values.now }
        ensures says { IfOk result (λ said. (left : ℕ) → SaysTheStep self.old 0 (suc left) said self.new) }
        ensures keeps { IfOk result (λ said. IsUnchangedUnlessWent self.old said self.new) }
        ensures err { OnErr result (self.new ≡ self.old) }
    {
        self.cells.reserve(values.len())?;
        go_past(&mut self.main, &self.code, Told::Went)?;
        lay(&mut self.cells, values);
        Ok(LabSaid::Went { cost: 1 })
    }

    fn free(&mut self, place: Place) -> Result<LabSaid, Memory>
        requires front { front_ask (program self.old) ≡ Ask.Free place }
        ensures says { IfOk result (λ said. (left : ℕ) → SaysTheStep self.old 0 (suc left) said self.new) }
        ensures keeps { IfOk result (λ said. IsUnchangedUnlessWent self.old said self.new) }
        ensures err { OnErr result (self.new ≡ self.old) }
    {
        if held(self.cells.as_slice(), place).is_none() {
            return Ok(LabSaid::Touch { place });
        }
        go_past(&mut self.main, &self.code, Told::Went)?;
        set(&mut self.cells, place, None);
        Ok(LabSaid::Went { cost: 1 })
    }

    fn call(&mut self) -> Result<LabSaid, Memory>
        requires front { front_ask (program self.old) ≡ Ask.Call }
        ensures says { IfOk result (λ said. (left : ℕ) → SaysTheStep self.old 0 (suc left) said self.new) }
        ensures keeps { IfOk result (λ said. IsUnchangedUnlessWent self.old said self.new) }
        ensures err { OnErr result (self.new ≡ self.old) }
    {
        go_past(&mut self.main, &self.code, Told::Went)?;
        Ok(LabSaid::Went { cost: 1 })
    }
}

// A branch at work goes past the plain statement in front of it, and is at work again.
fn go_past(main: &mut BranchState, code: &Code, told: Told) -> Result<(), Memory>
    requires of_code { IsOf code.now main.old }
    requires works { standing_of code.now main.old ≡ at_work (program_of code.now main.old) }
    requires takes { FrontTakes (program_of code.now main.old) told }
    requires room { main.old.next_index ≤ 18446744073709551607 }
    ensures of_code { OnOk result (IsOf code.now main.new) }
    ensures works { OnOk result (standing_of code.now main.new ≡ at_work (program_of code.now main.new)) }
    ensures program { OnOk result (program_of code.now main.new ≡ front_after (bodies_of code.now) (next_place main.old) (program_of code.now main.old) told) }
    ensures same { OnOk result (IsSameButMoved main.old (main.old.next_index + front_cells (program_of code.now main.old)) main.new) }
    ensures err { OnErr result (main.new ≡ main.old) }
{
    main.tell(code, told)
}

// What the cell at this place holds, if there is one.
fn held(cells: &[Option<Value>], place: Place) -> Option<Value>
    ensures { result ≡ held_in cells.now place }
{
    match place {
        Place::Cell { arena: 0, index } => match cells.get(index as usize) {
            Some(cell) => *cell,
            None => None,
        },
        _ => None,
    }
}

// Sets the cell at this place, which is there.
fn set(cells: &mut [Option<Value>], place: Place, cell: Option<Value>)
    requires { IsSome (held_in cells.old place) }
    ensures { cells.new ≡ slice_set cells.old (index_of place) cell }
{
    match place {
        Place::Cell { index, .. } => cells[index as usize] = cell,
        _ => unreachable!(),
    }
}

// Adds a cell for each value, from left to right, for which there is room.
fn lay(cells: &mut Vec<Option<Value>>, values: &[Value])
    requires room { vec_len cells.old + length values.now ≤ vec_capacity cells.old }
    ensures { cells.new.items ≡ cells.old.items ++ map Some values.now }
{
    for value in values {
        cells.push_reserved(Some(*value));
    }
}

// Whether the value is of the sort.
fn has_sort(sort: Sort, value: Value) -> bool
    ensures { result ≡ sort_is sort value }
{
    match (sort, value) {
        (Sort::Nat, Value::Nat(_)) => true,
        (Sort::Bool, Value::Bool(_)) => true,
        (Sort::Loc, Value::Loc(_)) => true,
        (Sort::Unit, Value::Unit) => true,
        _ => false,
    }
}
