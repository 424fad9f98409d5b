// One branch of a run.
ghost use Rattle.std.specs.Prelude.{◌≡◌, ◌+◌, ◌≤◌, ◌<◌, Some, IfOk, OnOk, OnErr, []};
ghost use Rattle.code_form.specs.declared.code.Code.{Code as CodeOf};
ghost use Rattle.code_form.specs.Codes.{means_of, bodies_of};
ghost use Rattle.code_form.specs.Fronts.{FrontTakes, front_after, front_cells, block_rest, fork_rest, fork_left, fork_right};
ghost use Rattle.code_form.specs.Stacks.{env_of, stack_prog, IsBlockFrom};
ghost use Rattle.code_form.specs.Branches.{program_of, standing_of, IsOf, ask_of, at_work, inside, waiting, is_inside, front_in, Takes, after, new_cells, next_place, IsSameButMoved, IsNew, CanFork, IsJoined, x_of, y_of, IsWaiting, with_children, with_numbers};

use crate::ask::{Ask, ask_in_block};
use crate::code::Code;
use crate::under_way::Stack;
use crate::ways::{Joined, Told};
use std::alloc::Global;
use std::marker::Model;
use tht_tree::plain::{Memory, Place, Value};

/// Where a branch stands: on its way through its body, inside an atomic block, or waiting for the values of two children, which
/// have these numbers. Inside a block its body stands at the block, and where it waits at the fork.
#[derive(Clone, Copy, Debug, PartialEq, Eq)]
pub(crate) enum Mode {
    AtWork,
    InBlock,
    Waiting(u32, u32),
}

/// One branch of a run, read with the code from which it was made: its number, its step count, the next index of its arena, and
/// what it stands for. It holds no heap.
#[derive(Drop)]
pub struct BranchState {
    number: u32,
    steps: u64,
    next_index: u64,
    mode: Mode,
    body: Stack,
    // The body of the block that it is inside of.
    block: Stack,
}

impl Model for BranchState {
    ghost use Rattle.code_form.specs.BranchValue.{BranchValue};

    ghost Value = { BranchValue };

    ghost view = { λ s. record {
      number = s.number;
      steps = s.steps;
      next_index = s.next_index;
      mode = s.mode;
      body = s.body;
      block = s.block;
    } };
}

impl BranchState {
    /// Branch 0 at the start: main's body.
    pub fn first(alloc: Global, code: &Code) -> Result<BranchState, Memory>
        ensures of_code { IfOk result (λ s. IsOf code.now s) }
        ensures program { IfOk result (λ s. program_of code.now s ≡ means_of code.now code.now.main []) }
        ensures standing { IfOk result (λ s. standing_of code.now s ≡ at_work (program_of code.now s)) }
        ensures number { IfOk result (λ s. s.number ≡ 0) }
        ensures steps { IfOk result (λ s. s.steps ≡ 0) }
        ensures next_index { IfOk result (λ s. s.next_index ≡ 0) }
    {
        begun(alloc, code, code.main, &[])
    }

    /// An equal branch.
    pub fn copy(&self) -> Result<BranchState, Memory>
        ensures { IfOk result (λ s. s ≡ self.now) }
    {
        let body = self.body.copy()?;
        let block = self.block.copy()?;
        Ok(BranchState {
            number: self.number,
            steps: self.steps,
            next_index: self.next_index,
            mode: self.mode,
            body,
            block,
        })
    }

    pub fn number(&self) -> u32
        ensures { result ≡ self.now.number }
    {
        self.number
    }

    /// How many steps of the branch were counted.
    pub fn steps(&self) -> u64
        ensures { result ≡ self.now.steps }
    {
        self.steps
    }

    /// The index of the next cell that the branch makes.
    pub fn next_index(&self) -> u64
        ensures { result ≡ self.now.next_index }
    {
        self.next_index
    }

    /// Whether the branch is inside an atomic block.
    pub fn is_inside(&self) -> bool
        ensures { (code : CodeOf) → result ≡ is_inside (standing_of code self.now) }
    {
        match self.mode {
            Mode::AtWork => false,
            Mode::InBlock => true,
            Mode::Waiting(_, _) => false,
        }
    }

    /// Counts a step more, of which there were fewer than 2^64 - 1.
    pub fn count_step(&mut self)
        requires { self.old.steps < 18446744073709551615 }
        ensures { self.new ≡ record self.old { steps = self.old.steps + 1 } }
    {
        self.steps += 1;
    }

    /// What stands in front, with the values of the statement's terms. It takes no memory.
    pub fn ask(&self, code: &Code) -> Ask
        requires of_code { IsOf code.now self.now }
        ensures { result ≡ ask_of (standing_of code.now self.now) }
    {
        match self.mode {
            Mode::AtWork => self.body.ask(code),
            Mode::InBlock => ask_in_block(self.block.ask(code)),
            Mode::Waiting(left, right) => Ask::Waiting { left, right },
        }
    }

    /// Goes past the statement in front, which was carried out. An `alloc` binds the next place of the branch's arena and
    /// moves its index, which is at most 2^64 - 9. An atomic block goes into its body, and its end goes on behind it. A branch that
    /// waits goes on with the values of its children. After want of memory the branch is as it was.
    pub fn tell(&mut self, code: &Code, told: Told) -> Result<(), Memory>
        requires of_code { IsOf code.now self.old }
        requires takes { Takes (standing_of code.now self.old) told }
        requires room { self.old.next_index ≤ 18446744073709551607 }
        ensures of_code { OnOk result (IsOf code.now self.new) }
        ensures standing { OnOk result (standing_of code.now self.new ≡ after (bodies_of code.now) (next_place self.old) (standing_of code.now self.old) told) }
        ensures same { OnOk result (IsSameButMoved self.old (self.old.next_index + new_cells (standing_of code.now self.old)) self.new) }
        ensures err { OnErr result (self.new ≡ self.old) }
    {
        match self.mode {
            Mode::AtWork => match self.body.block(code) {
                Some(first) => self.enter_block(code, first),
                None => self.pass(code, told),
            },
            Mode::InBlock => match self.block.ended() {
                Some(v) => self.leave_block(code, v),
                None => self.pass_in_block(code, told),
            },
            Mode::Waiting(_, _) => self.join(code, told),
        }
    }

    /// The two children of the fork in front, and this branch, which waits for them. All of them have the number 0 of a child until
    /// they are numbered.
    pub fn fork(&self, code: &Code) -> Result<Forked, Memory>
        requires of_code { IsOf code.now self.now }
        requires forks { CanFork (standing_of code.now self.now) }
        ensures parent_of_code { IfOk result (λ f. IsOf code.now f.parent) }
        ensures left_of_code { IfOk result (λ f. IsOf code.now f.left) }
        ensures right_of_code { IfOk result (λ f. IsOf code.now f.right) }
        ensures parent { IfOk result (λ f. standing_of code.now f.parent ≡ waiting 0 0 (fork_rest (front_in (standing_of code.now self.now)))) }
        ensures left { IfOk result (λ f. standing_of code.now f.left ≡ at_work (fork_left (front_in (standing_of code.now self.now)))) }
        ensures right { IfOk result (λ f. standing_of code.now f.right ≡ at_work (fork_right (front_in (standing_of code.now self.now)))) }
        ensures same { IfOk result (λ f. IsSameButMoved self.now self.now.next_index f.parent) }
        ensures left_new { IfOk result (λ f. IsNew f.left) }
        ensures right_new { IfOk result (λ f. IsNew f.right) }
    {
        let sides = self.body.sides(code);
        let parent = self.waits(0, 0)?;
        let left = begun(self.body.alloc(), code, sides.left, self.body.env())?;
        let right = begun(self.body.alloc(), code, sides.right, self.body.env())?;
        Ok(Forked {
            parent,
            left,
            right,
        })
    }

    // This branch where it waits for children with these numbers.
    fn waits(&self, left: u32, right: u32) -> Result<BranchState, Memory>
        ensures { IfOk result (λ s. s ≡ record self.now { mode = Mode.Waiting left right }) }
    {
        let mut parent = self.copy()?;
        parent.mode = Mode::Waiting(left, right);
        Ok(parent)
    }

    // The place of the next cell that the branch makes.
    fn next_place(&self) -> Place
        ensures { result ≡ next_place self.now }
    {
        Place::Cell {
            arena: self.number,
            index: self.next_index,
        }
    }

    // Past the plain statement in front.
    fn pass(&mut self, code: &Code, told: Told) -> Result<(), Memory>
        requires of_code { IsOf code.now self.old }
        requires mode { self.old.mode ≡ Mode.AtWork }
        requires takes { FrontTakes (stack_prog code.now self.old.body) told }
        requires room { self.old.next_index ≤ 18446744073709551607 }
        ensures of_code { OnOk result (IsOf code.now self.new) }
        ensures standing { OnOk result (standing_of code.now self.new ≡ at_work (front_after (bodies_of code.now) (next_place self.old) (stack_prog code.now self.old.body) told)) }
        ensures same { OnOk result (IsSameButMoved self.old (self.old.next_index + front_cells (stack_prog code.now self.old.body)) self.new) }
        ensures err { OnErr result (self.new ≡ self.old) }
    {
        let place = self.next_place();
        let cells = self.body.tell(code, told, place)?;
        self.next_index += cells as u64;
        Ok(())
    }

    // The same inside of a block.
    fn pass_in_block(&mut self, code: &Code, told: Told) -> Result<(), Memory>
        requires of_code { IsOf code.now self.old }
        requires mode { self.old.mode ≡ Mode.InBlock }
        requires takes { FrontTakes (stack_prog code.now self.old.block) told }
        requires room { self.old.next_index ≤ 18446744073709551607 }
        ensures of_code { OnOk result (IsOf code.now self.new) }
        ensures standing { OnOk result (standing_of code.now self.new ≡ inside (front_after (bodies_of code.now) (next_place self.old) (stack_prog code.now self.old.block) told) (block_rest (stack_prog code.now self.old.body))) }
        ensures same { OnOk result (IsSameButMoved self.old (self.old.next_index + front_cells (stack_prog code.now self.old.block)) self.new) }
        ensures err { OnErr result (self.new ≡ self.old) }
    {
        let place = self.next_place();
        let cells = self.block.tell(code, told, place)?;
        self.next_index += cells as u64;
        Ok(())
    }

    // Into the atomic block in front, which begins with this node.
    fn enter_block(&mut self, code: &Code, first: usize) -> Result<(), Memory>
        requires of_code { IsOf code.now self.old }
        requires from { IsBlockFrom code.now self.old.body (Some first) }
        ensures of_code { OnOk result (IsOf code.now self.new) }
        ensures standing { OnOk result (standing_of code.now self.new ≡ inside (means_of code.now first (env_of self.old.body)) (block_rest (stack_prog code.now self.old.body))) }
        ensures same { OnOk result (IsSameButMoved self.old self.old.next_index self.new) }
        ensures err { OnErr result (self.new ≡ self.old) }
    {
        self.block.begin(code, first, self.body.env())?;
        self.mode = Mode::InBlock;
        Ok(())
    }

    // Out of the block, whose body has this value.
    fn leave_block(&mut self, code: &Code, v: Value) -> Result<(), Memory>
        requires of_code { IsOf code.now self.old }
        requires mode { self.old.mode ≡ Mode.InBlock }
        ensures of_code { OnOk result (IsOf code.now self.new) }
        ensures standing { OnOk result (standing_of code.now self.new ≡ at_work (block_rest (stack_prog code.now self.old.body) v)) }
        ensures same { OnOk result (IsSameButMoved self.old self.old.next_index self.new) }
        ensures err { OnErr result (self.new ≡ self.old) }
    {
        self.body.leave(code, v)?;
        self.mode = Mode::AtWork;
        Ok(())
    }

    // On with the values of the children.
    fn join(&mut self, code: &Code, told: Told) -> Result<(), Memory>
        requires of_code { IsOf code.now self.old }
        requires mode { IsWaiting self.old.mode }
        requires takes { IsJoined told }
        ensures of_code { OnOk result (IsOf code.now self.new) }
        ensures standing { OnOk result (standing_of code.now self.new ≡ at_work (fork_rest (stack_prog code.now self.old.body) (x_of told) (y_of told))) }
        ensures same { OnOk result (IsSameButMoved self.old self.old.next_index self.new) }
        ensures err { OnErr result (self.new ≡ self.old) }
    {
        let Told::Joined(ends) = told else {
            unreachable!()
        };
        self.body.join(code, ends)?;
        self.mode = Mode::AtWork;
        Ok(())
    }
}

// A branch with the number 0, which begins at a node, where the variables have these values.
fn begun(alloc: Global, code: &Code, from: usize, env: &[Value]) -> Result<BranchState, Memory>
    ensures of_code { IfOk result (λ s. IsOf code.now s) }
    ensures program { IfOk result (λ s. program_of code.now s ≡ means_of code.now from env.now) }
    ensures standing { IfOk result (λ s. standing_of code.now s ≡ at_work (program_of code.now s)) }
    ensures new { IfOk result (λ s. IsNew s) }
{
    let mut body = Stack::new(alloc);
    body.begin(code, from, env)?;
    Ok(BranchState {
        number: 0,
        steps: 0,
        next_index: 0,
        mode: Mode::AtWork,
        body,
        block: Stack::new(alloc),
    })
}

/// A branch that waits, and its two children.
#[derive(Drop)]
pub struct Forked {
    pub parent: BranchState,
    pub left: BranchState,
    pub right: BranchState,
}

impl Forked {
    /// The same with these numbers of the children.
    pub fn number(self, left: u32, right: u32) -> Forked
        ensures parent { result.parent ≡ with_children left right self.parent }
        ensures left { result.left ≡ record self.left { number = left } }
        ensures right { result.right ≡ record self.right { number = right } }
        ensures parent_of_code { (code : CodeOf) → IsOf code self.parent → IsOf code result.parent }
        ensures left_of_code { (code : CodeOf) → IsOf code self.left → IsOf code result.left }
        ensures right_of_code { (code : CodeOf) → IsOf code self.right → IsOf code result.right }
        ensures standing { (code : CodeOf) → standing_of code result.parent ≡ with_numbers left right (standing_of code self.parent) }
    {
        let Forked {
            parent,
            left: one,
            right: other,
        } = self;
        Forked {
            parent: parent_of(parent, left, right),
            left: numbered(one, left),
            right: numbered(other, right),
        }
    }
}

fn numbered(branch: BranchState, number: u32) -> BranchState
    ensures { result ≡ record branch { number = number } }
{
    let mut numbered = branch;
    numbered.number = number;
    numbered
}

// A branch whose children, if it waits for some, have these numbers.
fn parent_of(branch: BranchState, left: u32, right: u32) -> BranchState
    ensures { result ≡ with_children left right branch }
{
    let mut parent = branch;
    if let Mode::Waiting(_, _) = parent.mode {
        parent.mode = Mode::Waiting(left, right);
    }
    parent
}
