// The session, and one step of it.
ghost use Rattle.std.specs.Prelude.{◌≡◌, slice_set};
ghost use Rattle.rules.specs.Ranges.{at};
ghost use Rattle.entries.specs.declared.Step.TheVariants.{Start, Allocate};
ghost use Rattle.steps.specs.Session.{before, operand_of, root_plus, perform, step};
ghost use Rattle.steps.specs.Told.{stepped};

use crate::memory::Memory;
use answers::Refusal;
use entries::{Operand, Step};
use std::marker::Model;

// A slot past the end is none: no step that is allowed has one, so this only spares a precondition. (After a slice's
// `get_mut` a proof would know the length alone.)
fn put(cells: &mut [u32], x: u32, v: u32)
    ensures { cells.new ≡ slice_set cells.old x v }
{
    let slot = x as usize;
    if slot < cells.len() {
        cells[slot] = v;
    }
}

// Whether a start was accepted, the memory that the last accepted one lent, root cells and hint words. Any of these may
// stand here, before a start too, and damaged memory too: each step is what the definition makes of it.
#[derive(Clone, Drop)]
pub struct Session {
    pub begun: bool,
    pub memory: Memory,
    pub roots: [u32; 16],
    pub hints: [u32; 16],
}

impl Model for Session {
    ghost use Rattle.steps.specs.Session.{Session as State};

    ghost Value = { State };

    ghost use Rattle.steps.specs.Begun.{session};

    ghost view = { session };
}

impl Session {
    #[tactic(auto, unfolding(crate::specs::Session::before))]
    pub fn new() -> Self
        ensures { result ≡ before }
    {
        Session {
            begun: false,
            memory: Memory::new(),
            roots: [0; 16],
            hints: [0; 16],
        }
    }

    // One step: refusal 9 comes first, but for a start after 1.
    pub fn step(&mut self, asked: Step) -> Result<u32, Refusal>
        ensures { stepped result self.new ≡ step self.old asked }
    {
        if !asked.is_allowed(self.begun) {
            return Err(Refusal::BadEntry);
        }
        self.perform(asked)
    }

    // Each case has fields of its own, so it is a match and no table of calls.
    fn perform(&mut self, asked: Step) -> Result<u32, Refusal>
        ensures { stepped result self.new ≡ perform self.old asked }
    {
        match asked {
            Step::Start { page, pages } => self.start(page, pages),
            Step::Allocate { x, d, p } => self.allocate(x, d, p),
            Step::Store { x, i, operand } => {
                let address = self.root(x);
                let value = self.operand(operand);
                self.memory.store(address, i, value)
            }
            Step::Load { x, i } => self.memory.load(self.root(x), i),
            Step::Hint { x, y, v } => {
                let word = self.root_plus(y, v);
                put(&mut self.hints, x, word);
                Ok(word)
            }
            Step::Clear { x } => {
                put(&mut self.roots, x, 0);
                Ok(0)
            }
            Step::Collect => self.memory.collect(&mut self.roots, &self.hints),
            Step::LookUp { x, v } => self.memory.look_up(self.root_plus(x, v)),
            Step::Bad => Err(Refusal::BadEntry),
        }
    }

    // Only an accepted start clears roots and hints.
    fn start(&mut self, page: u32, pages: u32) -> Result<u32, Refusal>
        ensures { stepped result self.new ≡ perform self.old (Start page pages) }
    {
        self.memory.start(page, pages)?;
        self.begun = true;
        self.roots = [0; 16];
        self.hints = [0; 16];
        Ok(0)
    }

    // The address of a new object goes into root x.
    fn allocate(&mut self, x: u32, d: u32, p: u32) -> Result<u32, Refusal>
        ensures { stepped result self.new ≡ perform self.old (Allocate x d p) }
    {
        let address = self.memory.allocate(d, p)?;
        put(&mut self.roots, x, address);
        Ok(address)
    }

    // The value of a root cell; 0 past the end.
    fn root(&self, x: u32) -> u32
        ensures { result ≡ at self.now.roots x }
    {
        self.roots.get(x as usize).copied().unwrap_or(0)
    }

    // The value of a root cell, or the number.
    fn operand(&self, operand: Operand) -> u32
        ensures { result ≡ operand_of self.now.roots operand }
    {
        match operand {
            Operand::Root(y) => self.root(y),
            Operand::Number(v) => v,
        }
    }

    // A derived address, before, inside or behind the object at root y.
    fn root_plus(&self, y: u32, v: u32) -> u32
        ensures { result ≡ root_plus self.now.roots y v }
    {
        self.root(y).wrapping_add(v)
    }
}
