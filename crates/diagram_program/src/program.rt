//! The program of a text: its declarations, its sites, and the lists that scans and looks go through.

ghost use Rattle.std.specs.Prelude.{◌≡◌, ◌<◌, ◌≤◌, IfOk};
ghost use Rattle.diagram_program.specs.declared.geometry.TheConstants.{RUNGS, ROWS, COLUMNS, PLACES};
ghost use Rattle.diagram_program.specs.Program.{site_at, feeds, has_coil, jump_of, memories_of, drawing, IsWhole, IsWellFormed};
ghost use Rattle.diagram_program.specs.Gates.{gates_of, actions_of, below_of, exit_of, leaps_below, left_of};
ghost use Rattle.diagram_program.specs.Steps.{steps_below};

use crate::cell::{Cell, Joint};
use crate::gates::{
    Action, Exit, Gate, Leap, actions, below_of, exits, feeder, gates, leaps, place_in,
};
use crate::geometry::{Place, ROWS};
use crate::sheet::{Jump, Sheet, feeds, jumps, memories};
use crate::site::Site;
use crate::steps::{Lists, Step, steps};
use diagram_declarations::Decls;
use std::alloc::{AllocError, Global};
use std::marker::Model;

/// The program of a text: its declarations, and what its drawing has at each place.
///
/// Rungs, rows and columns are counted from 0. How many there are at most is in `crate::geometry`.
#[derive(Drop)]
pub struct Program {
    decls: Decls,
    rungs: usize,
    sites: Vec<Site>,
    gates: Vec<Vec<Gate>>,
    actions: Vec<Vec<Action>>,
    jumps: Vec<Option<Jump>>,
    exits: Vec<Option<Exit>>,
    leaps: Vec<Leap>,
    steps: Vec<Step>,
    memories: usize,
}

impl Model for Program {
    ghost use Rattle.std.specs.Prelude.{map};
    ghost use Rattle.diagram_program.specs.Program.{Drawing, drawing, IsWellFormed};
    ghost use Rattle.diagram_program.specs.Steps.{IsCompiled};

    ghost Value = { Drawing };

    ghost view = { λ p. drawing p.decls p.rungs p.sites.items };

    ghost invariant = { λ p. IsCompiled
        (drawing p.decls p.rungs p.sites.items)
        (map (λ v. v.items) p.gates.items)
        (map (λ v. v.items) p.actions.items)
        p.jumps.items
        p.exits.items
        p.leaps.items
        p.steps.items
        p.memories
        × IsWellFormed (drawing p.decls p.rungs p.sites.items) };
}

impl Program {
    /// How many rungs there are.
    pub fn rungs(&self) -> usize
        ensures value { result ≡ self.now.rungs }
        ensures few { result ≤ RUNGS }
        ensures whole { IsWhole self.now }
    {
        self.rungs
    }

    /// The declarations of the text.
    pub fn decls(&self) -> &Decls
        ensures { result.now ≡ self.now.decls }
    {
        &self.decls
    }

    /// What is at a place: its cell, and the joint and the vertical link on its left.
    pub fn site(&self, at: Place) -> Site
        requires { at.rung < self.now.rungs }
        ensures { result ≡ site_at self.now at.rung at.row at.column }
    {
        self.sites[at.number()]
    }

    /// The cell at a place of a rung.
    pub fn cell(&self, rung: usize, row: usize, column: usize) -> Cell
        requires rungs { rung < self.now.rungs }
        requires rows { row < ROWS }
        requires columns { column < COLUMNS }
        ensures { result ≡ (site_at self.now rung row column).cell }
    {
        self.sites[Place { rung, row, column }.number()].cell
    }

    /// Whether power can leave the cell on its right.
    pub fn right_link(&self, rung: usize, row: usize, column: usize) -> bool
        requires rungs { rung < self.now.rungs }
        requires rows { row < ROWS }
        requires columns { column < COLUMNS }
        ensures { result ≡ (site_at self.now rung row column).right_link }
    {
        self.sites[Place { rung, row, column }.number()].right_link
    }

    /// The joint on the left of a place.
    pub fn joint(&self, rung: usize, row: usize, column: usize) -> Joint
        requires rungs { rung < self.now.rungs }
        requires rows { row < ROWS }
        requires columns { (1 ≤ column) × (column < COLUMNS) }
        ensures { result ≡ (site_at self.now rung row column).joint }
    {
        self.sites[Place { rung, row, column }.number()].joint
    }

    /// Whether a vertical link on the left of the column joins the row and the next one.
    pub fn vertical(&self, rung: usize, row: usize, column: usize) -> bool
        requires rungs { rung < self.now.rungs }
        requires rows { row < ROWS }
        requires columns { (1 ≤ column) × (column < COLUMNS) }
        ensures { result ≡ (site_at self.now rung row column).vertical }
    {
        self.sites[Place { rung, row, column }.number()].vertical
    }

    /// Whether power goes from the right link of the row `from`, in the column before, into the joint of a place.
    pub fn feeds(&self, at: Place, from: usize) -> bool
        requires rungs { at.rung < self.now.rungs }
        requires rows { from < ROWS }
        ensures { result ≡ feeds self.now at.rung at.row at.column from }
    {
        let sheet = Sheet {
            decls: &self.decls,
            rungs: self.rungs,
            sites: &self.sites,
        };
        feeds(sheet, at, from)
    }

    /// The row and the column of the rung's jump or return, and the rung that it goes to, past the last one by a return.
    pub fn jump(&self, rung: usize) -> Option<(usize, usize, usize)>
        requires rungs { rung < self.now.rungs }
        ensures { result ≡ jump_of self.now rung }
    {
        self.jumps[rung]
    }

    /// How many edge contacts and edge coils there are, each with a memory.
    pub fn memories(&self) -> usize
        ensures { result ≡ memories_of self.now }
    {
        self.memories
    }

    /// Whether some coil of the program writes the variable.
    pub fn has_coil(&self, var: usize) -> bool
        ensures { result ≡ has_coil var self.now }
    {
        self.sites.iter().any(|s| s.cell.is_coil_of(var))
    }

    /// The gates of the rung, by column and then row.
    pub fn gates(&self, rung: usize) -> &[Gate]
        requires rungs { rung < self.now.rungs }
        ensures { result.now ≡ gates_of self.now rung }
    {
        &self.gates[rung]
    }

    /// The actions of a rung, which are all that it writes, by column and then row.
    pub fn actions(&self, rung: usize) -> &[Action]
        requires rungs { rung < self.now.rungs }
        ensures { result.now ≡ actions_of self.now rung }
    {
        &self.actions[rung]
    }

    /// The rung's jump or return as a scan takes it: where its left link is, and the rung that it goes to.
    pub fn exit(&self, rung: usize) -> Option<Exit>
        requires rungs { rung < self.now.rungs }
        ensures { result ≡ exit_of self.now rung }
    {
        self.exits[rung]
    }

    /// The rungs that have a jump or return, each with the rung that it goes to.
    pub fn leaps(&self) -> &[Leap]
        ensures { result.now ≡ leaps_below self.now self.now.rungs }
    {
        &self.leaps
    }

    /// The steps of a look, one rung after the other.
    pub fn steps(&self) -> &[Step]
        ensures { result.now ≡ steps_below self.now self.now.rungs }
    {
        &self.steps
    }

    /// Where the left link of a place is, among the links of its rung.
    pub fn left(&self, rung: usize, at: usize) -> u8
        requires rungs { rung < self.now.rungs }
        requires places { at < PLACES }
        ensures { result ≡ left_of self.now rung at }
    {
        let sheet = Sheet {
            decls: &self.decls,
            rungs: self.rungs,
            sites: &self.sites,
        };
        feeder(sheet, place_in(rung, at), ROWS)
    }

    /// Where the second input of a block at a place is, among the links of its rung.
    pub fn below(&self, rung: usize, at: usize) -> u8
        requires rungs { rung < self.now.rungs }
        requires places { at < PLACES }
        ensures { result ≡ below_of self.now rung at }
    {
        let sheet = Sheet {
            decls: &self.decls,
            rungs: self.rungs,
            sites: &self.sites,
        };
        below_of(sheet, rung, at)
    }

    /// Does nothing: its contract is what the rules of a drawing have made sure of.
    pub fn checked(&self)
        ensures { IsWellFormed self.now }
    {
        let _rungs = self.rungs;
    }

    /// The program with these sites, sixty a rung.
    ///
    /// # Errors
    ///
    /// `AllocError` when out of memory.
    pub fn new(
        alloc: Global,
        decls: Decls,
        rungs: usize,
        sites: Vec<Site>,
    ) -> Result<Program, AllocError>
        requires whole { IsWhole (drawing decls rungs sites.items) }
        requires well_formed { IsWellFormed (drawing decls rungs sites.items) }
        ensures { IfOk result (λ p. p ≡ drawing decls rungs sites.items) }
    {
        let sheet = Sheet {
            decls: &decls,
            rungs,
            sites: &sites,
        };
        let gates = gates(alloc, sheet)?;
        let actions = actions(alloc, sheet)?;
        let jumps = jumps(alloc, sheet)?;
        let exits = exits(alloc, sheet, &jumps)?;
        let leaps = leaps(alloc, sheet, &jumps)?;
        let lists = Lists {
            gates: &gates,
            actions: &actions,
            jumps: &jumps,
            exits: &exits,
        };
        let steps = steps(alloc, sheet, lists)?;
        let memories = memories(&sites);
        Ok(Program {
            decls,
            rungs,
            sites,
            gates,
            actions,
            jumps,
            exits,
            leaps,
            steps,
            memories,
        })
    }
}
