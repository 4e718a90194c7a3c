//! The rungs that are written.

use crate::coils::Coils;
use crate::fitting::Feed;
use crate::grid::Grid;
use crate::names::{Comment, Names};
use crate::picture::{add_label, add_rung};
use crate::placing::Helpers;
use crate::rungs::{Target, coil_rung, jump_rung};
use crate::shared::{Shared, store_mode};
use crate::text::Text;
use st_expression::Expression;
use st_statements::constant_of;
use std::alloc::{AllocError, Global};

/// The rungs of statements.
#[derive(Drop)]
pub struct Layout<'a> {
    /// The rungs, with an empty line between two of them.
    pub text: Vec<u8>,
    /// For each rung the part of an expression whose value it writes to a helper, the next one; None for a rung that does what statements do.
    pub parts: Vec<Option<&'a Expression>>,
    /// How many helpers there are. The number of one is that of the variables and its own, from 0 on.
    pub helpers: usize,
    /// How many rungs there are, perhaps more than a program can have.
    pub rungs: usize,
}

/// The rungs that are written so far.
#[derive(Drop)]
pub(crate) struct Sheet<'a, 'n> {
    pub(crate) alloc: Global,
    pub(crate) names: &'n Names<'n>,
    comments: &'n [Comment<'n>],
    pub(crate) text: Text,
    /// For each rung the part that it writes a helper for.
    pub(crate) parts: Vec<Option<&'a Expression>>,
    /// How many helpers are written.
    pub(crate) helpers: usize,
    /// The assignments that wait for others to share their rung.
    pub(crate) shared: Shared<'a>,
    /// How many statements have begun.
    begun: usize,
    /// How many comments are written.
    told: usize,
    /// How many labels there are.
    labels: usize,
    /// The label that the next rung has.
    label: Option<usize>,
}

/// What leads to the coils that store an expression.
pub(crate) fn stored_feed(value: &Expression) -> Feed<'_> {
    match constant_of(value) {
        Some(_) => Feed::Rail,
        None => Feed::Network {
            expression: value,
            on: true,
        },
    }
}

impl<'a, 'n> Sheet<'a, 'n> {
    /// No rung.
    pub(crate) fn new(
        alloc: Global,
        names: &'n Names<'n>,
        comments: &'n [Comment<'n>],
    ) -> Sheet<'a, 'n> {
        Sheet {
            alloc,
            names,
            comments,
            text: Text::new(alloc),
            parts: Vec::new(alloc),
            helpers: 0,
            shared: Shared::new(),
            begun: 0,
            told: 0,
            labels: 0,
            label: None,
        }
    }

    /// Counts statements, whose comments stand in front of the next rung.
    pub(crate) fn begin(&mut self, statements: usize) {
        self.begun = self.begun.saturating_add(statements);
    }

    /// A label that no rung has yet.
    pub(crate) fn new_label(&mut self) -> Target {
        self.labels = self.labels.saturating_add(1);
        Target::Label(self.labels)
    }

    /// Gives the next rung a label.
    pub(crate) fn place(&mut self, target: Target) {
        if let Target::Label(label) = target {
            self.label = Some(label);
        }
    }

    /// Adds the comments in front of the first so many statements that aren't written yet.
    fn add_comments(&mut self, statements: usize) {
        for number in self.told..self.comments.len() {
            if let Some(comment) = self.comments.get(number) {
                if comment.statement >= statements {
                    return;
                }
                self.text.add(comment.text);
                self.text.add(b"\n");
                self.told = number.saturating_add(1);
            }
        }
    }

    /// Adds an empty line, unless nothing is written yet.
    fn add_gap(&mut self) {
        if !self.text.is_empty() {
            self.text.add(b"\n");
        }
    }

    /// Adds the comments that are left, behind the last rung.
    pub(crate) fn add_last_comments(&mut self) {
        if self.told < self.comments.len() {
            self.add_gap();
            self.add_comments(usize::MAX);
        }
    }

    /// Adds a rung, and the part that it writes a helper for.
    pub(crate) fn add_rung(
        &mut self,
        grid: &Grid,
        part: Option<&'a Expression>,
    ) -> Result<(), AllocError> {
        self.add_gap();
        self.add_comments(self.begun);
        if let Some(label) = self.label {
            add_label(&mut self.text, self.names, label);
            self.text.add(b":\n");
            self.label = None;
        }
        add_rung(&mut self.text, self.names, grid);
        self.parts.push(part)?;
        Ok(())
    }

    /// Adds the rungs that write the helpers of the next one, and gives the number of the first one's variable.
    pub(crate) fn add_helpers(&mut self, parts: &[&'a Expression]) -> Result<usize, AllocError> {
        let first = self.names.variables.len().saturating_add(self.helpers);
        for number in 0..parts.len() {
            let part = parts[number];
            let helpers = Helpers {
                parts: &parts[..number],
                first,
            };
            let coils = Coils::one(store_mode(part), first.saturating_add(number));
            self.add_rung(&coil_rung(stored_feed(part), helpers, coils), Some(part))?;
            self.helpers = self.helpers.saturating_add(1);
        }
        Ok(first)
    }

    /// Adds a rung with coils, below those that write helpers for these parts.
    pub(crate) fn add_coils(
        &mut self,
        parts: &[&'a Expression],
        feed: Feed<'a>,
        coils: Coils,
    ) -> Result<(), AllocError> {
        let first = self.add_helpers(parts)?;
        let grid = coil_rung(feed, Helpers { parts, first }, coils);
        self.add_rung(&grid, None)
    }

    /// Adds a rung with a jump, below those that write helpers for these parts.
    pub(crate) fn add_jump(
        &mut self,
        parts: &[&'a Expression],
        feed: Feed<'a>,
        target: Target,
    ) -> Result<(), AllocError> {
        let first = self.add_helpers(parts)?;
        let grid = jump_rung(feed, Helpers { parts, first }, target);
        self.add_rung(&grid, None)
    }

    /// The layout that is written.
    pub(crate) fn end(self) -> Result<Layout<'a>, AllocError> {
        let rungs = self.parts.len();
        Ok(Layout {
            text: self.text.end()?,
            parts: self.parts,
            helpers: self.helpers,
            rungs,
        })
    }
}
