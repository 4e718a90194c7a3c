//! The variables and the blocks of a program.

use crate::address::address_of;
use crate::blocks::{TRIGGERED, block_of, is_name, output_of};
use crate::edge::{Edge, edge_of};
use crate::fault::{PlcFault, PlcReason};
use crate::made::Made;
use crate::xml::{child, first_in, is_named, is_on, is_word, name_of, parts_in, value_of};
use diagram_declarations::{Address, BlockKind, same_letters};
use io_table::Table;
use st_expression::Operand;
use std::alloc::Global;
use xml_document::{Document, Span};
use xml_parts::{Part, attribute, bytes_at};

/// A program has no more variables than this.
const MOST_VARIABLES: usize = 4_000;

/// A block, with its number among the blocks.
#[derive(Clone, Copy)]
pub(crate) struct Instance {
    pub number: usize,
    pub kind: BlockKind,
}

/// A trigger, with the number of its output among the variables.
#[derive(Clone, Copy)]
pub(crate) struct Trigger {
    pub number: usize,
    pub edge: Edge,
}

/// What a name is declared as.
#[derive(Clone, Copy)]
pub(crate) enum Sort {
    /// A BOOL, by its number among the variables, and whether it begins as on.
    Bool { number: usize, initial: bool },
    Trigger(Trigger),
    Block(Instance),
    /// Something that the text doesn't have.
    Other,
}

/// What a variable or a block is declared as.
#[derive(Clone, Copy)]
pub(crate) struct Variable {
    pub name: Span,
    /// No bytes where there is none.
    pub address: Span,
    /// The same where it is read.
    pub location: Option<Address>,
    pub sort: Sort,
}

/// The variables of a list: from one number on, to before another one.
#[derive(Clone, Copy)]
pub(crate) struct List {
    /// The word that a list begins with in the text.
    pub word: &'static [u8],
    pub from: usize,
    pub to: usize,
}

/// A word with what is behind its point.
#[derive(Clone, Copy)]
struct Path<'a> {
    name: &'a [u8],
    member: Option<&'a [u8]>,
}

/// What a program declares, in the order of the document, and what its text declares besides.
#[derive(Drop)]
pub(crate) struct Symbols<'d> {
    document: &'d Document,
    /// The name of the program.
    pub program: Span,
    pub variables: Table<Variable>,
    pub lists: Table<List>,
    /// The variables that are BOOLs or triggers, and those that are blocks.
    pub numbered: Table<usize>,
    pub blocks: Table<usize>,
    /// Words of the diagram that nothing of the text may have for a name, up to a point.
    foreign: Table<Span>,
    /// The variables that the text declares besides. Their numbers go on behind those of the others.
    pub made: Table<Made>,
    /// Their names, one after the other.
    pub spellings: Table<u8>,
    /// The last numbers in the names of triggers.
    pub last_rising: usize,
    pub last_falling: usize,
}

/// The word that a list of variables begins with in the text, by its name in the document.
fn word_of(name: &[u8]) -> Option<&'static [u8]> {
    if is_word(name, b"inputVars") {
        return Some(b"VAR_INPUT");
    }
    if is_word(name, b"outputVars") {
        return Some(b"VAR_OUTPUT");
    }
    if is_word(name, b"localVars") || is_word(name, b"externalVars") || is_word(name, b"tempVars") {
        Some(b"VAR")
    } else {
        None
    }
}

/// Whether a variable is one of the text, and has an address.
fn is_at(variable: Variable, location: Address) -> bool {
    match (variable.sort, variable.location) {
        (Sort::Bool { .. }, Some(other)) => other == location,
        _ => false,
    }
}

/// Refuses a variable by its name.
fn refused(name: Span, reason: PlcReason) -> PlcFault {
    PlcFault::Variable { name, reason }
}

/// Parts a word at its first point.
fn path_of(word: &[u8]) -> Path<'_> {
    for at in 0..word.len() {
        if word[at] == b'.' {
            return Path {
                name: &word[..at],
                member: Some(&word[at + 1..]),
            };
        }
    }
    Path {
        name: word,
        member: None,
    }
}

/// Whether the initial value inside an element is on; it is off where there is none.
fn initial_of(document: &Document, place: usize) -> Result<bool, PlcReason> {
    let Some(initial) = child(document, place, b"initialValue") else {
        return Ok(false);
    };
    let Some(simple) = child(document, initial, b"simpleValue") else {
        return Err(PlcReason::Initial);
    };
    let Some(word) = attribute(document, simple, b"value") else {
        return Ok(false);
    };
    if same_letters(word, b"TRUE") || is_word(word, b"1") {
        return Ok(true);
    }
    if same_letters(word, b"FALSE") || is_word(word, b"0") {
        Ok(false)
    } else {
        Err(PlcReason::Initial)
    }
}

/// The name of the type that an element is; no bytes where it has none.
fn derived_of(document: &Document, part: Part) -> &[u8] {
    if !is_named(document, part, b"derived") {
        return b"";
    }
    match attribute(document, part.inside, b"name") {
        Some(word) => word,
        None => b"",
    }
}

/// The first element in the type of a variable.
fn type_of(document: &Document, place: usize) -> Option<Part> {
    let place = child(document, place, b"type")?;
    first_in(document, place)
}

/// Whether a list of variables has values that are kept, or that no one writes.
fn is_kept(document: &Document, place: usize) -> Result<bool, PlcReason> {
    Ok(
        is_on(document, place, b"retain")?
            || is_on(document, place, b"persistent")?
            || is_on(document, place, b"constant")?,
    )
}

impl<'d> Symbols<'d> {
    /// Nothing declared in a program with a name.
    pub(crate) fn new(alloc: Global, document: &'d Document, program: Span) -> Symbols<'d> {
        Symbols {
            document,
            program,
            variables: Table::new(alloc),
            lists: Table::new(alloc),
            numbered: Table::new(alloc),
            blocks: Table::new(alloc),
            foreign: Table::new(alloc),
            made: Table::new(alloc),
            spellings: Table::new(alloc),
            last_rising: 0,
            last_falling: 0,
        }
    }

    /// Whether memory never ran out.
    pub(crate) fn is_whole(&self) -> bool {
        self.variables.is_whole
            && self.lists.is_whole
            && self.numbered.is_whole
            && self.blocks.is_whole
            && self.foreign.is_whole
            && self.made.is_whole
            && self.spellings.is_whole
    }

    /// How many BOOLs and triggers are declared.
    pub(crate) fn declared(&self) -> usize {
        self.numbered.len()
    }

    /// The name of the program.
    pub(crate) fn program_name(&self) -> &'d [u8] {
        bytes_at(&self.document.bytes, self.program)
    }

    /// What a name is declared as.
    pub(crate) fn find(&self, name: &[u8]) -> Option<Sort> {
        for variable in self.variables.items() {
            if same_letters(bytes_at(&self.document.bytes, variable.name), name) {
                return Some(variable.sort);
            }
        }
        None
    }

    /// Has nothing of the text have a word of the diagram, up to a point, for a name.
    pub(crate) fn avoid(&mut self, word: Span) {
        let path = path_of(bytes_at(&self.document.bytes, word));
        self.foreign.push(Span {
            start: word.start,
            end: word.start.saturating_add(path.name.len()),
        });
    }

    /// Whether nothing of the text may have a name.
    pub(crate) fn is_foreign(&self, name: &[u8]) -> bool {
        for word in self.foreign.items() {
            if same_letters(bytes_at(&self.document.bytes, *word), name) {
                return true;
            }
        }
        false
    }

    /// The name of one of some variables.
    fn name(&self, among: &Table<usize>, number: usize) -> &'d [u8] {
        let Some(place) = among.at(number) else {
            return b"";
        };
        match self.variables.at(place) {
            Some(variable) => bytes_at(&self.document.bytes, variable.name),
            None => b"",
        }
    }

    /// The name of the BOOL or the trigger with a number.
    pub(crate) fn variable_name(&self, number: usize) -> &[u8] {
        match number.checked_sub(self.declared()) {
            Some(place) => self.made_name(place),
            None => self.name(&self.numbered, number),
        }
    }

    /// The trigger that is declared with a number.
    fn declared_trigger(&self, number: usize) -> Option<Trigger> {
        match self.variables.at(self.numbered.at(number)?)?.sort {
            Sort::Trigger(trigger) => Some(trigger),
            _ => None,
        }
    }

    /// Whether the variable with a number is the output of a trigger.
    pub(crate) fn is_trigger(&self, number: usize) -> bool {
        match number.checked_sub(self.declared()) {
            Some(place) => self.is_made_trigger(place),
            None => self.declared_trigger(number).is_some(),
        }
    }

    /// The name of the block with a number.
    pub(crate) fn block_name(&self, number: usize) -> &'d [u8] {
        self.name(&self.blocks, number)
    }

    /// The kind of the block with a number.
    pub(crate) fn block(&self, number: usize) -> Option<BlockKind> {
        match self.variables.at(self.blocks.at(number)?)?.sort {
            Sort::Block(instance) => Some(instance.kind),
            _ => None,
        }
    }

    /// The BOOL, or the output of a trigger or of a block, that a word names.
    pub(crate) fn operand_of(&self, word: &[u8]) -> Result<Operand, PlcReason> {
        let path = path_of(word);
        match (self.find(path.name), path.member) {
            (Some(Sort::Bool { number, .. }), None) => Ok(Operand::Variable(number)),
            (Some(Sort::Trigger(trigger)), Some(member)) => {
                if same_letters(member, TRIGGERED) {
                    Ok(Operand::Variable(trigger.number))
                } else {
                    Err(PlcReason::Formal)
                }
            }
            (Some(Sort::Block(instance)), Some(member)) => {
                if same_letters(member, output_of(instance.kind)) {
                    Ok(Operand::Output(instance.number))
                } else {
                    Err(PlcReason::Formal)
                }
            }
            (Some(_), _) => Err(PlcReason::Type),
            (None, _) => Err(PlcReason::Undeclared),
        }
    }

    /// What the variable inside an element is declared as.
    fn sort_of(&self, place: usize) -> Result<Sort, PlcReason> {
        let Some(part) = type_of(self.document, place) else {
            return Ok(Sort::Other);
        };
        if is_named(self.document, part, b"BOOL") {
            return Ok(Sort::Bool {
                number: self.declared(),
                initial: initial_of(self.document, place)?,
            });
        }
        let sort = self.derived_sort(derived_of(self.document, part));
        if matches!(sort, Sort::Other) {
            return Ok(sort);
        }
        if child(self.document, place, b"initialValue").is_some() {
            return Err(PlcReason::Initial);
        }
        Ok(sort)
    }

    /// What a variable of a type with a name is declared as.
    fn derived_sort(&self, word: &[u8]) -> Sort {
        if let Some(edge) = edge_of(word) {
            return Sort::Trigger(Trigger {
                number: self.declared(),
                edge,
            });
        }
        match block_of(word) {
            Some(kind) => Sort::Block(Instance {
                number: self.blocks.len(),
                kind,
            }),
            None => Sort::Other,
        }
    }

    /// Adds a variable.
    fn add(&mut self, variable: Variable) {
        let number = self.variables.len();
        match variable.sort {
            Sort::Bool { .. } | Sort::Trigger(_) => self.numbered.push(number),
            Sort::Block(_) => self.blocks.push(number),
            Sort::Other => {}
        }
        self.variables.push(variable);
    }

    /// Why the text can't have a variable, if it can't.
    fn fault_of(&self, variable: Variable, is_input: bool) -> Result<(), PlcReason> {
        let name = bytes_at(&self.document.bytes, variable.name);
        if self.find(name).is_some() {
            return Err(PlcReason::Twice);
        }
        if matches!(variable.sort, Sort::Other) {
            return Ok(());
        }
        if !is_name(name) {
            return Err(PlcReason::Name);
        }
        // No one but the program writes the output of a trigger.
        if is_input && matches!(variable.sort, Sort::Trigger(_)) {
            return Err(PlcReason::Type);
        }
        let address = bytes_at(&self.document.bytes, variable.address);
        if address.is_empty() {
            return Ok(());
        }
        // A block and a trigger have no address.
        match (variable.sort, variable.location) {
            (Sort::Bool { .. }, Some(location)) if self.is_taken(location) => {
                Err(PlcReason::AddressTwice)
            }
            (Sort::Bool { .. }, Some(_)) => Ok(()),
            _ => Err(PlcReason::Address),
        }
    }

    /// Whether a variable of the text has an address.
    fn is_taken(&self, location: Address) -> bool {
        for variable in self.variables.items() {
            if is_at(*variable, location) {
                return true;
            }
        }
        false
    }

    /// Reads the variable inside an element, which is in a list of inputs or in another one.
    fn read_variable(&mut self, place: usize, is_input: bool) -> Result<(), PlcFault> {
        if self.variables.len() >= MOST_VARIABLES {
            return Err(PlcFault::TooLarge);
        }
        let name = value_of(self.document, place, b"name");
        let sort = match self.sort_of(place) {
            Ok(sort) => sort,
            Err(reason) => return Err(refused(name, reason)),
        };
        let address = value_of(self.document, place, b"address");
        let variable = Variable {
            name,
            address,
            location: address_of(bytes_at(&self.document.bytes, address)),
            sort,
        };
        if let Err(reason) = self.fault_of(variable, is_input) {
            return Err(refused(name, reason));
        }
        self.add(variable);
        Ok(())
    }

    /// Reads the variables of a list, of inputs or of others.
    fn read_variables(&mut self, parts: &[Part], is_input: bool) -> Result<(), PlcFault> {
        for part in parts {
            if is_named(self.document, *part, b"variable") {
                self.read_variable(part.inside, is_input)?;
            }
        }
        Ok(())
    }

    /// Reads a list of variables. Other elements are passed over.
    fn read_list(&mut self, alloc: Global, part: Part) -> Result<(), PlcFault> {
        let Some(word) = word_of(name_of(self.document, part)) else {
            return Ok(());
        };
        match is_kept(self.document, part.inside) {
            Ok(false) => {}
            Ok(true) => return Err(refused(part.name, PlcReason::Retain)),
            Err(reason) => return Err(refused(part.name, reason)),
        }
        let from = self.variables.len();
        let parts = parts_in(alloc, self.document, part.inside)?;
        let told = self.read_variables(&parts, is_word(word, b"VAR_INPUT"));
        let to = self.variables.len();
        self.lists.push(List { word, from, to });
        told
    }

    /// Reads lists of variables.
    fn read_lists(&mut self, alloc: Global, parts: &[Part]) -> Result<(), PlcFault> {
        for part in parts {
            self.read_list(alloc, *part)?;
        }
        Ok(())
    }

    /// Reads the interface of a program.
    pub(crate) fn read(&mut self, alloc: Global, place: usize) -> Result<(), PlcFault> {
        let parts = parts_in(alloc, self.document, place)?;
        self.read_lists(alloc, &parts)
    }
}
