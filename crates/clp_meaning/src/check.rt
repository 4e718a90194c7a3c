//! Whether a program has what a project has.

ghost use Rattle.std.specs.Prelude.{◌≡◌, ◌↔◌, ◌+◌, ◌-◌, ◌/◌, ◌%◌, ◌<◌, ◌≤◌, All, IsTrue, Some, length, not, slice_get};
ghost use Rattle.std.specs.List.{list_all};
ghost use Rattle.diagram_program.specs.declared.geometry.TheConstants.{COLUMNS, PLACES, ROWS, RUNGS};
ghost use Rattle.diagram_program.specs.Program.{feeds};
ghost use Rattle.diagram_program.specs.declared.cell.Operand.TheVariants as operands;
ghost use Rattle.clp_meaning.specs.Reach.{AreReached, IsPower};
ghost use Rattle.clp_meaning.specs.Sheets.{IsFed};
ghost use Rattle.clp_meaning.specs.Carried.{AreApart, AreCarried, AreInstances, AreUnseen, IsAlike, IsCarriedBy, IsBlockOf, IsCell, IsCoilOn, IsContactOn, IsFedAlike, IsInstance, IsJumpTo, IsLeftOut, IsNever, IsNoneOf, IsOperand, IsPlaceCarried, IsRungCarried, IsTarget, IsUnseen, IsVar, IsWritten, IsContactAt, IsDeclaredAt, opened_at};

use crate::meaning::{BlockRef, BlockSort, ClpOperand, Meaning, entry_of, source_of, timed_as};
use crate::power::{Power, fed, power_of};
use crate::sheet::{element_at, is_idle, meaning_at, reads_late, stands};
use clp_project::{Element, Expression, Placed, Project, ReadingOptions, writes_number};
use diagram_declarations::{Address, Decls, Instance, Var};
use diagram_program::geometry::{COLUMNS, PLACES, Place, ROWS};
use diagram_program::{Cell, CoilMode, Mode, Operand, Program};

/// Whether a declaration has this address.
fn is_at(place: Option<Address>, address: Address) -> bool
    ensures { IsTrue result ↔ (place ≡ Some address) }
{
    match place {
        Some(other) => other == address,
        None => false,
    }
}

/// Whether the variable is declared at this address.
fn is_declared_at(decls: &Decls, address: Address, var: usize) -> bool
    ensures { IsTrue result ↔ IsDeclaredAt decls.now address var }
{
    match decls.vars().get(var) {
        Some(v) => is_at(v.address, address),
        None => false,
    }
}

/// Whether the variable is declared at an address of this letter, with this one number.
fn is_var(decls: &Decls, letter: char, number: u32, var: usize) -> bool
    ensures { IsTrue result ↔ IsVar decls.now letter number var }
{
    let address = Address {
        letter,
        first: number,
        second: None,
    };
    is_declared_at(decls, address, var)
}

/// The address of the input that stands for what is opened at a place.
fn opened_at(at: Place) -> Address
    ensures { result ≡ opened_at at.rung at.row at.column }
{
    Address {
        letter: 'I',
        first: at.rung as u32 + 1,
        second: Some(100 * (at.row as u32 + 1) + (at.column as u32 + 1)),
    }
}

/// Whether an instance of the program is that of a block of the project.
fn is_instance_of(blocks: &[BlockRef], block: BlockRef, inst: usize) -> bool
    ensures { IsTrue result ↔ (slice_get blocks.now inst ≡ Some block) }
{
    match blocks.get(inst) {
        Some(other) => *other == block,
        None => false,
    }
}

/// Whether the variable is always OFF: it is no input, and no coil writes it.
fn is_never(program: &Program, var: usize) -> bool
    ensures { IsTrue result ↔ IsNever program.now var }
{
    let is_input = match program.decls().vars().get(var) {
        Some(v) => v.is_input(),
        None => false,
    };
    !is_input && !program.has_coil(var)
}

/// Whether the variable of the program is what a contact of the project reads.
fn is_var_read(
    program: &Program,
    blocks: &[BlockRef],
    source: ClpOperand,
    number: u32,
    var: usize,
) -> bool
    ensures { IsTrue result ↔ IsOperand program.now blocks.now source number (operands.Var var) }
{
    match source {
        ClpOperand::Input => is_var(program.decls(), 'I', number, var),
        ClpOperand::Output => is_var(program.decls(), 'Q', number, var),
        ClpOperand::Memory => is_var(program.decls(), 'M', number, var),
        ClpOperand::Done(sort) => {
            is_none_of(blocks, BlockRef { sort, number }) && is_never(program, var)
        }
        ClpOperand::Other => false,
    }
}

/// Whether a contact of the program reads what its element reads: the same variable, or the output of the same block.
fn is_operand(
    program: &Program,
    blocks: &[BlockRef],
    source: ClpOperand,
    number: u32,
    operand: Operand,
) -> bool
    ensures { IsTrue result ↔ IsOperand program.now blocks.now source number operand }
{
    match operand {
        Operand::Var(var) => is_var_read(program, blocks, source, number, var),
        Operand::Output(inst) => match source {
            ClpOperand::Done(sort) => is_instance_of(blocks, BlockRef { sort, number }, inst),
            ClpOperand::Input | ClpOperand::Output | ClpOperand::Memory | ClpOperand::Other =>
                false,
        },
    }
}

/// Whether the variable of the program is what a coil of the project writes.
fn is_written(program: &Program, source: ClpOperand, number: u32, var: usize) -> bool
    ensures { IsTrue result ↔ IsWritten program.now source number var }
{
    match source {
        ClpOperand::Output => is_var(program.decls(), 'Q', number, var),
        ClpOperand::Memory => is_var(program.decls(), 'M', number, var),
        ClpOperand::Input | ClpOperand::Done(_) | ClpOperand::Other => false,
    }
}

/// Whether a rung with this number, of the same section, is in this place in the scan.
fn is_target(rungs: &[Placed<'_>], section: u32, number: u32, target: usize) -> bool
    ensures { IsTrue result ↔ IsTarget rungs.now section number target }
{
    match rungs.get(target) {
        Some(placed) => placed.rung.number == number && placed.section == section,
        None => false,
    }
}

/// Whether the cell is a contact of this mode on the operand.
fn is_contact_on(
    program: &Program,
    blocks: &[BlockRef],
    mode: Mode,
    source: ClpOperand,
    number: u32,
    cell: Cell,
) -> bool
    ensures { IsTrue result ↔ IsContactOn program.now blocks.now mode source number cell }
{
    match cell.contact() {
        Some((drawn, operand)) => drawn == mode
            && is_operand(program, blocks, source, number, operand),
        None => false,
    }
}

/// Whether the cell is a contact of this mode on the variable with an address.
fn is_contact_at(program: &Program, mode: Mode, address: Address, cell: Cell) -> bool
    ensures { IsTrue result ↔ IsContactAt program.now mode address cell }
{
    match cell.contact() {
        Some((drawn, Operand::Var(var))) => drawn == mode
            && is_declared_at(program.decls(), address, var),
        Some((_, Operand::Output(_))) | None => false,
    }
}

/// Whether the cell is a coil of this mode on the variable.
fn is_coil_on(
    program: &Program,
    mode: CoilMode,
    source: ClpOperand,
    number: u32,
    cell: Cell,
) -> bool
    ensures { IsTrue result ↔ IsCoilOn program.now mode source number cell }
{
    match cell.coil() {
        Some((drawn, var)) => drawn == mode && is_written(program, source, number, var),
        None => false,
    }
}

/// Whether a cell jumps to the rung that has this number in the project.
fn is_jump_to(rungs: &[Placed<'_>], section: u32, number: u32, cell: Cell) -> bool
    ensures { IsTrue result ↔ IsJumpTo rungs.now section number cell }
{
    match cell {
        Cell::Jump { target } => is_target(rungs, section, number, target),
        Cell::Empty
        | Cell::Wire
        | Cell::Contact { .. }
        | Cell::Coil { .. }
        | Cell::Block { .. }
        | Cell::Lower { .. }
        | Cell::Return => false,
    }
}

/// Whether a cell is a block of the instance that this block of the project became.
fn is_block_of(blocks: &[BlockRef], block: BlockRef, cell: Cell) -> bool
    ensures { IsTrue result ↔ IsBlockOf blocks.now block cell }
{
    match cell.block() {
        Some(inst) => is_instance_of(blocks, block, inst),
        None => false,
    }
}

/// An element with its meaning: of which section it is, and the address of the input that stands for what is opened there.
#[derive(Clone, Copy)]
struct MeantElement {
    section: u32,
    address: Address,
    element: Element,
    meaning: Meaning,
}

/// Whether a cell of the program is what an element of the project means.
#[tactic(auto, unfolding(crate::specs::Carried::IsCell))]
fn is_cell(
    program: &Program,
    rungs: &[Placed<'_>],
    blocks: &[BlockRef],
    meant: MeantElement,
    cell: Cell,
) -> bool
    ensures { IsTrue result ↔ IsCell program.now rungs.now blocks.now meant.section meant.address meant.element meant.meaning cell }
{
    let MeantElement {
        section,
        address,
        element,
        meaning,
    } = meant;
    let source = source_of(element.class);
    let number = element.number;
    match meaning {
        Meaning::Blank | Meaning::Operate => cell == Cell::Empty,
        Meaning::Wire => cell == Cell::Wire,
        Meaning::Contact(mode) => is_contact_on(program, blocks, mode, source, number, cell),
        Meaning::Opened(mode) => is_contact_at(program, mode, address, cell),
        Meaning::Coil(mode) => is_coil_on(program, mode, source, number, cell),
        Meaning::Jump => is_jump_to(rungs, section, number, cell),
        Meaning::Block(sort) => is_block_of(blocks, BlockRef { sort, number }, cell),
        Meaning::Off => {
            let done = ClpOperand::Done(BlockSort::Timer);
            is_contact_on(program, blocks, Mode::Plain, done, number, cell)
        }
        Meaning::Other => false,
    }
}

/// Whether a cell is empty in the place of an element that may be left out: no power comes to it, and it does nothing then.
#[tactic(auto, unfolding(crate::specs::Carried::IsLeftOut))]
fn is_left_out(
    reading: ReadingOptions,
    elements: &[Element],
    power: &Power,
    row: usize,
    column: usize,
    cell: Cell,
) -> bool
    requires rows { row < ROWS }
    requires columns { column < COLUMNS }
    requires power { IsPower reading elements.now power.now }
    ensures { IsTrue result ↔ IsLeftOut reading elements.now row column cell }
{
    cell == Cell::Empty
        && !power[column][row]
        && is_idle(meaning_at(reading, elements, row, column))
}

/// Whether a cell is fed from a row exactly where its element is; `before` says which rows of the column before power can reach.
fn is_fed_alike(
    reading: ReadingOptions,
    program: &Program,
    at: Place,
    elements: &[Element],
    from: usize,
    before: &[bool; ROWS],
) -> bool
    requires rungs { at.rung < program.now.rungs }
    requires rows { from < ROWS }
    requires before { AreReached reading elements.now (at.column - 1) before.now }
    ensures { IsTrue result ↔ (IsTrue (feeds program.now at.rung at.row at.column from) ↔ IsFed reading elements.now at.row at.column from) }
{
    program.feeds(at, from) == fed(reading, elements, at.row, at.column, from, before)
}

/// Whether a cell is fed from the same rows as its element.
fn are_fed_alike(
    reading: ReadingOptions,
    program: &Program,
    at: Place,
    elements: &[Element],
    power: &Power,
) -> bool
    requires rungs { at.rung < program.now.rungs }
    requires power { IsPower reading elements.now power.now }
    ensures { IsTrue result ↔ IsFedAlike reading program.now at.rung elements.now at.row at.column }
{
    let before = power[at.before().column];
    for from in 0..ROWS {
        if !is_fed_alike(reading, program, at, elements, from, &before) {
            return false;
        }
    }
    true
}

/// Whether a cell is fed as its element is, if that is in a place where it means the same.
fn is_alike(
    reading: ReadingOptions,
    program: &Program,
    at: Place,
    elements: &[Element],
    power: &Power,
) -> bool
    requires rungs { at.rung < program.now.rungs }
    requires power { IsPower reading elements.now power.now }
    ensures { IsTrue result ↔ IsAlike reading program.now at.rung elements.now at.row at.column }
{
    stands(reading, elements, at.row, at.column)
        && !reads_late(reading, elements, at.row, at.column)
        && are_fed_alike(reading, program, at, elements, power)
}

/// Whether a place of the program has what the project has there: the same cell, fed from the same rows, or nothing where nothing
/// is done.
fn is_place_carried(
    reading: ReadingOptions,
    program: &Program,
    rungs: &[Placed<'_>],
    blocks: &[BlockRef],
    at: Place,
    placed: &Placed<'_>,
    power: &Power,
) -> bool
    requires rungs { at.rung < program.now.rungs }
    requires power { IsPower reading placed.now.rung.elements power.now }
    ensures { IsTrue result ↔ IsPlaceCarried reading program.now rungs.now blocks.now at.rung placed.now at.row at.column }
{
    let cell = program.site(at).cell;
    let elements = placed.rung.elements.as_slice();
    let element = element_at(elements, at.row, at.column);
    let meaning = meaning_at(reading, elements, at.row, at.column);
    let meant = MeantElement {
        section: placed.section,
        address: opened_at(at),
        element,
        meaning,
    };
    (is_cell(program, rungs, blocks, meant, cell)
        || is_left_out(reading, elements, power, at.row, at.column, cell))
        && (cell == Cell::Empty || is_alike(reading, program, at, elements, power))
}

/// Whether each place of a rung has in the program what it means in the project.
fn is_rung_carried(
    reading: ReadingOptions,
    program: &Program,
    rungs: &[Placed<'_>],
    blocks: &[BlockRef],
    rung: usize,
    placed: &Placed<'_>,
) -> bool
    requires rungs { rung < program.now.rungs }
    requires few { rung < RUNGS }
    ensures { IsTrue result ↔ IsRungCarried reading program.now rungs.now blocks.now rung placed.now }
{
    let power = power_of(reading, placed.rung.elements.as_slice());
    for place in 0..PLACES {
        let at = Place {
            rung,
            row: place / COLUMNS,
            column: place % COLUMNS,
        };
        if !is_place_carried(reading, program, rungs, blocks, at, placed, &power) {
            return false;
        }
    }
    true
}

/// Whether each rung of the program has what the project has in it.
fn are_carried(
    reading: ReadingOptions,
    program: &Program,
    rungs: &[Placed<'_>],
    blocks: &[BlockRef],
) -> bool
    requires { program.now.rungs ≡ length rungs.now }
    ensures { IsTrue result ↔ AreCarried reading program.now rungs.now blocks.now }
{
    for rung in 0..program.rungs() {
        if !is_rung_carried(reading, program, rungs, blocks, rung, &rungs[rung]) {
            return false;
        }
    }
    true
}

/// Whether a block isn't one of several.
fn is_none_of(mut others: &[BlockRef], block: BlockRef) -> bool
    ensures { IsTrue result ↔ IsNoneOf others.entry.now block }
{
    while let [other, rest @ ..] = others {
        if *other == block {
            return false;
        }
        others = rest;
    }
    true
}

/// Whether no block comes twice in a list.
fn are_apart(mut blocks: &[BlockRef]) -> bool
    ensures { IsTrue result ↔ AreApart blocks.entry.now }
{
    while let [block, rest @ ..] = blocks {
        if !is_none_of(rest, *block) {
            return false;
        }
        blocks = rest;
    }
    true
}

/// Whether an instance is declared with the kind and the preset of this block, in ms.
fn is_instance(project: &Project<'_>, block: BlockRef, instance: Instance) -> bool
    ensures { IsTrue result ↔ IsInstance project.now block instance }
{
    match timed_as(
        block.sort,
        entry_of(project, block.sort, block.number as usize),
    ) {
        Some(timed) => timed.kind == instance.kind && timed.preset == u64::from(instance.preset),
        None => false,
    }
}

/// Whether each instance has the kind and the preset of the block that it stands for.
fn are_instances(project: &Project<'_>, mut blocks: &[BlockRef], mut instances: &[Instance]) -> bool
    ensures { IsTrue result ↔ AreInstances project.now blocks.entry.now instances.entry.now }
{
    while let [block, others @ ..] = blocks {
        let [instance, rest @ ..] = instances else {
            return false;
        };
        if !is_instance(project, *block, *instance) {
            return false;
        }
        blocks = others;
        instances = rest;
    }
    instances.is_empty()
}

/// Whether an element is no operate, or one that writes a number: no diagram shows what is done with numbers.
#[tactic(auto, unfolding(crate::specs::Carried::IsUnseen))]
fn is_unseen(expressions: &[Expression<'_>], element: Element) -> bool
    ensures { IsTrue result ↔ IsUnseen expressions.now element }
{
    element.kind != 60 || writes_number(expressions, element.number)
}

/// Whether no element of a rung shows what is watched of the expressions.
#[tactic(auto, unfolding(crate::specs::Carried::AreUnseen))]
fn are_unseen(expressions: &[Expression<'_>], placed: &Placed<'_>) -> bool
    ensures { IsTrue result ↔ AreUnseen expressions.now placed.now }
{
    let mut elements = placed.rung.elements.as_slice();
    while let [element, rest @ ..] = elements {
        if !is_unseen(expressions, *element) {
            return false;
        }
        elements = rest;
    }
    true
}

/// Whether no operate of the project is one that writes a bit, which a program can't.
fn all_unseen(expressions: &[Expression<'_>], mut rungs: &[Placed<'_>]) -> bool
    ensures { IsTrue result ↔ All (AreUnseen expressions.now) rungs.entry.now }
{
    while let [placed, rest @ ..] = rungs {
        if !are_unseen(expressions, placed) {
            return false;
        }
        rungs = rest;
    }
    true
}

/// Whether all variables of the program begin as OFF, as in ClassicLadder.
fn are_off(mut vars: &[Var]) -> bool
    ensures { result ≡ list_all (λ v. not v.initial) vars.entry.now }
{
    while let [var, rest @ ..] = vars {
        if var.initial {
            return false;
        }
        vars = rest;
    }
    true
}

/// Whether a program is a project carried over, with the blocks in the order of the instances.
pub fn is_carried_over(
    reading: ReadingOptions,
    project: &Project<'_>,
    blocks: &[BlockRef],
    program: &Program,
) -> bool
    ensures { IsTrue result ↔ IsCarriedBy reading project.now blocks.now program.now }
{
    let decls = program.decls();
    let rungs = project.rungs.as_slice();
    if program.rungs() != rungs.len() {
        return false;
    }
    if !are_apart(blocks) {
        return false;
    }
    if !are_instances(project, blocks, decls.instances()) {
        return false;
    }
    if !are_off(decls.vars()) {
        return false;
    }
    if !all_unseen(project.expressions.as_slice(), rungs) {
        return false;
    }
    are_carried(reading, program, rungs, blocks)
}
