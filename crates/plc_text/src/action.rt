//! What the elements of a diagram do.

use crate::blocks::{Input, input_called, inputs_of, is_preset};
use crate::diagram::{Diagram, UNCONNECTED, refused};
use crate::fault::{PlcFault, PlcReason};
use crate::node::{Node, Role, is_negated};
use crate::symbols::{Instance, Trigger};
use crate::xml::{child, is_named, is_none, is_on, is_word, number_of, parts_in};
use diagram_declarations::BlockKind;
use io_table::Table;
use network_check::{CoilKind, Effect};
use network_power::{Element, Links};
use std::alloc::Global;
use xml_document::{Document, Span};
use xml_parts::{Part, attribute};

/// Where an element stands among those that act.
#[derive(Clone, Copy)]
pub(crate) struct Turn {
    /// 0 where it has none.
    pub execution: u32,
    pub down: u32,
    pub across: u32,
    /// Its place among the elements.
    pub place: usize,
}

/// What an element does.
#[derive(Clone, Copy)]
pub(crate) struct Deed {
    pub effect: Effect,
    /// The element that has the preset of a block.
    pub preset: Option<usize>,
}

/// What an element does, and when.
#[derive(Clone, Copy)]
pub(crate) struct Action {
    pub turn: Turn,
    pub deed: Deed,
}

/// What acts in a diagram.
#[derive(Drop)]
pub(crate) struct Actions {
    pub items: Table<Action>,
    /// All that act have a number in the order, also those that are left out.
    pub are_numbered: bool,
}

/// What is on the left of what acts: of a block of its two inputs.
#[derive(Clone, Copy)]
pub(crate) struct Lefts {
    pub first: Links,
    pub second: Links,
}

/// What is connected with the inputs of a block.
#[derive(Clone, Copy)]
struct Arguments {
    /// None where the block is a trigger.
    kind: Option<BlockKind>,
    number: Span,
    first: Option<Links>,
    second: Option<Links>,
    preset: Option<usize>,
}

/// What is on the left of what has an effect.
pub(crate) fn lefts_of(effect: Effect) -> Lefts {
    match effect {
        Effect::Coil { left, .. }
        | Effect::Trigger { left, .. }
        | Effect::Return { left }
        | Effect::Jump { left, .. } => Lefts {
            first: left,
            second: UNCONNECTED,
        },
        Effect::Call { first, second, .. } => Lefts { first, second },
        Effect::Label => Lefts {
            first: UNCONNECTED,
            second: UNCONNECTED,
        },
    }
}

/// Where an element stands.
fn turn_of(document: &Document, node: Node, place: usize) -> Result<Turn, PlcReason> {
    let execution = number_of(document, node.inside, b"executionOrderId")?;
    let Some(position) = child(document, node.inside, b"position") else {
        return Ok(Turn {
            execution,
            down: 0,
            across: 0,
            place,
        });
    };
    Ok(Turn {
        execution,
        down: number_of(document, position, b"y")?,
        across: number_of(document, position, b"x")?,
        place,
    })
}

/// The kind of a coil.
fn coil_kind(document: &Document, node: Node) -> Result<CoilKind, PlcReason> {
    let negated = is_negated(document, node)?;
    let storage = match attribute(document, node.inside, b"storage") {
        Some(word) => word,
        None => b"none",
    };
    if is_word(storage, b"none") {
        return Ok(if negated {
            CoilKind::Negated
        } else {
            CoilKind::Plain
        });
    }
    if negated {
        return Err(PlcReason::Modifier);
    }
    if is_word(storage, b"set") {
        return Ok(CoilKind::Set);
    }
    if is_word(storage, b"reset") {
        Ok(CoilKind::Reset)
    } else {
        Err(PlcReason::Value)
    }
}

/// Refuses what an input or an output of a block has beside its name.
fn check_pin(document: &Document, place: usize) -> Result<(), PlcReason> {
    if is_on(document, place, b"negated")? {
        return Err(PlcReason::Modifier);
    }
    if !is_none(document, place, b"edge") {
        return Err(PlcReason::Edge);
    }
    if is_none(document, place, b"storage") {
        Ok(())
    } else {
        Err(PlcReason::Modifier)
    }
}

/// The same for all outputs of a block.
fn check_pins(document: &Document, parts: &[Part]) -> Result<(), PlcReason> {
    for part in parts {
        check_pin(document, part.inside)?;
    }
    Ok(())
}

/// Whether something is connected on the left of what a place is inside of.
fn is_connected(document: &Document, place: usize) -> bool {
    match child(document, place, b"connectionPointIn") {
        Some(point) => child(document, point, b"connection").is_some(),
        None => false,
    }
}

/// Whether a block can have a preset.
fn has_preset(kind: Option<BlockKind>, word: &[u8]) -> bool {
    match kind {
        Some(kind) => is_preset(kind, word),
        None => false,
    }
}

/// The element that has the preset of a block, where one is connected.
fn preset_in(
    diagram: &mut Diagram<'_>,
    place: usize,
    kind: Option<BlockKind>,
    number: Span,
) -> Result<Option<usize>, PlcFault> {
    let links = diagram.add_left(place, number)?;
    let connected = links.end.saturating_sub(links.start);
    let found = diagram.connections.at(links.start);
    // A preset is no power.
    diagram.connections.truncate(links.start);
    let Some(id) = found else {
        return Ok(None);
    };
    match diagram.nodes.at(id) {
        Some(node)
            if connected == 1
                && node.role == Role::Read
                && has_preset(kind, diagram.word(node.inside, b"expression")) => { Ok(Some(id)) }
        _ => Err(refused(number, PlcReason::Preset)),
    }
}

/// Reads an input of a block.
fn read_input(
    diagram: &mut Diagram<'_>,
    place: usize,
    arguments: &mut Arguments,
) -> Result<(), PlcFault> {
    let number = arguments.number;
    let document = diagram.document;
    if let Err(reason) = check_pin(document, place) {
        return Err(refused(number, reason));
    }
    let word = match attribute(document, place, b"formalParameter") {
        Some(word) => word,
        None => b"",
    };
    match input_called(arguments.kind, word) {
        Some(Input::First) if arguments.first.is_none() => {
            arguments.first = Some(diagram.add_left(place, number)?);
        }
        Some(Input::Second) if arguments.second.is_none() => {
            arguments.second = Some(diagram.add_left(place, number)?);
        }
        Some(Input::Preset) if arguments.preset.is_none() => {
            arguments.preset = preset_in(diagram, place, arguments.kind, number)?;
        }
        None if !is_connected(document, place) => {}
        _ => return Err(refused(number, PlcReason::Formal)),
    }
    Ok(())
}

/// Reads the inputs of a block.
fn read_inputs(
    diagram: &mut Diagram<'_>,
    parts: &[Part],
    arguments: &mut Arguments,
) -> Result<(), PlcFault> {
    for part in parts {
        if is_named(diagram.document, *part, b"variable") {
            read_input(diagram, part.inside, arguments)?;
        }
    }
    Ok(())
}

/// What is connected with the inputs of a block of a kind, or of a trigger.
fn arguments_of(
    diagram: &mut Diagram<'_>,
    node: Node,
    kind: Option<BlockKind>,
) -> Result<Arguments, PlcFault> {
    let mut arguments = Arguments {
        kind,
        number: node.number,
        first: None,
        second: None,
        preset: None,
    };
    let Some(inputs) = child(diagram.document, node.inside, b"inputVariables") else {
        return Ok(arguments);
    };
    let parts = parts_in(diagram.alloc, diagram.document, inputs)?;
    match read_inputs(diagram, &parts, &mut arguments) {
        Ok(()) => Ok(arguments),
        Err(fault) => Err(fault),
    }
}

/// Refuses a block with outputs that it doesn't have.
fn check_outputs(diagram: &Diagram<'_>, node: Node) -> Result<(), PlcFault> {
    let document = diagram.document;
    if let Some(both) = child(document, node.inside, b"inOutVariables") {
        if child(document, both, b"variable").is_some() {
            return Err(refused(node.number, PlcReason::Formal));
        }
    }
    let Some(outputs) = child(document, node.inside, b"outputVariables") else {
        return Ok(());
    };
    let parts = parts_in(diagram.alloc, document, outputs)?;
    match check_pins(document, &parts) {
        Ok(()) => Ok(()),
        Err(reason) => Err(refused(node.number, reason)),
    }
}

/// What a block does that is called.
fn call_of(diagram: &mut Diagram<'_>, node: Node, instance: Instance) -> Result<Deed, PlcFault> {
    let arguments = arguments_of(diagram, node, Some(instance.kind))?;
    if arguments.preset.is_none() && !inputs_of(instance.kind).preset.is_empty() {
        return Err(refused(node.number, PlcReason::NoPreset));
    }
    Ok(Deed {
        effect: Effect::Call {
            instance: instance.number,
            first: arguments.first.unwrap_or(UNCONNECTED),
            second: arguments.second.unwrap_or(UNCONNECTED),
        },
        preset: arguments.preset,
    })
}

/// What a block does that is a trigger. Its memory is counted later.
fn trigger_of(diagram: &mut Diagram<'_>, node: Node, trigger: Trigger) -> Result<Deed, PlcFault> {
    let arguments = arguments_of(diagram, node, None)?;
    Ok(Deed {
        effect: Effect::Trigger {
            output: trigger.number,
            memory: 0,
            falling: trigger.edge.is_falling(),
            left: arguments.first.unwrap_or(UNCONNECTED),
        },
        preset: None,
    })
}

/// What a block does.
fn block_deed(diagram: &mut Diagram<'_>, node: Node) -> Result<Deed, PlcFault> {
    check_outputs(diagram, node)?;
    match (node.instance, node.trigger) {
        (Some(instance), _) => call_of(diagram, node, instance),
        (None, Some(trigger)) => trigger_of(diagram, node, trigger),
        (None, None) => Err(refused(node.number, PlcReason::Block)),
    }
}

/// What a coil does. One with an edge does so by the output of its trigger.
fn coil_of(diagram: &Diagram<'_>, node: Node, id: usize) -> Result<Effect, PlcFault> {
    let kind = match coil_kind(diagram.document, node) {
        Ok(kind) => kind,
        Err(reason) => return Err(refused(node.number, reason)),
    };
    let left = match diagram.elements.at(id) {
        Some(Element::Coil { left }) => left,
        _ => UNCONNECTED,
    };
    Ok(Effect::Coil {
        variable: diagram.variable_in(node, b"variable")?,
        kind,
        left,
    })
}

/// What an element does, if it does something.
fn deed_of(diagram: &mut Diagram<'_>, node: Node, id: usize) -> Result<Option<Deed>, PlcFault> {
    let effect = match node.role {
        Role::Coil => coil_of(diagram, node, id)?,
        Role::Write => Effect::Coil {
            variable: diagram.variable_in(node, b"expression")?,
            kind: CoilKind::Plain,
            left: diagram.add_left(node.inside, node.number)?,
        },
        Role::Return => Effect::Return {
            left: diagram.add_left(node.inside, node.number)?,
        },
        Role::Block => return Ok(Some(block_deed(diagram, node)?)),
        Role::Jump => Effect::Jump {
            over: 0,
            left: diagram.add_left(node.inside, node.number)?,
        },
        Role::Label => Effect::Label,
        _ => return Ok(None),
    };
    Ok(Some(Deed {
        effect,
        preset: None,
    }))
}

/// Whether an element has a number in the order.
fn is_numbered(document: &Document, node: Node) -> Result<bool, PlcFault> {
    match number_of(document, node.inside, b"executionOrderId") {
        Ok(execution) => Ok(execution != 0),
        Err(reason) => Err(refused(node.number, reason)),
    }
}

impl Actions {
    /// Nothing acts.
    pub(crate) fn new(alloc: Global) -> Actions {
        Actions {
            items: Table::new(alloc),
            are_numbered: true,
        }
    }

    /// Looks whether an element has a number in the order, if it acts; a label needs none.
    fn look_at_number(&mut self, document: &Document, node: Node) -> Result<(), PlcFault> {
        let acts = matches!(
            node.role,
            Role::Coil
                | Role::Block
                | Role::Write
                | Role::Return
                | Role::Jump
                | Role::Unknown
                | Role::Unwritten
        );
        if acts && !is_numbered(document, node)? {
            self.are_numbered = false;
        }
        Ok(())
    }

    /// Adds what an element does, if it does something.
    fn add_one(
        &mut self,
        diagram: &mut Diagram<'_>,
        node: Node,
        id: usize,
    ) -> Result<(), PlcFault> {
        let found = deed_of(diagram, node, id)?;
        self.look_at_number(diagram.document, node)?;
        let Some(deed) = found else {
            return Ok(());
        };
        match turn_of(diagram.document, node, id) {
            Ok(turn) => {
                self.items.push(Action { turn, deed });
                Ok(())
            }
            Err(reason) => Err(refused(node.number, reason)),
        }
    }

    /// Adds what the elements of a diagram do.
    pub(crate) fn add(&mut self, diagram: &mut Diagram<'_>) -> Result<(), PlcFault> {
        for id in 0..diagram.nodes.len() {
            if let Some(node) = diagram.nodes.at(id) {
                self.add_one(diagram, node, id)?;
            }
        }
        Ok(())
    }
}
