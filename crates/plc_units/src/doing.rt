//! Whether a program in Structured Text does what a program of a project does.

ghost use Rattle.std.specs.Prelude.{◌≡◌, IfOk, IsTrue, List, option_map};
ghost use Rattle.xml_document.specs.Items.{Item};
ghost use Rattle.xml_parts.specs.Parts.{items_from, parts_in};
ghost use Rattle.plc_elements.specs.Elements.{parts_of};
ghost use Rattle.plc_units.specs.Doing.{Declares, DoesBody, DoesUnit, MayBeOpen};

use crate::added::are_added;
use crate::unit::Unit;
use network_check::is_run;
use network_power::Network;
use plc_declarations::is_interface;
use plc_elements::{Body, Leading, Names, is_body};
use plc_text::PlcText;
use st_program::StProgram;
use std::alloc::{AllocError, Global};
use xml_document::Document;
use xml_parts::parts;

/// Whether some outputs are open, where they may be.
fn may_be_open(is_open: bool, opened: &[usize]) -> bool
    ensures { IsTrue result → MayBeOpen is_open opened.now }
{
    is_open || opened.is_empty()
}

/// Whether a program declares what an interface declares, and what a body has beside it.
fn declares(
    alloc: Global,
    interface: Option<usize>,
    body: Body<'_>,
    text: &[u8],
    program: &StProgram,
) -> Result<bool, AllocError>
    ensures { IfOk result (λ declares. IsTrue declares → Declares body.entry.is_open (option_map (items_from body.entry.document.now) interface) body.entry text.now program.now) }
{
    let document = body.document;
    let declared = body.names.declared;
    let variables = program.variables.as_slice();
    if declared > variables.len() {
        return Ok(false);
    }
    let first = &variables[..declared];
    if !is_interface(alloc, document, interface, text, first, &program.instances)? {
        return Ok(false);
    }
    Ok(
        may_be_open(body.is_open, body.opened)
            && are_added(body, body.edges, body.opened, &variables[declared..]),
    )
}

/// Whether the statements of a program do what the parts of a body do.
fn does_body(
    alloc: Global,
    body: Body<'_>,
    plc: &PlcText,
    program: &StProgram,
) -> Result<bool, AllocError>
    ensures { IfOk result (λ does. IsTrue does → (inside : List Item) → parts_of body.entry ≡ parts_in inside → DoesBody body.entry inside program.now) }
{
    let effects = plc.effects.as_slice();
    let leading = Leading {
        firsts: &plc.firsts,
        nexts: &plc.nexts,
    };
    Ok(
        is_body(alloc, body, &plc.order, effects, leading)?
            && is_run(body.network, effects, &program.statements),
    )
}

/// Whether a program in Structured Text, read from a text, declares and does what a unit does, by what is said of its elements: `plc` says what each
/// of them is, and its own text is passed over. With `is_open` outputs of blocks that aren't known are inputs of the program. `false` says nothing.
///
/// # Errors
///
/// Memory runs out.
pub fn does_unit(
    alloc: Global,
    document: &Document,
    unit: Unit,
    is_open: bool,
    text: &[u8],
    plc: &PlcText,
    program: &StProgram,
) -> Result<bool, AllocError>
    ensures { IfOk result (λ does. IsTrue does → DoesUnit is_open (option_map (items_from document.now) unit.interface) (items_from document.now unit.body) text.now program.now) }
{
    let parts = parts(alloc, document, unit.body)?;
    let body = Body {
        document,
        parts: &parts,
        network: Network {
            elements: &plc.elements,
            connections: &plc.connections,
        },
        names: Names {
            text,
            variables: &program.variables,
            instances: &program.instances,
            declared: plc.declared,
        },
        edges: &plc.edges,
        opened: &plc.opened,
        is_open,
    };
    if !declares(alloc, unit.interface, body, text, program)? {
        return Ok(false);
    }
    Ok(does_body(alloc, body, plc, program)?)
}
