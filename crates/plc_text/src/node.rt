//! The elements of a diagram, as the document has them.

use crate::edge::Edge;
use crate::fault::PlcReason;
use crate::symbols::{Instance, Trigger};
use crate::xml::{is_none, is_on};
use xml_document::{Document, Span};

/// What an element is, by its name.
#[derive(Clone, Copy, PartialEq, Eq)]
pub(crate) enum Role {
    Rail,
    Contact,
    Coil,
    Block,
    Read,
    Write,
    Return,
    Jump,
    Label,
    /// A block that isn't known: its outputs may have any value.
    Unknown,
    /// It writes what the text doesn't have, and is left out.
    Unwritten,
    /// It has no power, and does nothing.
    Still,
}

/// The name of an element, and what it is.
struct RoleName {
    name: &'static [u8],
    role: Role,
}

/// An element.
#[derive(Clone, Copy)]
pub(crate) struct Node {
    pub role: Role,
    /// The place behind its name.
    pub inside: usize,
    /// Its `localId`; no bytes where it has none.
    pub number: Span,
    /// The block that it is.
    pub instance: Option<Instance>,
    /// The trigger that it calls, where it is a block.
    pub trigger: Option<Trigger>,
    /// The edge of its power that a coil acts by, or of its variable that a contact lets power through by.
    pub edge: Option<Edge>,
}

/// The elements that are known.
const ROLES: [RoleName; 13] = [
    RoleName {
        name: b"leftPowerRail",
        role: Role::Rail,
    },
    RoleName {
        name: b"contact",
        role: Role::Contact,
    },
    RoleName {
        name: b"coil",
        role: Role::Coil,
    },
    RoleName {
        name: b"block",
        role: Role::Block,
    },
    RoleName {
        name: b"inVariable",
        role: Role::Read,
    },
    RoleName {
        name: b"outVariable",
        role: Role::Write,
    },
    RoleName {
        name: b"return",
        role: Role::Return,
    },
    RoleName {
        name: b"jump",
        role: Role::Jump,
    },
    RoleName {
        name: b"rightPowerRail",
        role: Role::Still,
    },
    RoleName {
        name: b"label",
        role: Role::Label,
    },
    RoleName {
        name: b"comment",
        role: Role::Still,
    },
    RoleName {
        name: b"vendorElement",
        role: Role::Still,
    },
    RoleName {
        name: b"connector",
        role: Role::Still,
    },
];

/// What an element is by its name, if it is known.
pub(crate) fn role_of(name: &[u8]) -> Option<Role> {
    for known in &ROLES {
        if known.name == name {
            return Some(known.role);
        }
    }
    None
}

/// Whether an element is left out, so that nothing is asked of its power.
fn is_left_out(role: Role) -> bool {
    matches!(role, Role::Unknown | Role::Unwritten)
}

/// Whether an element has the edge of a contact or a coil, or none.
fn check_edge(document: &Document, node: Node) -> Result<(), PlcReason> {
    let has_edge = matches!(node.role, Role::Contact | Role::Coil);
    if has_edge || is_none(document, node.inside, b"edge") {
        Ok(())
    } else {
        Err(PlcReason::Edge)
    }
}

/// Whether an element is negated, where it can be. It has no storage but a coil, and none of both with an edge.
pub(crate) fn is_negated(document: &Document, node: Node) -> Result<bool, PlcReason> {
    if is_left_out(node.role) {
        return Ok(false);
    }
    let negated = is_on(document, node.inside, b"negated")?;
    check_edge(document, node)?;
    let is_plain = node.edge.is_none();
    if negated && !(is_plain && matches!(node.role, Role::Contact | Role::Coil)) {
        return Err(PlcReason::Modifier);
    }
    if !is_none(document, node.inside, b"storage") && !(is_plain && node.role == Role::Coil) {
        return Err(PlcReason::Modifier);
    }
    Ok(negated)
}
