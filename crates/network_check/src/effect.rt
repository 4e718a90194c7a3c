//! What the elements of a network do.

use network_power::Links;

/// The kinds of coils.
#[derive(Clone, Copy)]
pub enum CoilKind {
    Plain,
    Negated,
    Set,
    Reset,
}

/// What an element does by the power on its left. Variables, memories and instances go by their numbers.
#[derive(Clone, Copy)]
pub enum Effect {
    /// A coil writes its variable.
    Coil {
        variable: usize,
        kind: CoilKind,
        left: Links,
    },
    /// An `R_TRIG` or an `F_TRIG` is called: `output` is on where the power on its left has come, or has gone. An edge coil is one. So is an
    /// edge contact: its operand is connected on the left as an output is, and a contact on `output` takes its place.
    Trigger {
        output: usize,
        memory: usize,
        falling: bool,
        left: Links,
    },
    /// A block is called, by what is connected on the left of its two inputs: nothing with one that it doesn't have.
    Call {
        instance: usize,
        first: Links,
        second: Links,
    },
    /// A return: where it has power, nothing behind it is done.
    Return {
        left: Links,
    },
    /// A jump: where it has power, so many elements behind it do nothing.
    Jump {
        over: usize,
        left: Links,
    },
    /// A label, which jumps lead to.
    Label,
}
