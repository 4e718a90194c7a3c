//! Every name of the public crates that callers are promised; those of `ladder_tool` are looked for by `tests/references.py`, since a crate above it
//! takes long to check.

pub use ladder_causes::{CauseFault, Causes, Tri, Word64};
pub use ladder_grid::{Cell, CoilMode, GridFault, Joint, Mode, Operand, Program, read_program};
pub use ladder_scan::laws::{histories, related};
pub use ladder_scan::{Memory, MomentBack, Relation, Signal, State, Work, look, scan};
pub use ladder_sim::{
    ReadFault, SimFault, Sink, Source, StateFault, Summary, WriteFault, read_state, read_text,
    simulate, write_causes, write_state, write_uses,
};
pub use ladder_vars::{
    Address, BlockKind, Decls, Instance, Name, Symbol, Var, VarFault, VarKind, read_decls,
    read_time,
};
