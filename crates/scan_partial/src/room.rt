//! The buffers of a scan over what is known.

ghost use Rattle.std.specs.Prelude.{◌≡◌, length, IfOk};
ghost use Rattle.scan_partial.specs.Sizes.{IsSpareFor};

use diagram_program::Program;
use diagram_program::gates::LINKS;
use scan_cycle::Memory;
use scan_cycle::image::Image;
use scan_signals::Operations;
use std::alloc::Global;
use std::marker::Model;

/// The buffers of a scan: what contacts see, the links of a rung, and for each rung whether its jump is taken.
#[derive(Drop)]
pub struct Room<S> {
    pub(crate) start: Image<S>,
    pub(crate) links: Vec<S>,
    pub(crate) taken: Vec<S>,
}

impl<S> Model for Room<S> {
    ghost use Rattle.std.specs.Prelude.{◌≡◌, length};
    ghost use Rattle.diagram_program.specs.declared.gates.TheConstants.{LINKS};
    ghost use Rattle.scan_partial.specs.Sizes.{Spare};

    ghost Value = { Spare };

    ghost view = { λ r. record { variables = length r.start.values; instances = length r.start.ends; rungs = length r.taken.items } };

    ghost invariant = { λ r. length r.links.items ≡ LINKS };
}

impl<S: Operations> Room<S> {
    /// The buffers that scans of the program need.
    ///
    /// # Errors
    ///
    /// `Memory` when out of memory.
    pub fn new(alloc: Global, program: &Program) -> Result<Room<S>, Memory>
        ensures { IfOk result (λ r. IsSpareFor program.now r) }
    {
        let decls = program.decls();
        Ok(Room {
            start: Image::new(alloc, decls.vars().len(), decls.instances().len())?,
            links: vec![in alloc; S::known(false); LINKS]?,
            taken: vec![in alloc; S::known(false); program.rungs()]?,
        })
    }
}
