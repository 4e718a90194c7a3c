//! The interface of a program.

use crate::diagram::Diagram;
use st_program::{Sort, StInstance, StVariable, bytes_of};

impl Diagram<'_> {
    /// Writes the variable of a BOOL.
    fn write_variable(&mut self, variable: StVariable) {
        if variable.sort != Sort::Bool {
            return;
        }
        self.out.add(b"          <variable");
        self.out
            .attribute(b"name", bytes_of(self.text, variable.name));
        if let Some(address) = variable.address {
            self.out.attribute(b"address", bytes_of(self.text, address));
        }
        self.out.add(b"><type><BOOL/></type>");
        if variable.initial {
            self.out.add(b"<initialValue><simpleValue value=\"TRUE\"/></initialValue>");
        }
        self.out.add(b"</variable>\n");
    }

    /// Writes the variable of a block. Its preset stands beside the block.
    fn write_instance(&mut self, instance: StInstance) {
        self.out.add(b"          <variable");
        self.out
            .attribute(b"name", bytes_of(self.text, instance.name));
        self.out.add(b"><type><derived");
        self.out.attribute(b"name", instance.kind.traits().word);
        self.out.add(b"/></type></variable>\n");
    }

    /// Writes the variables of a program, and then its blocks.
    pub(crate) fn write_declarations(&mut self) {
        let program = self.program;
        for variable in &program.variables {
            self.write_variable(*variable);
        }
        for instance in &program.instances {
            self.write_instance(*instance);
        }
    }
}
