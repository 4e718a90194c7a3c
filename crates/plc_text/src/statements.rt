//! The text of a program.

use crate::action::{Action, Deed};
use crate::blocks::{CLOCK, inputs_of};
use crate::diagram::{Diagram, refused};
use crate::fault::{PlcFault, PlcReason};
use crate::jumps::Opens;
use crate::made::{Made, Purpose};
use crate::symbols::{List, Sort, Variable};
use crate::text::Text;
use network_check::{CoilKind, Effect};
use network_power::Links;
use xml_parts::bytes_at;

/// What is said where inputs stand for outputs of blocks that aren't known.
const OPENED: &[u8] =
    b"(* Opened: inputs of any value stand for outputs of blocks that aren't known.
   The program can do all that the project can, and perhaps more. *)
";

impl<'d> Diagram<'d> {
    /// Writes the declaration of a variable.
    fn write_variable(&self, out: &mut Text, variable: Variable) {
        if matches!(variable.sort, Sort::Other) {
            return;
        }
        let address = bytes_at(&self.document.bytes, variable.address);
        out.add(b"  ");
        out.add(bytes_at(&self.document.bytes, variable.name));
        out.add_if(!address.is_empty(), b" AT ");
        out.add(address);
        out.add(b" : ");
        match variable.sort {
            Sort::Bool { initial, .. } => {
                out.add(b"BOOL");
                out.add_if(initial, b" := TRUE");
            }
            Sort::Trigger(trigger) => out.add(trigger.edge.word()),
            Sort::Block(instance) => out.add(instance.kind.traits().word),
            Sort::Other => {}
        }
        out.add(b";\n");
    }

    /// Whether the text has a variable of a list.
    fn has_declared(&self, list: List) -> bool {
        for number in list.from..list.to {
            if let Some(variable) = self.symbols.variables.at(number) {
                if !matches!(variable.sort, Sort::Other) {
                    return true;
                }
            }
        }
        false
    }

    /// Writes the declarations of a list, if there are any.
    fn write_list(&self, out: &mut Text, list: List) {
        if !self.has_declared(list) {
            return;
        }
        out.add(list.word);
        out.add(b"\n");
        for number in list.from..list.to {
            if let Some(variable) = self.symbols.variables.at(number) {
                self.write_variable(out, variable);
            }
        }
        out.add(b"END_VAR\n");
    }

    /// Writes the declaration of a variable that the interface doesn't declare.
    fn write_made(&self, out: &mut Text, made: Made) {
        out.add(b"  ");
        out.add(bytes_at(self.symbols.spellings.items(), made.name));
        out.add(b" : ");
        match made.purpose {
            Purpose::Trigger(edge) => out.add(edge.word()),
            Purpose::Input => out.add(b"BOOL"),
        }
        out.add(b";\n");
    }

    /// Writes the declarations of the triggers of edges, if there are any.
    fn write_triggers(&self, out: &mut Text) {
        out.add_if(self.edges.len() > 0, b"VAR\n");
        for made in self.symbols.made.items() {
            if matches!(made.purpose, Purpose::Trigger(_)) {
                self.write_made(out, *made);
            }
        }
        out.add_if(self.edges.len() > 0, b"END_VAR\n");
    }

    /// Writes the declarations of the inputs of any value, if there are any.
    fn write_inputs(&self, out: &mut Text) {
        out.add_if(self.opened.len() > 0, b"VAR_INPUT\n");
        for made in self.symbols.made.items() {
            if matches!(made.purpose, Purpose::Input) {
                self.write_made(out, *made);
            }
        }
        out.add_if(self.opened.len() > 0, b"END_VAR\n");
        out.add_if(self.opened.len() > 0, OPENED);
    }

    /// Writes the name of a program and its declarations.
    fn write_head(&self, out: &mut Text) {
        let name = self.symbols.program_name();
        out.add(b"PROGRAM ");
        out.add(name);
        out.add_if(self.symbols.find(name).is_some(), b"_1");
        out.add(b"\n");
        for list in self.symbols.lists.items() {
            self.write_list(out, *list);
        }
        self.write_triggers(out);
        self.write_inputs(out);
        out.add(b"\n");
    }

    /// Writes an assignment of the power, or of its inverse.
    fn write_assignment(
        &self,
        out: &mut Text,
        variable: usize,
        inverse: bool,
        left: Links,
    ) -> Result<(), PlcFault> {
        out.add(self.symbols.variable_name(variable));
        out.add(b" := ");
        out.add_if(inverse, b"NOT (");
        self.write_power(out, left)?;
        out.add_if(inverse, b")");
        out.add(b";\n");
        Ok(())
    }

    /// Writes an `IF` that switches a variable on, or off.
    fn write_latch(
        &self,
        out: &mut Text,
        variable: usize,
        on: bool,
        left: Links,
    ) -> Result<(), PlcFault> {
        out.add(b"IF ");
        self.write_power(out, left)?;
        out.add(b" THEN ");
        out.add(self.symbols.variable_name(variable));
        out.add(if on { b" := TRUE" } else { b" := FALSE" });
        out.add(b"; END_IF;\n");
        Ok(())
    }

    /// Writes an argument of a call, if the block has it.
    fn write_argument(
        &self,
        out: &mut Text,
        before: &[u8],
        input: &[u8],
        links: Links,
    ) -> Result<(), PlcFault> {
        if input.is_empty() {
            return Ok(());
        }
        out.add(before);
        out.add(input);
        out.add(b" := ");
        self.write_power(out, links)
    }

    /// Writes the preset of a call, if it has one.
    fn write_preset(&self, out: &mut Text, input: &[u8], preset: Option<usize>) {
        let Some(id) = preset else {
            return;
        };
        if let Some(node) = self.nodes.at(id) {
            out.add(b", ");
            out.add(input);
            out.add(b" := ");
            out.add(self.word(node.inside, b"expression"));
        }
    }

    /// Writes the call of a block.
    fn write_call(
        &self,
        out: &mut Text,
        instance: usize,
        first: Links,
        second: Links,
        preset: Option<usize>,
    ) -> Result<(), PlcFault> {
        let Some(kind) = self.symbols.block(instance) else {
            return Ok(());
        };
        let inputs = inputs_of(kind);
        out.add(self.symbols.block_name(instance));
        self.write_argument(out, b"(", inputs.first, first)?;
        self.write_argument(out, b", ", inputs.second, second)?;
        self.write_preset(out, inputs.preset, preset);
        out.add(b");\n");
        Ok(())
    }

    /// Writes the call of a trigger.
    fn write_trigger(&self, out: &mut Text, output: usize, left: Links) -> Result<(), PlcFault> {
        out.add(self.symbols.variable_name(output));
        self.write_argument(out, b"(", CLOCK, left)?;
        out.add(b");\n");
        Ok(())
    }

    /// Writes an `IF` with a return.
    fn write_return(&self, out: &mut Text, left: Links) -> Result<(), PlcFault> {
        out.add(b"IF ");
        self.write_power(out, left)?;
        out.add(b" THEN RETURN; END_IF;\n");
        Ok(())
    }

    /// Writes what an element does.
    fn write_deed(&self, out: &mut Text, deed: Deed) -> Result<(), PlcFault> {
        match deed.effect {
            Effect::Coil {
                variable,
                kind,
                left,
            } => match kind {
                CoilKind::Plain => self.write_assignment(out, variable, false, left),
                CoilKind::Negated => self.write_assignment(out, variable, true, left),
                CoilKind::Set => self.write_latch(out, variable, true, left),
                CoilKind::Reset => self.write_latch(out, variable, false, left),
            },
            Effect::Call {
                instance,
                first,
                second,
            } => self.write_call(out, instance, first, second, deed.preset),
            Effect::Return { left } => self.write_return(out, left),
            Effect::Trigger { output, left, .. } => self.write_trigger(out, output, left),
            // A jump and a label are what is around others.
            Effect::Jump { .. } | Effect::Label => Ok(()),
        }
    }

    /// Writes what the element does that acts at a place in the order.
    fn write_action(
        &self,
        out: &mut Text,
        opens: &mut Opens,
        place: usize,
        action: Action,
    ) -> Result<(), PlcFault> {
        opens.end(out, place);
        let Effect::Jump { over, left } = action.deed.effect else {
            return self.write_deed(out, action.deed);
        };
        if opens.write_jump(self, out, place, over, left)? {
            Ok(())
        } else {
            Err(refused(self.number(action.turn.place), PlcReason::Jump))
        }
    }

    /// Writes the whole program.
    pub(crate) fn write(
        &self,
        out: &mut Text,
        opens: &mut Opens,
        ordered: &[Action],
    ) -> Result<(), PlcFault> {
        self.write_head(out);
        for (place, action) in ordered.iter().enumerate() {
            self.write_action(out, opens, place, *action)?;
        }
        opens.end(out, ordered.len());
        out.add(b"END_PROGRAM\n");
        Ok(())
    }
}
