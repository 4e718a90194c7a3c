//! A project with one program.

use crate::diagram::Diagram;
use crate::text::Text;
use io_table::Table;
use st_program::StProgram;
use std::alloc::{AllocError, Global};

/// What a project begins with, up to its name.
const HEAD: &[u8] = b"<?xml version=\"1.0\" encoding=\"utf-8\"?>
<project xmlns=\"http://www.plcopen.org/xml/tc6_0201\" xmlns:xhtml=\"http://www.w3.org/1999/xhtml\">
  <fileHeader companyName=\"\" productName=\"ladder\" productVersion=\"1\" creationDateTime=\"2000-01-01T00:00:00\"/>
  <contentHeader name=\"";

/// What stands between the name of a project and that of its program.
const TYPES: &[u8] = b"\" modificationDateTime=\"2000-01-01T00:00:00\">
    <coordinateInfo>
      <fbd><scaling x=\"0\" y=\"0\"/></fbd>
      <ld><scaling x=\"0\" y=\"0\"/></ld>
      <sfc><scaling x=\"0\" y=\"0\"/></sfc>
    </coordinateInfo>
  </contentHeader>
  <types>
    <dataTypes/>
    <pous>
      <pou name=\"";

/// What stands in front of the variables.
const INTERFACE: &[u8] = b"\" pouType=\"program\">
        <interface><localVars>
";

/// What stands between the variables and the elements.
const BODY: &[u8] = b"        </localVars></interface>
        <body><LD>
";

/// What stands behind the elements, up to the name of the program that is run.
const INSTANCES: &[u8] = b"        </LD></body>
      </pou>
    </pous>
  </types>
  <instances>
    <configurations>
      <configuration name=\"Config0\">
        <resource name=\"Res0\">
          <task name=\"task0\" priority=\"0\" interval=\"T#20ms\">
            <pouInstance name=\"instance0\" typeName=\"";

/// What a project ends with.
const TAIL: &[u8] = b"\"/>
          </task>
        </resource>
      </configuration>
    </configurations>
  </instances>
</project>
";

impl Diagram<'_> {
    /// Writes the whole project, whose program has a name.
    fn write_project(&mut self, name: &[u8]) {
        let program = self.program;
        self.out.add(HEAD);
        self.out.add(name);
        self.out.add(TYPES);
        self.out.add(name);
        self.out.add(INTERFACE);
        self.write_declarations();
        self.out.add(BODY);
        self.write_statements(&program.statements);
        self.out.add(INSTANCES);
        self.out.add(name);
        self.out.add(TAIL);
    }
}

/// The project of a program that was read from a text, and has a name.
///
/// A statement that no element of a ladder diagram is left out. Nothing is promised of what is written.
///
/// # Errors
///
/// `AllocError` when out of memory.
pub fn write_plc(
    alloc: Global,
    text: &[u8],
    program: &StProgram,
    name: &[u8],
) -> Result<Vec<u8>, AllocError> {
    let mut diagram = Diagram::new(alloc, text, program);
    diagram.write_project(name);
    let is_whole = diagram.is_whole();
    let Diagram {
        out: Text {
            bytes: Table { items, .. },
        },
        ..
    } = diagram;
    if is_whole { Ok(items) } else { Err(AllocError) }
}
