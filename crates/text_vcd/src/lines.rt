//! The lines for each variable and each instance: its declaration, its value, or its change.

ghost use Rattle.std.specs.Prelude.{◌≡◌, ◌++◌, codes, decimal, length};
ghost use Rattle.io_text.specs.Buffer.{Sends};
ghost use Rattle.diagram_declarations.specs.declared.decls.Symbol.TheVariants.{Instance, Var};
ghost use Rattle.text_power.specs.Show.{each};
ghost use Rattle.diagram_declarations.specs.Decls.{instance_name};
ghost use Rattle.text_vcd.specs.Lines.{line_of};
ghost use Rattle.text_vcd.specs.Waves.{change_line, declaration, for_each, output_name, scope_line, value_line, value_of, wire_line};

use diagram_declarations::{Decls, Output, Symbol};
use io_text::{Piece, Sink, TextBuffer, WriteFault, add_pieces};
use scan_cycle::State;

/// Which line is written for each variable and each instance.
#[derive(Clone, Copy)]
pub(crate) enum Lines<'a> {
    /// Its declaration.
    Declarations,
    /// Its value in a state.
    Values(&'a State),
    /// Its value in the second state, where it has another one in the first.
    Changes(&'a State, &'a State),
}

/// The name of an instance's output, Q or Q1, as its wire is called.
fn output_name(decls: &Decls, inst: usize) -> &'static [u8]
    ensures { result.now ≡ output_name decls.now inst }
{
    match decls.instances().get(inst) {
        Some(instance) => match instance.kind.traits().output {
            Output::Q => b"Q",
            Output::Q1 => b"Q1",
        },
        None => b"",
    }
}

/// The value of a variable, or the output of an instance.
fn value_of(state: &State, symbol: Symbol) -> bool
    ensures { result ≡ value_of state.now symbol }
{
    match symbol {
        Symbol::Var(number) => state.value_or_off(number),
        Symbol::Instance(number) => state.stored(number).q(),
    }
}

/// Adds a line that ends with a number.
pub(crate) fn add_number<W: Sink>(
    buffer: &mut TextBuffer,
    begin: &[u8],
    number: u64,
    writer: &mut W,
) -> Result<(), WriteFault>
    ensures { Sends (W.log writer.old) (W.log writer.new) buffer.old buffer.new result (begin.now ++ (decimal number ++ codes "\n")) }
{
    let pieces = [
        Piece::Text(begin),
        Piece::Number(number),
        Piece::Text(b"\n"),
    ];
    add_pieces(buffer, pieces.as_slice(), writer)
}

/// Adds the line that declares a wire, with its code and its name.
fn add_wire<'a, W: Sink>(
    buffer: &mut TextBuffer,
    begin: &'a [u8],
    number: usize,
    name: &'a [u8],
    writer: &mut W,
) -> Result<(), WriteFault>
    ensures { Sends (W.log writer.old) (W.log writer.new) buffer.old buffer.new result (begin.now ++ (decimal number ++ (codes " " ++ (name.now ++ codes " $end\n")))) }
{
    let pieces = [
        Piece::Text(begin),
        Piece::Number(number as u64),
        Piece::Text(b" "),
        Piece::Text(name),
        Piece::Text(b" $end\n"),
    ];
    add_pieces(buffer, pieces.as_slice(), writer)
}

/// Adds the line that begins the scope of an instance, in which its output is declared.
fn add_scope<W: Sink>(
    buffer: &mut TextBuffer,
    decls: &Decls,
    inst: usize,
    writer: &mut W,
) -> Result<(), WriteFault>
    ensures { Sends (W.log writer.old) (W.log writer.new) buffer.old buffer.new result (scope_line (instance_name decls.now inst)) }
{
    let pieces = [
        Piece::Text(b"$scope module "),
        Piece::Text(decls.instance_name(inst)),
        Piece::Text(b" $end\n"),
    ];
    add_pieces(buffer, pieces.as_slice(), writer)
}

/// Adds the declaration of a variable: its code is `v` and its number.
fn add_var<W: Sink>(
    buffer: &mut TextBuffer,
    decls: &Decls,
    var: usize,
    writer: &mut W,
) -> Result<(), WriteFault>
    ensures { Sends (W.log writer.old) (W.log writer.new) buffer.old buffer.new result (declaration decls.now (Var var)) }
{
    add_wire(buffer, b"$var wire 1 v", var, decls.var_name(var), writer)
}

/// Adds the declaration of an instance's output: its code is `i` and the number of the instance.
fn add_output<W: Sink>(
    buffer: &mut TextBuffer,
    decls: &Decls,
    inst: usize,
    writer: &mut W,
) -> Result<(), WriteFault>
    ensures { Sends (W.log writer.old) (W.log writer.new) buffer.old buffer.new result (wire_line (Instance inst) (output_name decls.now inst)) }
{
    add_wire(
        buffer,
        b"$var wire 1 i",
        inst,
        output_name(decls, inst),
        writer,
    )
}

/// Adds the declaration of an instance: a scope with its output.
fn add_instance<W: Sink>(
    buffer: &mut TextBuffer,
    decls: &Decls,
    inst: usize,
    writer: &mut W,
) -> Result<(), WriteFault>
    ensures { Sends (W.log writer.old) (W.log writer.new) buffer.old buffer.new result (declaration decls.now (Instance inst)) }
{
    add_scope(buffer, decls, inst, writer)?;
    add_output(buffer, decls, inst, writer)?;
    buffer.add(b"$upscope $end\n", writer)
}

/// Adds the declaration of a variable or of an instance.
fn add_declaration<W: Sink>(
    buffer: &mut TextBuffer,
    decls: &Decls,
    symbol: Symbol,
    writer: &mut W,
) -> Result<(), WriteFault>
    ensures { Sends (W.log writer.old) (W.log writer.new) buffer.old buffer.new result (declaration decls.now symbol) }
{
    match symbol {
        Symbol::Var(var) => add_var(buffer, decls, var, writer),
        Symbol::Instance(inst) => add_instance(buffer, decls, inst, writer),
    }
}

/// Adds the value of a variable or of an instance's output.
fn add_value<W: Sink>(
    buffer: &mut TextBuffer,
    symbol: Symbol,
    value: bool,
    writer: &mut W,
) -> Result<(), WriteFault>
    ensures { Sends (W.log writer.old) (W.log writer.new) buffer.old buffer.new result (value_line symbol value) }
{
    match (symbol, value) {
        (Symbol::Var(var), true) => add_number(buffer, b"1v", var as u64, writer),
        (Symbol::Var(var), false) => add_number(buffer, b"0v", var as u64, writer),
        (Symbol::Instance(inst), true) => add_number(buffer, b"1i", inst as u64, writer),
        (Symbol::Instance(inst), false) => add_number(buffer, b"0i", inst as u64, writer),
    }
}

/// Adds the value of a variable or output after a scan, where the scan has changed it.
fn add_change<W: Sink>(
    buffer: &mut TextBuffer,
    before: &State,
    after: &State,
    symbol: Symbol,
    writer: &mut W,
) -> Result<(), WriteFault>
    ensures { Sends (W.log writer.old) (W.log writer.new) buffer.old buffer.new result (change_line before.now after.now symbol) }
{
    let value = value_of(after, symbol);
    if value_of(before, symbol) == value {
        return buffer.add(b"", writer);
    }
    add_value(buffer, symbol, value, writer)
}

/// Adds the line of one variable or instance, of the kind that is written.
fn add_line<W: Sink>(
    buffer: &mut TextBuffer,
    decls: &Decls,
    lines: Lines<'_>,
    symbol: Symbol,
    writer: &mut W,
) -> Result<(), WriteFault>
    ensures { Sends (W.log writer.old) (W.log writer.new) buffer.old buffer.new result (line_of decls.now lines.entry symbol) }
{
    match lines {
        Lines::Declarations => add_declaration(buffer, decls, symbol, writer),
        Lines::Values(state) => add_value(buffer, symbol, value_of(state, symbol), writer),
        Lines::Changes(before, after) => add_change(buffer, before, after, symbol, writer),
    }
}

/// Adds the lines of all variables, in order of declaration.
fn add_var_lines<W: Sink>(
    buffer: &mut TextBuffer,
    decls: &Decls,
    lines: Lines<'_>,
    writer: &mut W,
) -> Result<(), WriteFault>
    ensures { Sends (W.log writer.old) (W.log writer.new) buffer.old buffer.new result (each (λ n. line_of decls.now lines.entry (Var n)) (length decls.now.vars)) }
{
    let vars = decls.vars();
    for number in 0..vars.len() {
        add_line(buffer, decls, lines, Symbol::Var(number), writer)?;
    }
    Ok(())
}

/// Adds the lines of all instances, in order of declaration.
fn add_instance_lines<W: Sink>(
    buffer: &mut TextBuffer,
    decls: &Decls,
    lines: Lines<'_>,
    writer: &mut W,
) -> Result<(), WriteFault>
    ensures { Sends (W.log writer.old) (W.log writer.new) buffer.old buffer.new result (each (λ n. line_of decls.now lines.entry (Instance n)) (length decls.now.instances)) }
{
    let instances = decls.instances();
    for number in 0..instances.len() {
        add_line(buffer, decls, lines, Symbol::Instance(number), writer)?;
    }
    Ok(())
}

/// Adds the lines of the variables, and then those of the instances.
pub(crate) fn add_lines<W: Sink>(
    buffer: &mut TextBuffer,
    decls: &Decls,
    lines: Lines<'_>,
    writer: &mut W,
) -> Result<(), WriteFault>
    ensures { Sends (W.log writer.old) (W.log writer.new) buffer.old buffer.new result (for_each decls.now (line_of decls.now lines.entry)) }
{
    add_var_lines(buffer, decls, lines, writer)?;
    add_instance_lines(buffer, decls, lines, writer)
}
