//! What is watched of a simulation beside its outputs.

ghost use Rattle.std.specs.Prelude.{◌≡◌, ◌++◌, ◌∷◌, [], false, IfErr, IfOk, OnOk, map, slice_get, string_bytes};
ghost use Rattle.std.specs.List.{range_with_len};
ghost use Rattle.diagram_declarations.specs.declared.decls.Symbol.TheVariants as symbol;
ghost use Rattle.cli_views.specs.Views.{HasNameFault};
ghost use Rattle.cli_views.specs.Watched.{AreColumns, AreWatched, all_columns, all_of, columns_of, further_column, is_memory, memories_of, symbol_of};

use cli_inputs::ToolFault;
use diagram_declarations::{Decls, Name, Parameter, Symbol, Var, VarKind};
use std::alloc::Global;
use text_trace::Column;

/// The variable or the instance with this name, whatever the letter case.
fn symbol(decls: &Decls, word: &str) -> Option<Symbol>
    ensures { result ≡ symbol_of decls.now word.now }
{
    match Name::new(word.as_bytes()) {
        Some(name) => decls.find(&name),
        None => None,
    }
}

/// The variables and instances with these names.
fn named(alloc: Global, decls: &Decls, words: &[String]) -> Result<Vec<Symbol>, ToolFault>
    ensures ok { IfOk result (λ v. AreWatched decls.now false (map string_bytes words.now) v.items) }
    ensures fault { IfErr result (HasNameFault decls.now (map string_bytes words.now)) }
{
    let mut watched = Vec::new(alloc);
    for word in words {
        let Some(symbol) = symbol(decls, word.as_str()) else {
            return Err(ToolFault::Watched {
                number: watched.len() + 1,
            });
        };
        if watched.push(symbol).is_err() {
            return Err(ToolFault::Memory);
        }
    }
    Ok(watched)
}

/// Whether a variable is a memory; all memories and instances are what `--watch-all` watches beside the outputs.
fn is_memory(var: &Var) -> bool
    ensures { result ≡ is_memory var.now }
{
    match var.kind {
        VarKind::Memory => true,
        VarKind::Input | VarKind::Output => false,
    }
}

/// The memory variables, in order of declaration.
fn memories(alloc: Global, vars: &[Var]) -> Result<Vec<Symbol>, ToolFault>
    ensures ok { IfOk result (λ v. v.items ≡ memories_of vars.now) }
    ensures fault { IfErr result (λ f. f ≡ ToolFault.Memory) }
{
    let mut watched = Vec::new(alloc);
    for var in 0..vars.len() {
        if !is_memory(&vars[var]) {
            continue;
        }
        let Ok(()) = watched.push(Symbol::Var(var)) else {
            return Err(ToolFault::Memory);
        };
    }
    Ok(watched)
}

/// Adds all instances, in order of declaration, to what is watched.
fn add_instances(count: usize, watched: &mut Vec<Symbol>) -> Result<(), ToolFault>
    ensures ok { OnOk result (watched.new.items ≡ watched.old.items ++ map symbol.Instance (range_with_len 0 count)) }
    ensures fault { IfErr result (λ f. f ≡ ToolFault.Memory) }
{
    for inst in 0..count {
        let Ok(()) = watched.push(Symbol::Instance(inst)) else {
            return Err(ToolFault::Memory);
        };
    }
    Ok(())
}

/// All that can be watched: the memory variables, and then the instances.
fn all(alloc: Global, decls: &Decls) -> Result<Vec<Symbol>, ToolFault>
    ensures ok { IfOk result (λ v. v.items ≡ all_of decls.now) }
    ensures fault { IfErr result (λ f. f ≡ ToolFault.Memory) }
{
    let mut watched = memories(alloc, decls.vars())?;
    add_instances(decls.instances().len(), &mut watched)?;
    Ok(watched)
}

/// Adds a column that is watched.
fn add_column(column: Column, columns: &mut Vec<Column>) -> Result<(), ToolFault>
    ensures ok { OnOk result (columns.new.items ≡ columns.old.items ++ column ∷ []) }
    ensures fault { IfErr result (λ f. f ≡ ToolFault.Memory) }
{
    match columns.push(column) {
        Ok(()) => Ok(()),
        Err(_) => Err(ToolFault::Memory),
    }
}

/// The columns that an instance has beside its output: of a timer the time elapsed, of a counter its count.
fn further(decls: &Decls, inst: usize) -> Option<Column>
    ensures { result ≡ further_column inst (slice_get decls.now.instances inst) }
{
    match decls.instances().get(inst) {
        Some(instance) => match instance.kind.traits().parameter {
            Some(Parameter::Time) => Some(Column::Elapsed(inst)),
            Some(Parameter::Count) => Some(Column::Count(inst)),
            None => None,
        },
        None => None,
    }
}

/// Adds the columns of an instance: its output, and what else its kind has.
fn add_instance_columns(
    decls: &Decls,
    inst: usize,
    columns: &mut Vec<Column>,
) -> Result<(), ToolFault>
    ensures ok { OnOk result (columns.new.items ≡ columns.old.items ++ columns_of decls.now (symbol.Instance inst)) }
    ensures fault { IfErr result (λ f. f ≡ ToolFault.Memory) }
{
    add_column(Column::Output(inst), columns)?;
    let Some(column) = further(decls, inst) else {
        return Ok(());
    };
    add_column(column, columns)?;
    Ok(())
}

/// Adds the columns of a variable or an instance.
fn add_columns(decls: &Decls, symbol: Symbol, columns: &mut Vec<Column>) -> Result<(), ToolFault>
    ensures ok { OnOk result (columns.new.items ≡ columns.old.items ++ columns_of decls.now symbol) }
    ensures fault { IfErr result (λ f. f ≡ ToolFault.Memory) }
{
    match symbol {
        Symbol::Var(var) => add_column(Column::Value(var), columns),
        Symbol::Instance(inst) => add_instance_columns(decls, inst, columns),
    }
}

/// The columns of all that is watched.
fn columns_of(alloc: Global, decls: &Decls, watched: &[Symbol]) -> Result<Vec<Column>, ToolFault>
    ensures ok { IfOk result (λ v. v.items ≡ all_columns decls.now watched.now) }
    ensures fault { IfErr result (λ f. f ≡ ToolFault.Memory) }
{
    let mut columns = Vec::new(alloc);
    for symbol in watched {
        add_columns(decls, *symbol, &mut columns)?;
    }
    Ok(columns)
}

/// The columns of a trace beside its outputs: of all that can be watched, or of what has these names.
pub(crate) fn watched_columns(
    alloc: Global,
    decls: &Decls,
    is_all: bool,
    words: &[String],
) -> Result<Vec<Column>, ToolFault>
    ensures ok { IfOk result (λ v. AreColumns decls.now is_all (map string_bytes words.now) v.items) }
    ensures fault { IfErr result (HasNameFault decls.now (map string_bytes words.now)) }
{
    let watched = if is_all {
        all(alloc, decls)?
    } else {
        named(alloc, decls, words)?
    };
    match columns_of(alloc, decls, &watched) {
        Ok(columns) => Ok(columns),
        Err(fault) => Err(fault),
    }
}
