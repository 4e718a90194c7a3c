//! What the names of a request for a run are of.

ghost use Rattle.std.specs.Prelude.{◌≡◌, IfErr, IfOk, List, map, option_map, string_bytes};
ghost use Rattle.diagram_declarations.specs.declared.decls.Symbol.TheVariants as symbol;
ghost use Rattle.cli_inputs.specs.Variables.{AreListed};
ghost use Rattle.cli_reach.specs.Naming.{HasNameFault, IsTarget, before_end, declared_as, instance_of, instance_with, on, symbol_of};
ghost use Rattle.cli_reach.specs.Asking.{is_empty};

use cli_arguments::ReachRequest;
use cli_inputs::{ToolFault, shown_variables};
use diagram_declarations::{Decls, Name, Output, Symbol, same_letters};
use reach_runs::Literal;
use std::alloc::Global;

/// The word before this end, which is there in any letter case.
fn before_end<'a>(end: &[u8], word: &'a [u8]) -> Option<&'a [u8]>
    ensures { option_map (λ name. name.now) result ≡ before_end end.now word.now }
{
    if word.len() < end.len() {
        return None;
    }
    let (name, last) = word.split_at(word.len() - end.len());
    if same_letters(last, end) {
        Some(name)
    } else {
        None
    }
}

/// The variable or the instance with this name, whatever its letter case.
fn declared_as(decls: &Decls, name: &[u8]) -> Option<Symbol>
    ensures { result ≡ declared_as decls.now name.now }
{
    decls.find(&Name::new(name)?)
}

/// The instance with this name.
fn instance_of(decls: &Decls, name: &[u8]) -> Option<usize>
    ensures { result ≡ instance_of decls.now name.now }
{
    match declared_as(decls, name)? {
        Symbol::Instance(number) => Some(number),
        Symbol::Var(_) => None,
    }
}

/// The same where its kind has this output.
fn instance_with(decls: &Decls, output: Output, name: &[u8]) -> Option<Symbol>
    ensures { result ≡ option_map symbol.Instance (instance_with decls.now output name.now) }
{
    let number = instance_of(decls, name)?;
    if decls.instances().get(number)?.kind.traits().output == output {
        Some(Symbol::Instance(number))
    } else {
        None
    }
}

/// What a word names: a variable; or an instance, by its name alone or, as a contact reads it, with its output after it.
fn symbol_of(decls: &Decls, word: &str) -> Option<Symbol>
    ensures { result ≡ symbol_of decls.now word.now }
{
    let bytes = word.as_bytes();
    if let Some(name) = before_end(b".Q", bytes) {
        return instance_with(decls, Output::Q, name);
    }
    if let Some(name) = before_end(b".Q1", bytes) {
        return instance_with(decls, Output::Q1, name);
    }
    declared_as(decls, bytes)
}

/// That it is ON.
fn on(symbol: Symbol) -> Literal
    ensures { result ≡ on symbol }
{
    Literal {
        symbol,
        value: true,
    }
}

/// That some are ON.
fn all_on(alloc: Global, symbols: &[Symbol]) -> Result<Vec<Literal>, ToolFault>
    ensures on { IfOk result (λ v. v.items ≡ map on symbols.now) }
    ensures fault { IfErr result (λ f. f ≡ ToolFault.Memory) }
{
    match symbols.iter().map(|symbol| on(*symbol)).collect(alloc) {
        Ok(literals) => Ok(literals),
        Err(_) => Err(ToolFault::Memory),
    }
}

/// What is to be ON.
///
/// # Errors
///
/// `Word` with 1 where NAME is that of nothing, `Both` where that of `--both` is, or `Memory`.
pub(crate) fn target_of(
    alloc: Global,
    decls: &Decls,
    request: &ReachRequest,
) -> Result<Vec<Literal>, ToolFault>
    ensures target { IfOk result (λ v. IsTarget decls.now request.now v.items) }
    ensures fault { IfErr result (HasNameFault decls.now request.now) }
{
    let Some(first) = symbol_of(decls, request.name.as_str()) else {
        return Err(ToolFault::Word { number: 1 });
    };
    let Some(word) = &request.both else {
        return all_on(alloc, &[first]);
    };
    let Some(second) = symbol_of(decls, word.as_str()) else {
        return Err(ToolFault::Both);
    };
    all_on(alloc, &[first, second])
}

/// The inputs that change: those that are named, or all where none is.
///
/// # Errors
///
/// `Word` with the number of the first INPUT that names no variable, which is counted from 2, or `Memory`.
pub(crate) fn inputs_of(
    alloc: Global,
    decls: &Decls,
    request: &ReachRequest,
) -> Result<Vec<usize>, ToolFault>
    ensures inputs { IfOk result (λ v. AreListed decls.now (is_empty request.now.inputs.items) (map string_bytes request.now.inputs.items) v.items) }
    ensures fault { (target : List Literal) → IsTarget decls.now request.now target → IfErr result (HasNameFault decls.now request.now) }
{
    let inputs = request.inputs.as_slice();
    match shown_variables(alloc, decls, &None, inputs.is_empty(), inputs) {
        Ok(named) => Ok(named.inputs),
        Err(ToolFault::Word { number }) => Err(ToolFault::Word { number: number + 1 }),
        Err(fault) => Err(fault),
    }
}
