//! The variables that arguments name.

ghost use Rattle.std.specs.Prelude.{◌≡◌, ◌∷◌, ◌++◌, ◌+◌, ◌≤◌, IfOk, IfErr, List, Some, ℕ, length, map, option_map, string_bytes};
ghost use Rattle.cli_inputs.specs.Variables.{AreListed, AreVariables, variable_of};
ghost use Rattle.cli_inputs.specs.Reports.{HasWordFault, names_in};

use crate::fault::ToolFault;
use causes_query::source::input_variables;
use diagram_declarations::{Decls, Name, Symbol};
use std::alloc::Global;

/// The variables that a request for causes is about, by their numbers in order of declaration.
#[derive(Drop)]
pub struct CauseVariables {
    pub coil: usize,
    pub inputs: Vec<usize>,
}

/// The variables that a request to show a scan is about: that of the coil that is explained, where one is, and the listed inputs.
#[derive(Drop)]
pub struct ShownVariables {
    pub coil: Option<usize>,
    pub inputs: Vec<usize>,
}

/// The variable that an argument names. Letter case makes no difference.
fn variable_of(decls: &Decls, word: &str) -> Option<usize>
    ensures { result ≡ variable_of decls.now word.now }
{
    match Name::new(word.as_bytes()) {
        Some(name) => match decls.find(&name) {
            Some(Symbol::Var(number)) => Some(number),
            Some(Symbol::Instance(_)) | None => None,
        },
        None => None,
    }
}

/// The variables of all names, and all inputs where they are asked for: COIL is word 1, the first INPUT word 2.
///
/// # Errors
///
/// `Word` with the number of the first word that names no variable, or `Memory`.
pub fn asked_variables(
    alloc: Global,
    decls: &Decls,
    coil: &str,
    all: bool,
    inputs: &[String],
) -> Result<CauseVariables, ToolFault>
    ensures coil { IfOk result (λ a. variable_of decls.now coil.now ≡ Some a.coil) }
    ensures inputs { IfOk result (λ a. AreListed decls.now all (map string_bytes inputs.now) a.inputs.items) }
    ensures fault { IfErr result (HasWordFault decls.now (coil.now ∷ map string_bytes inputs.now)) }
{
    let Some(coil) = variable_of(decls, coil) else {
        return Err(ToolFault::Word { number: 1 });
    };
    match listed_variables(alloc, decls, all, inputs, 2) {
        Ok(inputs) => Ok(CauseVariables { coil, inputs }),
        Err(fault) => Err(fault),
    }
}

/// The variables of all names: as for a list of causes where there is a coil, and otherwise the first INPUT is word 1.
///
/// # Errors
///
/// `Word` with the number of the first word that names no variable, or `Memory`.
pub fn shown_variables(
    alloc: Global,
    decls: &Decls,
    coil: &Option<String>,
    all: bool,
    inputs: &[String],
) -> Result<ShownVariables, ToolFault>
    ensures coil { IfOk result (λ a. option_map (variable_of decls.now) (option_map string_bytes coil.now) ≡ option_map Some a.coil) }
    ensures inputs { IfOk result (λ a. AreListed decls.now all (map string_bytes inputs.now) a.inputs.items) }
    ensures fault { IfErr result (HasWordFault decls.now (names_in (option_map string_bytes coil.now) (map string_bytes inputs.now))) }
{
    match coil {
        Some(coil) => match asked_variables(alloc, decls, coil.as_str(), all, inputs) {
            Ok(asked) => Ok(ShownVariables {
                coil: Some(asked.coil),
                inputs: asked.inputs,
            }),
            Err(fault) => Err(fault),
        },
        None => match listed_variables(alloc, decls, all, inputs, 1) {
            Ok(inputs) => Ok(ShownVariables { coil: None, inputs }),
            Err(fault) => Err(fault),
        },
    }
}

/// All inputs where they are asked for, and otherwise those that the words name, as `named_variables` has them.
fn listed_variables(
    alloc: Global,
    decls: &Decls,
    all: bool,
    words: &[String],
    first: usize,
) -> Result<Vec<usize>, ToolFault>
    requires { first ≤ 2 }
    ensures ok { IfOk result (λ v. AreListed decls.now all (map string_bytes words.now) v.items) }
    ensures fault { (before : List (List ℕ)) (named : List ℕ) → AreVariables decls.now before named → length before + 1 ≡ first
        → IfErr result (HasWordFault decls.now (before ++ map string_bytes words.now)) }
{
    if all {
        let Ok(inputs) = input_variables(alloc, decls.vars()) else {
            return Err(ToolFault::Memory);
        };
        return Ok(inputs);
    }
    named_variables(alloc, decls, words, first)
}

/// The variables that the words name. The first of these words has the number `first` on the command line.
pub(crate) fn named_variables(
    alloc: Global,
    decls: &Decls,
    words: &[String],
    first: usize,
) -> Result<Vec<usize>, ToolFault>
    requires { first ≤ 2 }
    ensures ok { IfOk result (λ v. AreVariables decls.now (map string_bytes words.now) v.items) }
    ensures fault { (before : List (List ℕ)) (named : List ℕ) → AreVariables decls.now before named → length before + 1 ≡ first
        → IfErr result (HasWordFault decls.now (before ++ map string_bytes words.now)) }
{
    let mut variables = Vec::new(alloc);
    for word in words {
        let Some(number) = variable_of(decls, word.as_str()) else {
            return Err(ToolFault::Word {
                number: variables.len() + first,
            });
        };
        if variables.push(number).is_err() {
            return Err(ToolFault::Memory);
        }
    }
    Ok(variables)
}
