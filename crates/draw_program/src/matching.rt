//! Whether a drawing declares what a program declares.

ghost use Rattle.std.specs.Prelude.{◌≡◌, IfOk, IsTrue};
ghost use Rattle.std.specs.List.{list_all};
ghost use Rattle.st_words.specs.declared.word.Word.{Word};
ghost use Rattle.draw_program.specs.Declarations.{AreDeclared, AreInstances, AreVariables, IsAt, IsInstance, IsOfSection, IsPlaced, IsVariable, is_helper, shown_of};

use crate::address::address_of;
use crate::calling::full_name;
use diagram_declarations::{Address, Decls, Instance, LONGEST_TITLE, Var, VarKind};
use st_program::{Section, StInstance, StVariable, bytes_of};
use st_words::Word;
use std::alloc::{AllocError, Global};

/// What lists call a variable or an instance: the word of the text, or its start where it is longer than an alias can be.
#[tactic(auto, using(crate::proofs::Titles::whole_word))]
pub(crate) fn shown_of(word: &[u8]) -> &[u8]
    ensures { result.now ≡ shown_of word.now }
{
    if word.len() <= LONGEST_TITLE {
        word
    } else {
        &word[..LONGEST_TITLE]
    }
}

/// Whether a variable without an address in the text is where its section says.
fn is_of_section(section: Section, v: &Var) -> bool
    ensures { IsTrue result → IsOfSection section v.now }
{
    match section {
        Section::Local => v.kind == VarKind::Memory && v.address.is_none(),
        Section::Input => v.kind == VarKind::Input,
        Section::Output => v.kind == VarKind::Output,
    }
}

/// Whether two kinds of variables are the same.
fn is_same_kind(first: VarKind, second: VarKind) -> bool
    ensures { IsTrue result → first ≡ second }
{
    match (first, second) {
        (VarKind::Input, VarKind::Input)
        | (VarKind::Output, VarKind::Output)
        | (VarKind::Memory, VarKind::Memory) => true,
        _ => false,
    }
}

/// Whether two second numbers of addresses are the same.
fn is_same_second(first: Option<u32>, second: Option<u32>) -> bool
    ensures { IsTrue result → first ≡ second }
{
    match (first, second) {
        (Some(one), Some(other)) => one == other,
        (None, None) => true,
        _ => false,
    }
}

/// Whether two addresses are the same.
#[tactic(auto, using(crate::proofs::Sizes::same_parts))]
fn is_same_address(first: Address, second: Address) -> bool
    ensures { IsTrue result → first ≡ second }
{
    first.letter == second.letter
        && first.first == second.first
        && is_same_second(first.second, second.second)
}

/// Whether a variable is at the address that a word spells.
fn is_at(word: &[u8], v: &Var) -> bool
    ensures { IsTrue result → IsAt word.now v.now }
{
    let Some((kind, due)) = address_of(word) else {
        return false;
    };
    let Some(found) = v.address else {
        return false;
    };
    is_same_kind(kind, v.kind) && is_same_address(due, found)
}

/// Whether a variable is where the text places it.
fn is_placed(text: &[u8], section: Section, address: Option<Word>, v: &Var) -> bool
    ensures { IsTrue result → IsPlaced text.now section address v.now }
{
    match address {
        Some(word) => is_at(bytes_of(text, word), v),
        None => is_of_section(section, v),
    }
}

/// Whether a variable is that of the text.
fn is_variable(alloc: Global, text: &[u8], x: StVariable, v: &Var) -> Result<bool, AllocError>
    ensures { IfOk result (λ is. IsTrue is → IsVariable text.now x v.now) }
{
    let name = full_name(alloc, text, x)?;
    Ok(
        v.title.bytes() == shown_of(&name)
            && v.initial == x.initial
            && is_placed(text, x.section, x.address, v),
    )
}

/// Whether a variable is as helpers are: no input, without an address, OFF at the start.
fn is_helper(v: &Var) -> bool
    ensures { result ≡ is_helper v.now }
{
    !v.is_input() && v.address.is_none() && !v.initial
}

/// Whether all variables are helpers.
fn are_helpers(vs: &[Var]) -> bool
    ensures { result ≡ list_all is_helper vs.now }
{
    vs.iter().all(|v| is_helper(v))
}

/// Whether variables are those of the text, and then helpers.
fn are_variables(
    alloc: Global,
    text: &[u8],
    xs: &[StVariable],
    vs: &[Var],
) -> Result<bool, AllocError>
    ensures { IfOk result (λ are. IsTrue are → AreVariables text.now xs.now vs.now) }
{
    match (xs, vs) {
        ([], _) => Ok(are_helpers(vs)),
        ([x, more @ ..], [v, others @ ..]) => {
            let is_first = is_variable(alloc, text, *x, v)?;
            let are_others = are_variables(alloc, text, more, others)?;
            Ok(is_first && are_others)
        }
        _ => Ok(false),
    }
}

/// Whether an instance is that of the text.
fn is_instance(text: &[u8], x: StInstance, i: &Instance) -> bool
    ensures { IsTrue result → IsInstance text.now x i.now }
{
    i.title.bytes() == shown_of(bytes_of(text, x.name)) && i.kind == x.kind && i.preset == x.preset
}

/// Whether instances are those of the text.
fn are_instances(text: &[u8], xs: &[StInstance], is: &[Instance]) -> bool
    ensures { IsTrue result → AreInstances text.now xs.now is.now }
{
    match (xs, is) {
        ([], []) => true,
        ([x, more @ ..], [i, others @ ..]) => {
            is_instance(text, *x, i) && are_instances(text, more, others)
        }
        _ => false,
    }
}

/// Whether a drawing declares these variables and instances, and helpers besides.
pub(crate) fn are_declared(
    alloc: Global,
    text: &[u8],
    variables: &[StVariable],
    instances: &[StInstance],
    decls: &Decls,
) -> Result<bool, AllocError>
    ensures { IfOk result (λ are. IsTrue are → AreDeclared text.now variables.now instances.now decls.now) }
{
    let are = are_variables(alloc, text, variables, decls.vars())?;
    Ok(are && are_instances(text, instances, decls.instances()))
}
