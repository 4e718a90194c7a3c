//! Whether a text declares what a drawing declares.

ghost use Rattle.std.specs.Prelude.{IsTrue};
ghost use Rattle.diagram_declarations.specs.Grammar.{IsAddress};
ghost use Rattle.st_words.specs.declared.word.Word.{Word};
ghost use Rattle.export_program.specs.Declarations.{AreExported, AreHelpers, AreInstances, AreVariables, IsHelper, IsInstance, IsLocal, IsPlaced, IsVariable};

use crate::form::{AddressForm, address_in};
use crate::naming::is_named;
use diagram_declarations::{Address, Decls, Instance, Var, VarKind};
use draw_program::address_of;
use st_program::{Section, Sort, StInstance, StVariable, bytes_of};
use st_words::Word;

/// Whether a word spells this address, of variables of this kind.
fn is_address(word: &[u8], kind: VarKind, address: Address) -> bool
    ensures { IsTrue result → IsAddress word.now kind address }
{
    match address_of(word) {
        Some((found, place)) => found == kind && place == address,
        None => false,
    }
}

/// Whether a text places a variable where the drawing does.
fn is_placed(form: AddressForm, text: &[u8], v: &Var, place: Option<Word>) -> bool
    ensures { IsTrue result → IsPlaced form text.now v.now place }
{
    match (v.address, place) {
        (Some(address), Some(word)) => match address_in(form, address) {
            Some(due) => is_address(bytes_of(text, word), v.kind, due),
            None => false,
        },
        (None, None) => true,
        _ => false,
    }
}

/// Whether a variable is a BOOL of a section VAR.
fn is_local(x: StVariable) -> bool
    ensures { IsTrue result → IsLocal x }
{
    x.section == Section::Local && x.sort == Sort::Bool
}

/// Whether a variable of a text is that of the drawing.
fn is_variable(form: AddressForm, text: &[u8], v: &Var, x: StVariable) -> bool
    ensures { IsTrue result → IsVariable form text.now v.now x }
{
    is_local(x)
        && is_named(bytes_of(text, x.name), v.name.bytes(), v.title.bytes())
        && is_placed(form, text, v, x.address)
        && x.initial == v.initial
}

/// Whether a variable of a text is a helper: it has no address and is OFF at the start.
fn is_helper(x: StVariable) -> bool
    ensures { IsTrue result → IsHelper x }
{
    is_local(x) && x.address.is_none() && !x.initial
}

/// Whether all variables of a text are helpers.
fn are_helpers(xs: &[StVariable]) -> bool
    ensures { IsTrue result → AreHelpers xs.now }
{
    match xs {
        [] => true,
        [x, more @ ..] => is_helper(*x) && are_helpers(more),
    }
}

/// Whether the variables of a text are those of the drawing, and behind them helpers.
fn are_variables(form: AddressForm, text: &[u8], vs: &[Var], xs: &[StVariable]) -> bool
    ensures { IsTrue result → AreVariables form text.now vs.now xs.now }
{
    match (vs, xs) {
        ([], _) => are_helpers(xs),
        ([v, others @ ..], [x, more @ ..]) => {
            is_variable(form, text, v, *x) && are_variables(form, text, others, more)
        }
        _ => false,
    }
}

/// Whether an instance of a text is that of the drawing.
fn is_instance(text: &[u8], i: &Instance, x: StInstance) -> bool
    ensures { IsTrue result → IsInstance text.now i.now x }
{
    is_named(bytes_of(text, x.name), i.name.bytes(), i.title.bytes())
        && x.kind == i.kind
        && x.preset == i.preset
}

/// Whether the instances of a text are those of the drawing.
fn are_instances(text: &[u8], is: &[Instance], xs: &[StInstance]) -> bool
    ensures { IsTrue result → AreInstances text.now is.now xs.now }
{
    match (is, xs) {
        ([], []) => true,
        ([i, others @ ..], [x, more @ ..]) => {
            is_instance(text, i, *x) && are_instances(text, others, more)
        }
        _ => false,
    }
}

/// Whether a text with these variables and instances declares what a drawing declares.
pub(crate) fn are_exported(
    form: AddressForm,
    text: &[u8],
    decls: &Decls,
    variables: &[StVariable],
    instances: &[StInstance],
) -> bool
    ensures { IsTrue result → AreExported form text.now decls.now variables.now instances.now }
{
    are_variables(form, text, decls.vars(), variables)
        && are_instances(text, decls.instances(), instances)
}
