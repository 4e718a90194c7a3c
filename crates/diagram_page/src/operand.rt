//! What the text over a cell stands for.

ghost use Rattle.std.specs.Prelude.{◌≡◌, ◌≤◌, ◌-◌, ◌==◌, ◌&&◌, ◌↔◌, ℕ, nat_le, IsTrue, Some, true, drop, length, slice_get, option_map};
ghost use Rattle.std.specs.List.{prefix_len, suffix_len};
ghost use Rattle.diagram_program.specs.Bytes.{space};
ghost use Rattle.diagram_declarations.specs.Decls.{is_input};
ghost use Rattle.diagram_declarations.specs.Name.{same_letters};
ghost use Rattle.diagram_declarations.specs.Kind.{traits_of};
ghost use Rattle.diagram_page.specs.Operand.{IsWordIn, reference, refer_to, MayHave};
ghost use Rattle.diagram_page.specs.declared.operand.Reference.{Reference};
ghost use Rattle.diagram_page.specs.Suiting.{DrawsBlock};

use crate::form::Form;
use diagram_declarations::{BlockKind, Decls, Name, Output, Symbol, same_letters};

/// A declared name, with `.Q` or `.Q1` or without them.
#[derive(Clone, Copy)]
pub struct Reference {
    pub symbol: Symbol,
    pub output: Option<Output>,
}

/// What is written over a cell: whether there is text, and the declared name that it is.
#[derive(Clone, Copy)]
pub struct NameOver {
    pub written: bool,
    pub name: Option<Reference>,
}

/// How many spaces a text begins with.
fn spaces_before(chars: &[u8]) -> usize
    ensures value { result ≡ prefix_len (λ b. b == space) chars.now }
    ensures within { result ≤ length chars.now }
{
    chars.iter().take_while(|b| **b == b' ').count()
}

/// How many spaces a text ends with.
fn spaces_after(chars: &[u8]) -> usize
    ensures value { result ≡ suffix_len (λ b. b == space) chars.now }
    ensures within { result ≤ length chars.now }
{
    chars.iter().rev().take_while(|b| **b == b' ').count()
}

/// The characters without the spaces at both ends.
pub(crate) fn word_in(chars: &[u8]) -> &[u8]
    ensures { IsWordIn chars.now result.now }
{
    let text = &chars[..chars.len() - spaces_after(chars)];
    let before = spaces_before(chars);
    if before < text.len() {
        &text[before..]
    } else {
        &[]
    }
}

/// Whether a word ends with this one, in any letter case, as with `.Q`.
fn ends_in(suffix: &[u8], word: &[u8]) -> bool
    ensures { result ≡ (nat_le (length suffix.now) (length word.now) && same_letters (drop (length word.now - length suffix.now) word.now) suffix.now) }
{
    suffix.len() <= word.len() && same_letters(&word[word.len() - suffix.len()..], suffix)
}

/// The variable or instance of a declared name, with the output that is written after it.
fn refer(decls: &Decls, output: Option<Output>, word: &[u8]) -> Option<Reference>
    ensures { result ≡ reference decls.now output word.now }
{
    let symbol = decls.find(&Name::new(word)?)?;
    Some(Reference { symbol, output })
}

/// The variable or instance that a word over a cell names, where it names one.
#[tactic(auto, unfolding(crate::specs::Operand::refer_to))]
pub(crate) fn refer_to(decls: &Decls, word: &[u8]) -> Option<Reference>
    ensures { result ≡ refer_to decls.now word.now }
{
    if ends_in(b".Q", word) {
        refer(
            decls,
            Some(Output::Q),
            &word[..word.len().saturating_sub(2)],
        )
    } else if ends_in(b".Q1", word) {
        refer(
            decls,
            Some(Output::Q1),
            &word[..word.len().saturating_sub(3)],
        )
    } else {
        refer(decls, None, word)
    }
}

/// Whether the instance's kind has this output, Q or Q1.
fn has_output(decls: &Decls, inst: usize, output: Output) -> bool
    ensures { IsTrue result ↔ (option_map (λ x. (traits_of x.kind).output) (slice_get decls.now.instances inst) ≡ Some output) }
{
    match decls.instances().get(inst) {
        Some(instance) => instance.kind.traits().output == output,
        None => false,
    }
}

/// Whether the variable is an input, which no coil may write.
fn is_input(decls: &Decls, var: usize) -> bool
    ensures { IsTrue result ↔ (option_map is_input (slice_get decls.now.vars var) ≡ Some true) }
{
    match decls.vars().get(var) {
        Some(var) => var.is_input(),
        None => false,
    }
}

/// Whether the instance is a block of this kind.
fn is_of_kind(decls: &Decls, inst: usize, kind: BlockKind) -> bool
    ensures { IsTrue result ↔ (option_map (λ x. x.kind) (slice_get decls.now.instances inst) ≡ Some kind) }
{
    match decls.instances().get(inst) {
        Some(instance) => instance.kind == kind,
        None => false,
    }
}

/// Whether a cell of this form may have the name of the symbol, with this output.
fn may_have(decls: &Decls, form: Option<Form>, symbol: Symbol, output: Option<Output>) -> bool
    ensures { IsTrue result ↔ MayHave decls.now form symbol output }
{
    match form {
        Some(Form::Contact(_)) => match (symbol, output) {
            (Symbol::Var(_), None) => true,
            (Symbol::Instance(inst), Some(output)) => has_output(decls, inst, output),
            (Symbol::Var(_), Some(_)) | (Symbol::Instance(_), None) => false,
        },
        Some(Form::Coil(_)) => match (symbol, output) {
            (Symbol::Var(var), None) => !is_input(decls, var),
            (Symbol::Var(_), Some(_)) | (Symbol::Instance(_), _) => false,
        },
        Some(Form::Block(kind)) => match (symbol, output) {
            (Symbol::Instance(inst), None) => is_of_kind(decls, inst, kind),
            (Symbol::Instance(_), Some(_)) | (Symbol::Var(_), _) => false,
        },
        None | Some(Form::Empty | Form::Wire | Form::Lower(_, _) | Form::Jump(_) | Form::Return) =>
            false,
    }
}

/// Whether the name is one that a cell of this form can't have.
pub fn is_odd(decls: &Decls, form: Option<Form>, name: Option<Reference>) -> bool
    ensures { IsTrue result ↔ ((x : Reference) × (name ≡ Some x) × ¬ (MayHave decls.now form x.symbol x.output)) }
{
    let Some(name) = name else {
        return false;
    };
    !may_have(decls, form, name.symbol, name.output)
}

/// The instance whose block a cell of this form draws with this name over it; None where the name can't be that of such a block.
pub fn block_drawn(decls: &Decls, form: Option<Form>, name: Option<Reference>) -> Option<usize>
    ensures { (inst : ℕ) → (result ≡ Some inst) ↔ DrawsBlock decls.now form name inst }
{
    let kind = form?.block()?;
    match name {
        Some(
            Reference {
                symbol: Symbol::Instance(inst),
                output: None,
            },
        ) if is_of_kind(decls, inst, kind) => Some(inst),
        Some(
            Reference {
                symbol: Symbol::Instance(_) | Symbol::Var(_),
                ..
            },
        )
        | None => None,
    }
}
