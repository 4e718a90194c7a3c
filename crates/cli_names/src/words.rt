//! The first word of a request that names nothing of its program.

ghost use Rattle.std.specs.Prelude.{◌≡◌, ◌≤◌, ◌==◌, ◌∷◌, ◌++◌, [], find, length, option_map, string_bytes};
ghost use Rattle.std.specs.List.{before_first, position_or_len};
ghost use Rattle.cli_names.specs.Steps.{seen};
ghost use Rattle.cli_names.specs.Words.{declared_as, is_unknown, word, word_if, words_in, words_of};
ghost use Rattle.text_names.specs.declared.meant.Wanted.TheVariants.{Any, Input, Written};

use cli_arguments::{ReachRequest, Request};
use diagram_declarations::{Decls, Name, Symbol};
use text_names::Wanted;

/// A word, and what it is to name.
#[derive(Clone, Copy)]
pub(crate) struct Word<'a> {
    pub(crate) wanted: Wanted,
    pub(crate) text: &'a [u8],
}

/// How many bytes stand before the first point, or all where there is none.
fn point_place(text: &[u8]) -> usize
    ensures value { result ≡ position_or_len (λ b. b == 46) text.now }
    ensures within { result ≤ length text.now }
{
    text.iter().take_while(|byte| **byte != b'.').count()
}

/// The name in a word: what stands before a point, as in T1.Q.
fn named(text: &[u8]) -> &[u8]
    ensures { result.now ≡ before_first (λ b. b == 46) text.now }
{
    &text[..point_place(text)]
}

/// A word that is to name what is wanted.
fn word_for<'a>(wanted: Wanted, text: &'a str) -> Word<'a>
    ensures { seen result ≡ word wanted text.now }
{
    let text = match wanted {
        Wanted::Any => named(text.as_bytes()),
        Wanted::Written | Wanted::Input | Wanted::Variable => text.as_bytes(),
    };
    Word { wanted, text }
}

/// What is declared with this name.
pub(crate) fn declared_as(decls: &Decls, name: &[u8]) -> Option<Symbol>
    ensures { result ≡ declared_as decls.now name.now }
{
    match Name::new(name) {
        Some(name) => decls.find(&name),
        None => None,
    }
}

/// Whether a word names nothing, or an instance where a variable is wanted.
fn is_unknown(decls: &Decls, word: Word<'_>) -> bool
    ensures { result ≡ is_unknown decls.now (seen word.entry) }
{
    match declared_as(decls, word.text) {
        Some(Symbol::Var(_)) => false,
        Some(Symbol::Instance(_)) => match word.wanted {
            Wanted::Any => false,
            Wanted::Written | Wanted::Input | Wanted::Variable => true,
        },
        None => true,
    }
}

/// Whether a name is unknown where this is wanted.
fn is_unknown_name(decls: &Decls, wanted: Wanted, name: &str) -> bool
    ensures { result ≡ is_unknown decls.now (word wanted name.now) }
{
    is_unknown(decls, word_for(wanted, name))
}

/// The first of these names that is unknown.
fn first_name<'a>(decls: &Decls, wanted: Wanted, names: &'a [String]) -> Option<&'a String>
    ensures { option_map (λ n. n.now) result ≡ find (λ n. is_unknown decls.now (word wanted (string_bytes n))) names.now }
{
    names
        .iter()
        .find(|name| is_unknown_name(decls, wanted, name.as_str()))
}

/// The first of these words that is unknown.
fn first_in<'a>(decls: &Decls, wanted: Wanted, names: &'a [String]) -> Option<Word<'a>>
    ensures { option_map seen result ≡ find (is_unknown decls.now) (words_in wanted names.now) }
{
    match first_name(decls, wanted, names) {
        Some(name) => Some(word_for(wanted, name.as_str())),
        None => None,
    }
}

/// A word, if it is unknown.
fn if_unknown<'a>(decls: &Decls, wanted: Wanted, name: &'a str) -> Option<Word<'a>>
    ensures { option_map seen result ≡ find (is_unknown decls.now) (word wanted name.now ∷ []) }
{
    let word = word_for(wanted, name);
    if is_unknown(decls, word) {
        Some(word)
    } else {
        None
    }
}

/// The same of a word that may be missing.
fn one_unknown<'a>(decls: &Decls, wanted: Wanted, name: &'a Option<String>) -> Option<Word<'a>>
    ensures { option_map seen result ≡ find (is_unknown decls.now) (word_if wanted name.now) }
{
    match name {
        Some(name) => if_unknown(decls, wanted, name.as_str()),
        None => None,
    }
}

/// The first unknown word of a name that may be missing, and of inputs.
fn first_with<'a>(
    decls: &Decls,
    wanted: Wanted,
    name: &'a Option<String>,
    inputs: &'a [String],
) -> Option<Word<'a>>
    ensures { option_map seen result ≡ find (is_unknown decls.now) (word_if wanted name.now ++ words_in Input inputs.now) }
{
    match one_unknown(decls, wanted, name) {
        Some(word) => Some(word),
        None => first_in(decls, Wanted::Input, inputs),
    }
}

/// The first unknown word of a list: the coil, or one of the inputs.
fn first_listed<'a>(decls: &Decls, coil: &'a str, inputs: &'a [String]) -> Option<Word<'a>>
    ensures { option_map seen result ≡ find (is_unknown decls.now) (word Written coil.now ∷ words_in Input inputs.now) }
{
    match if_unknown(decls, Wanted::Written, coil) {
        Some(word) => Some(word),
        None => first_in(decls, Wanted::Input, inputs),
    }
}

/// The first unknown word of a request for a run.
fn first_reached<'a>(decls: &Decls, reach: &'a ReachRequest) -> Option<Word<'a>>
    ensures { option_map seen result ≡ find (is_unknown decls.now)
        (word Any (string_bytes reach.now.name) ∷ (word_if Any reach.now.both ++ words_in Input reach.now.inputs.items)) }
{
    match if_unknown(decls, Wanted::Any, reach.name.as_str()) {
        Some(word) => Some(word),
        None => first_with(decls, Wanted::Any, &reach.both, &reach.inputs),
    }
}

/// The first word of a request that names nothing of its program.
pub(crate) fn first_unknown<'a>(decls: &Decls, request: &'a Request) -> Option<Word<'a>>
    ensures { option_map seen result ≡ find (is_unknown decls.now) (words_of request.now) }
{
    match request {
        Request::Causes { list, .. }
        | Request::Progress { list, .. }
        | Request::Held { list, .. }
        | Request::Groups { list, .. }
        | Request::Relevant { list, .. } => first_listed(decls, list.coil.as_str(), &list.inputs),
        Request::Possible(list) => first_listed(decls, list.coil.as_str(), &list.inputs),
        Request::Reach(reach) => first_reached(decls, reach),
        Request::Show(show) => first_with(decls, Wanted::Written, &show.coil, &show.inputs),
        Request::Film(film) => one_unknown(decls, Wanted::Written, &film.coil),
        Request::Watch(watched) => first_in(decls, Wanted::Any, &watched.names),
        Request::Expect(expect) => first_in(decls, Wanted::Any, &expect.watch.names),
        Request::Check { .. }
        | Request::Never(_)
        | Request::Sim(_)
        | Request::Waves(_)
        | Request::Uses { .. }
        | Request::Import(_)
        | Request::Draw { .. }
        | Request::Export(_) => None,
    }
}
