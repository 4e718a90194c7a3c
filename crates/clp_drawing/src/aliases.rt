//! What lists and traces can call a variable or a block in place of its name.

use crate::bytes::trimmed;
use crate::names::{Named, Used, signal_of, symbol_of};
use clp_project::{Link, Project};
use diagram_declarations::Title;

/// What the project calls a variable or block, or else the signal of its pin.
fn word_of<'a>(project: &Project<'a>, links: &[Link<'a>], used: Used) -> Option<&'a [u8]> {
    if let Some(symbol) = symbol_of(project, used) {
        let word = trimmed(symbol.name);
        if !word.is_empty() && !word.starts_with(b"%") {
            return Some(word);
        }
    }
    signal_of(links, used)
}

/// Whether a word is already a name or an alias of the program.
fn is_taken(named: &[Named], word: &[u8]) -> bool {
    for other in named {
        if other.name.bytes().eq_ignore_ascii_case(word) {
            return true;
        }
        if let Some(alias) = &other.alias {
            if alias.bytes().eq_ignore_ascii_case(word) {
                return true;
            }
        }
    }
    false
}

/// The alias of a variable or block: what the project calls it, where no name or alias is that word.
fn alias_of(
    project: &Project<'_>,
    links: &[Link<'_>],
    named: &[Named],
    used: Used,
) -> Option<Title> {
    let word = word_of(project, links, used)?;
    if is_taken(named, word) {
        None
    } else {
        Title::new(word)
    }
}

/// Gives each variable and block its alias, where it has one.
pub(crate) fn give_aliases(project: &Project<'_>, links: &[Link<'_>], named: &mut Vec<Named>) {
    for place in 0..named.len() {
        let alias = alias_of(project, links, named, named[place].used);
        named[place].alias = alias;
    }
}
