//! The names that a program is drawn with.

use crate::calling::full_names;
use crate::numbered::ShortWord;
use diagram_declarations::Name;
use diagram_declarations::limits::LONGEST_NAME;
use draw_layout::NamedInstance;
use st_program::{Sort, StProgram, bytes_of};
use std::alloc::{AllocError, Global};

/// The most names that begin alike and are told apart by a number.
const MOST_ALIKE: usize = 1000;

/// What the names of helpers may begin with; the first that no name of the program begins with, before a number.
const HELPERS: [&[u8]; 4] = [b"h", b"h_", b"Helper", b"Part_"];

/// The names of the variables and instances of a program, and what those of its helpers begin with.
#[derive(Drop)]
pub(crate) struct DrawnNames {
    /// What the variables are called, in full.
    pub words: Vec<Vec<u8>>,
    pub variables: Vec<Name>,
    pub instances: Vec<NamedInstance>,
    pub helper: &'static [u8],
}

/// A word that is to be a name, and how long that may be.
#[derive(Clone, Copy)]
struct Wanted<'t> {
    word: &'t [u8],
    /// The value of an INT that it ends with, behind an underscore.
    value: Option<u32>,
    longest: usize,
}

/// The value of an INT that a variable stands for.
fn value_of(sort: Sort) -> Option<u32> {
    match sort {
        Sort::Value(of) => Some(of.value),
        _ => None,
    }
}

/// What the variables and then the instances are called.
fn words_of<'t>(
    alloc: Global,
    text: &'t [u8],
    words: &'t [Vec<u8>],
    program: &StProgram,
) -> Result<Vec<Wanted<'t>>, AllocError> {
    let mut wanted = Vec::new(alloc);
    for (word, variable) in words.iter().zip(&program.variables) {
        wanted.push(Wanted {
            word,
            value: value_of(variable.sort),
            longest: LONGEST_NAME,
        })?;
    }
    for instance in &program.instances {
        wanted.push(Wanted {
            word: bytes_of(text, instance.name),
            value: None,
            longest: instance.kind.traits().longest_name,
        })?;
    }
    Ok(wanted)
}

/// Whether one of the names is this one.
fn is_taken(names: &[Option<Name>], name: &Name) -> bool {
    names.iter().any(|other| match other {
        Some(other) => other.same(name),
        None => false,
    })
}

/// The start of a word, or where it ends with a value that behind as much as there is room for.
fn short_word(wanted: Wanted<'_>) -> ShortWord {
    match wanted.value {
        Some(value) => ShortWord::numbered(wanted.word, b"_", value as usize, wanted.longest),
        None => ShortWord::cut(wanted.word, wanted.longest),
    }
}

/// The start of a word as a name, with a number behind it where another one is called so.
fn free_name(names: &[Option<Name>], wanted: Wanted<'_>) -> Option<Name> {
    if let Some(name) = Name::new(short_word(wanted).bytes()) {
        if !is_taken(names, &name) {
            return Some(name);
        }
    }
    for number in 1..MOST_ALIKE {
        let word = ShortWord::numbered(wanted.word, b"_", number, wanted.longest);
        if let Some(name) = Name::new(word.bytes()) {
            if !is_taken(names, &name) {
                return Some(name);
            }
        }
    }
    None
}

/// A name for each word: the word where it fits, and otherwise its start.
fn chosen(alloc: Global, wanted: &[Wanted<'_>]) -> Result<Vec<Option<Name>>, AllocError> {
    let mut names: Vec<Option<Name>> = Vec::new(alloc);
    for wish in wanted {
        names.push(if wish.word.len() <= wish.longest {
            Name::new(wish.word)
        } else {
            None
        })?;
    }
    for (number, wish) in wanted.iter().enumerate() {
        if let Some(None) = names.get(number) {
            let name = free_name(&names, *wish);
            if let Some(place) = names.get_mut(number) {
                *place = name;
            }
        }
    }
    Ok(names)
}

/// Whether a name is these bytes and a number.
fn is_numbered(name: &Name, prefix: &[u8]) -> bool {
    let bytes = name.bytes();
    let (front, number) = bytes.split_at(prefix.len().min(bytes.len()));
    front.eq_ignore_ascii_case(prefix)
        && !number.is_empty()
        && number.iter().all(|b| b.is_ascii_digit())
}

/// What the names of helpers begin with.
fn helper_prefix(names: &[Option<Name>]) -> &'static [u8] {
    for prefix in HELPERS {
        let is_used = names.iter().any(|name| match name {
            Some(name) => is_numbered(name, prefix),
            None => false,
        });
        if !is_used {
            return prefix;
        }
    }
    HELPERS[0]
}

/// A name for each variable, of these words, and for each instance.
fn names_of(
    alloc: Global,
    text: &[u8],
    words: &[Vec<u8>],
    program: &StProgram,
) -> Result<Vec<Option<Name>>, AllocError> {
    let wanted = words_of(alloc, text, words, program)?;
    chosen(alloc, &wanted)
}

/// The names of a program in its drawing; None where there are too many that begin alike.
pub(crate) fn drawn_names(
    alloc: Global,
    text: &[u8],
    program: &StProgram,
) -> Result<Option<DrawnNames>, AllocError> {
    let words = full_names(alloc, text, &program.variables)?;
    let names = names_of(alloc, text, &words, program)?;
    let mut variables = Vec::new(alloc);
    let mut instances = Vec::new(alloc);
    for (number, name) in names.iter().enumerate() {
        let Some(name) = name else {
            return Ok(None);
        };
        if number < program.variables.len() {
            variables.push(*name)?;
        } else if let Some(instance) = program.instances.get(number - program.variables.len()) {
            instances.push(NamedInstance {
                name: *name,
                kind: instance.kind,
            })?;
        }
    }
    let helper = helper_prefix(&names);
    Ok(Some(DrawnNames {
        words,
        variables,
        instances,
        helper,
    }))
}
