//! The words of Structured Text that are no names.

ghost use Rattle.std.specs.Prelude.{◌≡◌, ◌||◌};
ghost use Rattle.std.specs.List.{list_all, list_any};
ghost use Rattle.diagram_declarations.specs.Name.{has_name_form, is_name_byte, same_letters};
ghost use Rattle.export_text.specs.Names.{is_declared, is_instance, is_name, is_one_of, is_variable, keywords, operators};

use diagram_declarations::{Decls, Instance, Var, same_letters};

/// The keywords of programs, of statements and of types (IEC 61131-3:2013).
const KEYWORDS: [&[u8]; 78] = [
    b"PROGRAM",
    b"END_PROGRAM",
    b"FUNCTION",
    b"END_FUNCTION",
    b"FUNCTION_BLOCK",
    b"END_FUNCTION_BLOCK",
    b"METHOD",
    b"END_METHOD",
    b"CLASS",
    b"END_CLASS",
    b"INTERFACE",
    b"TYPE",
    b"END_TYPE",
    b"STRUCT",
    b"END_STRUCT",
    b"ARRAY",
    b"VAR",
    b"VAR_INPUT",
    b"VAR_OUTPUT",
    b"VAR_IN_OUT",
    b"VAR_TEMP",
    b"VAR_EXTERNAL",
    b"VAR_GLOBAL",
    b"END_VAR",
    b"CONSTANT",
    b"RETAIN",
    b"NON_RETAIN",
    b"R_EDGE",
    b"F_EDGE",
    b"AT",
    b"BOOL",
    b"BYTE",
    b"WORD",
    b"DWORD",
    b"LWORD",
    b"SINT",
    b"INT",
    b"DINT",
    b"LINT",
    b"USINT",
    b"UINT",
    b"UDINT",
    b"ULINT",
    b"REAL",
    b"LREAL",
    b"STRING",
    b"TIME",
    b"DATE",
    b"TON",
    b"TOF",
    b"TP",
    b"CTU",
    b"CTD",
    b"CTUD",
    b"SR",
    b"RS",
    b"R_TRIG",
    b"F_TRIG",
    b"TRUE",
    b"FALSE",
    b"IF",
    b"THEN",
    b"ELSIF",
    b"ELSE",
    b"END_IF",
    b"CASE",
    b"OF",
    b"END_CASE",
    b"FOR",
    b"TO",
    b"BY",
    b"DO",
    b"END_FOR",
    b"WHILE",
    b"END_WHILE",
    b"REPEAT",
    b"UNTIL",
    b"END_REPEAT",
];

/// The operators that are words, and the statements of one word.
const OPERATORS: [&[u8]; 9] = [
    b"EXIT",
    b"CONTINUE",
    b"RETURN",
    b"NOT",
    b"AND",
    b"OR",
    b"XOR",
    b"MOD",
    b"SUPER",
];

/// Whether a word is one of several, whatever the case of its letters.
fn is_one_of(words: &[&[u8]], word: &[u8]) -> bool
    ensures { result ≡ list_any (λ w. same_letters word.now w.now) words.now }
{
    words.iter().any(|w| same_letters(word, w))
}

/// Whether a word is a keyword of programs, of statements or of types.
fn is_keyword(word: &[u8]) -> bool
    ensures { result ≡ is_one_of keywords word.now }
{
    is_one_of(&KEYWORDS, word)
}

/// Whether a word is an operator, or a statement of one word.
fn is_operator(word: &[u8]) -> bool
    ensures { result ≡ is_one_of operators word.now }
{
    is_one_of(&OPERATORS, word)
}

/// Whether all bytes may be part of a name.
fn are_name_bytes(bytes: &[u8]) -> bool
    ensures { result ≡ list_all is_name_byte bytes.now }
{
    bytes
        .iter()
        .all(|b| b.is_ascii_alphanumeric() || *b == b'_')
}

/// Whether a word is a letter or an underscore, and then letters, digits and underscores.
fn has_name_form(word: &[u8]) -> bool
    ensures { result ≡ has_name_form word.now }
{
    match word {
        [] => false,
        [first, rest @ ..] => {
            (first.is_ascii_alphabetic() || *first == b'_') && are_name_bytes(rest)
        }
    }
}

/// Whether a word can be a name of Structured Text.
pub fn is_name(word: &[u8]) -> bool
    ensures { result ≡ is_name word.now }
{
    has_name_form(word) && !is_keyword(word) && !is_operator(word)
}

/// Whether a variable has a word as its name or as its title.
fn is_of_variable(var: &Var, word: &[u8]) -> bool
    ensures { result ≡ (same_letters var.now.name word.now || same_letters var.now.title word.now) }
{
    same_letters(var.name.bytes(), word) || same_letters(var.title.bytes(), word)
}

/// Whether an instance has a word as its name or as its title.
fn is_of_instance(instance: &Instance, word: &[u8]) -> bool
    ensures { result ≡ (same_letters instance.now.name word.now || same_letters instance.now.title word.now) }
{
    same_letters(instance.name.bytes(), word) || same_letters(instance.title.bytes(), word)
}

/// Whether a variable has a word as its name or as its title.
fn is_variable(decls: &Decls, word: &[u8]) -> bool
    ensures { result ≡ is_variable decls.now word.now }
{
    decls.vars().iter().any(|var| is_of_variable(var, word))
}

/// Whether an instance has a word as its name or as its title.
fn is_instance(decls: &Decls, word: &[u8]) -> bool
    ensures { result ≡ is_instance decls.now word.now }
{
    decls
        .instances()
        .iter()
        .any(|instance| is_of_instance(instance, word))
}

/// Whether a declaration has a word as its name or as its title, whatever the case of letters.
pub fn is_declared(decls: &Decls, word: &[u8]) -> bool
    ensures { result ≡ is_declared decls.now word.now }
{
    is_variable(decls, word) || is_instance(decls, word)
}
