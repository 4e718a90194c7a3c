//! Takes the aliases of a text: lists and traces call a declaration by the alias after its name.

ghost use Rattle.std.specs.Prelude.{◌≡◌, ◌<◌, ◌^◌, length, IfOk, IfErr, IfSome, IfNone};
ghost use Rattle.diagram_declarations.specs.Titles.{plain, AreTitled, Declares, HasTakenAlias};
ghost use Rattle.diagram_declarations.specs.TakeTitles.{IsNext, IsLast, IsPast, IsWithin, Retitles};

use crate::declaration::{body_at, expect};
use crate::decls::{Body, Decls};
use crate::letters::same_letters;
use crate::read::line_of;
use crate::text::token;
use crate::title::{Title, alias_of};
use thiserror::Error;

/// A1: on the line, counted from 1, a name has an alias that is the name or the alias of another declaration.
#[derive(Clone, Copy, Debug, PartialEq, Eq, Error)]
#[error("line {line}: A1: this alias is the name or the alias of another declaration")]
pub struct TitleFault {
    pub line: usize,
}

/// A declaration that is read: its name, what is written after the name, and what follows the declaration.
#[derive(Clone, Copy)]
struct TitledDeclaration<'a> {
    name: &'a [u8],
    behind: &'a [u8],
    body: Body,
    rest: &'a [u8],
}

/// How many variables and instances were passed.
#[derive(Clone, Copy)]
struct Passed {
    vars: usize,
    instances: usize,
}

/// The declaration at the start of a text, where there is one.
fn next_decl(text: &[u8]) -> Option<TitledDeclaration<'_>>
    ensures some { IfSome result (λ n. IsNext text.now n.name.now n.behind.now n.body n.rest.now) }
    ensures shorter { IfSome result (λ n. length n.rest.now < length text.now) }
    ensures none { IfNone result (IsLast text.now) }
{
    let Ok((name, behind)) = token(text) else {
        return None;
    };
    if same_letters(name, b"END_VAR") {
        return None;
    }
    let Ok((body, rest)) = body_at(behind) else {
        return None;
    };
    Some(TitledDeclaration {
        name,
        behind,
        body,
        rest,
    })
}

impl Passed {
    /// The counts after one more declaration, so that the next one finds its number.
    fn past(self, body: Body) -> Passed
        requires { (self.vars < 2 ^ 32) × (self.instances < 2 ^ 32) }
        ensures { IsPast self body result }
    {
        match body {
            Body::Var { .. } => Passed {
                vars: self.vars + 1,
                ..self
            },
            Body::Instance { .. } => Passed {
                instances: self.instances + 1,
                ..self
            },
        }
    }

    /// Gives the title to the declaration with the next number.
    fn give(self, decls: &mut Decls, body: Body, title: Title)
        requires { IsWithin self.vars self.instances body decls.old }
        ensures { Retitles self.vars self.instances body title decls.old decls.new }
    {
        match body {
            Body::Var { .. } => decls.set_var_title(self.vars, title),
            Body::Instance { .. } => decls.set_instance_title(self.instances, title),
        }
    }
}

/// Takes the aliases of a text: each variable and instance that it declares gets its alias for a title, where it has one.
///
/// # Errors
///
/// A1 where an alias is the name or the alias of another declaration. Titles are then changed up to there.
pub fn take_aliases(text: &[u8], decls: &mut Decls) -> Result<(), TitleFault>
    requires { Declares text.now decls.old }
    ensures titled { IfOk result (λ _. AreTitled text.now decls.new) }
    // Nothing but titles is changed.
    ensures same { plain decls.new ≡ decls.old }
    ensures taken { IfErr result (λ e. HasTakenAlias text.now decls.old e.line) }
{
    let Ok(mut rest) = expect(b"VAR", text) else {
        return Ok(());
    };
    let mut passed = Passed {
        vars: 0,
        instances: 0,
    };
    while let Some(reading) = next_decl(rest) {
        if let Some(alias) = alias_of(reading.name, reading.behind) {
            if decls.is_called(alias.bytes()) {
                let line = line_of(text, reading.behind.len());
                return Err(TitleFault { line });
            }
            passed.give(decls, reading.body, alias);
        }
        passed = passed.past(reading.body);
        rest = reading.rest;
    }
    Ok(())
}
