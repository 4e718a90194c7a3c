//! Which rule the words of a command line break.

ghost use Rattle.std.specs.Prelude.{◌≡◌, IfSome, find, is_some, option_map};
ghost use Rattle.std.specs.List.{list_all, list_any};
ghost use Rattle.clap.specs.Words.{first_of, found_of, rows_of};
ghost use Rattle.cli_usage.specs.Rules.{Breaks, broken_of, first_excluded, is_broken, is_text, is_there, out_of};

use crate::rule::{Rule, Term};
use clap::ArgMatches;

/// A rule that words break.
#[derive(Clone, Copy, Debug)]
pub struct Broken {
    pub rule: &'static Rule,
    /// The first term that is there and that the rule excludes.
    pub excluded: Option<&'static Term>,
}

/// Whether an option or an argument has this text.
fn has_text(found: &ArgMatches<'_>, id: &str, text: &str) -> bool
    ensures { result ≡ is_text (rows_of (found_of found.now)) id.now text.now }
{
    match found.get_str(id) {
        Some(value) => value == text,
        None => false,
    }
}

/// Whether an option or an argument was given.
fn has_some(found: &ArgMatches<'_>, id: &str) -> bool
    ensures { result ≡ is_some (first_of id.now (rows_of (found_of found.now))) }
{
    found.get_str(id).is_some()
}

/// Whether a term is there.
fn is_there(found: &ArgMatches<'_>, term: &Term) -> bool
    ensures { result ≡ is_there (rows_of (found_of found.now)) term.now }
{
    match term {
        Term::Flag(id) => has_text(found, id, "true"),
        Term::Value(id, value) => has_text(found, id, value),
        Term::Valued(id) | Term::Place(id, _) => has_some(found, id),
    }
}

/// Whether all these terms are there.
fn are_there(found: &ArgMatches<'_>, terms: &[Term]) -> bool
    ensures { result ≡ list_all (is_there (rows_of (found_of found.now))) terms.now }
{
    terms.iter().all(|term| is_there(found, term))
}

/// Whether one of these terms is there.
fn is_one_there(found: &ArgMatches<'_>, terms: &[Term]) -> bool
    ensures { result ≡ list_any (is_there (rows_of (found_of found.now))) terms.now }
{
    terms.iter().any(|term| is_there(found, term))
}

/// Whether the words break a rule.
fn is_broken(found: &ArgMatches<'_>, rule: &Rule) -> bool
    ensures { result ≡ is_broken (rows_of (found_of found.now)) rule.now }
{
    match rule {
        Rule::Wants(given, wanted) => are_there(found, given) && !is_one_there(found, wanted),
        Rule::Excludes(given, excluded) => are_there(found, given) && is_one_there(found, excluded),
    }
}

/// The first of these rules that the words break.
fn first_broken<'a>(found: &ArgMatches<'_>, rules: &'a [Rule]) -> Option<&'a Rule>
    ensures { option_map (λ r. r.now) result ≡ find (is_broken (rows_of (found_of found.now))) rules.now }
{
    rules.iter().find(|rule| is_broken(found, rule))
}

/// The first of these terms that is there.
fn first_there<'a>(found: &ArgMatches<'_>, terms: &'a [Term]) -> Option<&'a Term>
    ensures { option_map (λ t. t.now) result ≡ find (is_there (rows_of (found_of found.now))) terms.now }
{
    terms.iter().find(|term| is_there(found, term))
}

/// The first term that is there and that a rule excludes.
fn excluded_by(found: &ArgMatches<'_>, rule: &'static Rule) -> Option<&'static Term>
    ensures { option_map (λ t. t.now) result ≡ first_excluded (rows_of (found_of found.now)) rule.now }
{
    match rule {
        Rule::Wants(_, _) => None,
        Rule::Excludes(_, excluded) => first_there(found, excluded),
    }
}

/// The first of these rules that the words break.
pub fn broken_rule(rules: &'static [Rule], found: &ArgMatches<'_>) -> Option<Broken>
    ensures first { option_map out_of result ≡ broken_of (rows_of (found_of found.now)) rules.now }
    ensures breaks { IfSome result (Breaks (rows_of (found_of found.now))) }
{
    match first_broken(found, rules) {
        Some(rule) => Some(Broken {
            rule,
            excluded: excluded_by(found, rule),
        }),
        None => None,
    }
}
