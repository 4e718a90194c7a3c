//! The pairs that removing begins with: those that aren't both ON in a state, and weren't after any of the random scans.

ghost use Rattle.std.specs.Prelude.{◌≡◌, ◌⊎◌, ◌↔◌, ℕ, All, Contains, IfOk, IsTrue, false};
ghost use Rattle.diagram_declarations.specs.declared.decls.Symbol.TheVariants as symbol;
ghost use Rattle.scan_signals.specs.Three.{three_known};
ghost use Rattle.invariant_sets.specs.Beginning.{AddsPairs, HasEach, MayAdd, MustHave};
ghost use Rattle.invariant_cases.specs.Allowing.{AreApart, are_both_on};
ghost use Rattle.invariant_sets.specs.Pairs.{IsOutside, IsPairOutside, turned};
ghost use Rattle.invariant_cases.specs.Cases.{both_told};

use crate::history::History;
use crate::set::Set;
use diagram_declarations::Symbol;
use diagram_program::Program;
use invariant_cases::cases::both_told;
use invariant_cases::pinning::is_known;
use invariant_cases::points::are_both_on;
use invariant_cases::{Outcome, Pair};
use scan_cycle::{Memory, State};
use scan_partial::Knowledge;
use scan_signals::Tri;
use std::alloc::Global;

/// Adds the variables, but inputs, of which the set claims nothing.
fn add_variables(program: &Program, set: &Set, symbols: &mut Vec<Symbol>) -> Result<(), Memory>
    requires { All (IsOutside program.now set.now) symbols.old.items }
    ensures outside { IfOk result (λ _. All (IsOutside program.now set.now) symbols.new.items) }
    ensures all { IfOk result (λ _. (var : ℕ) → IsOutside program.now set.now (symbol.Var var) → Contains symbols.new.items (symbol.Var var)) }
{
    let vars = program.decls().vars();
    for var in 0..vars.len() {
        if !vars[var].is_input() && set.of_variable(var) == Tri::Unsure {
            symbols.push(Symbol::Var(var))?;
        }
    }
    Ok(())
}

/// Adds the blocks of whose output the set claims nothing.
fn add_instances(program: &Program, set: &Set, symbols: &mut Vec<Symbol>) -> Result<(), Memory>
    requires { All (IsOutside program.now set.now) symbols.old.items }
    ensures outside { IfOk result (λ _. All (IsOutside program.now set.now) symbols.new.items) }
    ensures all { IfOk result (λ _. (inst : ℕ) → IsOutside program.now set.now (symbol.Instance inst) → Contains symbols.new.items (symbol.Instance inst)) }
    ensures kept { IfOk result (λ _. All (Contains symbols.new.items) symbols.old.items) }
{
    for inst in 0..program.decls().instances().len() {
        if set.of_instance(inst) == Tri::Unsure {
            symbols.push(Symbol::Instance(inst))?;
        }
    }
    Ok(())
}

/// What is outside the set.
fn outside(alloc: Global, program: &Program, set: &Set) -> Result<Vec<Symbol>, Memory>
    ensures outside { IfOk result (λ symbols. All (IsOutside program.now set.now) symbols.items) }
    ensures all { IfOk result (λ symbols. (symbol : Symbol) → IsOutside program.now set.now symbol → Contains symbols.items symbol) }
{
    let mut symbols = Vec::new(alloc);
    add_variables(program, set, &mut symbols)?;
    add_instances(program, set, &mut symbols)?;
    Ok(symbols)
}

/// Whether it is known that not both of a pair are ON.
fn is_apart(known: &Knowledge<Tri, Outcome>, pair: Pair) -> bool
    ensures { IsTrue result ↔ (both_told pair known.now ≡ three_known false) }
{
    is_known(both_told(pair, known), false)
}

/// What decides whether a pair is added.
#[derive(Clone, Copy)]
struct Seen<'a> {
    state: &'a State,
    history: &'a History,
    /// What is known after one scan from all that is known where the set is so.
    after: &'a Knowledge<Tri, Outcome>,
}

/// Adds a pair that isn't both ON in the state, nor in its history. One that is known to stay apart is in no history, so it isn't looked for there.
fn add_pair(seen: Seen<'_>, pair: Pair, pairs: &mut Vec<Pair>) -> Result<(), Memory>
    ensures may { IfOk result (λ _. MayAdd seen.entry.state.now.held pair pairs.old.items pairs.new.items) }
    ensures must { IfOk result (λ _. MustHave seen.entry.state.now.held seen.entry.after.now pairs.new.items pair) }
{
    if are_both_on(seen.state, pair) {
        return Ok(());
    }
    if !is_apart(seen.after, pair) && seen.history.has_both(pair) {
        return Ok(());
    }
    pairs.push(pair)?;
    Ok(())
}

/// Adds the pairs of one with each of the others that aren't both ON in the state, nor in its history.
fn add_pairs(
    seen: Seen<'_>,
    first: Symbol,
    others: &[Symbol],
    pairs: &mut Vec<Pair>,
) -> Result<(), Memory>
    requires apart { AreApart pairs.old.items seen.state.now.held }
    ensures apart { IfOk result (λ _. AreApart pairs.new.items seen.entry.state.now.held) }
    ensures added { IfOk result (λ _. AddsPairs first others.now pairs.old.items pairs.new.items) }
    ensures each { IfOk result (λ _. HasEach seen.entry.state.now.held seen.entry.after.now pairs.new.items first others.now) }
    ensures kept { IfOk result (λ _. All (Contains pairs.new.items) pairs.old.items) }
{
    for number in 0..others.len() {
        let pair = Pair {
            first,
            second: others[number],
        };
        add_pair(seen, pair, pairs)?;
    }
    Ok(())
}

/// The pairs of what is outside the set that aren't both ON in the state, nor after any of the random scans from there: `after` is what is
/// known after one scan.
pub(crate) fn begin(
    alloc: Global,
    program: &Program,
    state: &State,
    history: &History,
    set: &Set,
    after: &Knowledge<Tri, Outcome>,
) -> Result<Vec<Pair>, Memory>
    ensures outside { IfOk result (λ pairs. All (IsPairOutside program.now set.now) pairs.items) }
    ensures apart { IfOk result (λ pairs. AreApart pairs.items state.now.held) }
    ensures told { IfOk result (λ pairs. (pair : Pair) → IsPairOutside program.now set.now pair → (pair.first ≡ pair.second → ⊥) → are_both_on state.now.held pair ≡ false
        → both_told pair after.now ≡ three_known false → Contains pairs.items pair ⊎ Contains pairs.items (turned pair)) }
{
    let symbols = outside(alloc, program, set)?;
    let seen = Seen {
        state,
        history,
        after,
    };
    let mut pairs = Vec::new(alloc);
    for number in 0..symbols.len() {
        add_pairs(seen, symbols[number], &symbols[number + 1..], &mut pairs)?;
    }
    Ok(pairs)
}
