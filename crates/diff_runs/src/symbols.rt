//! A symbol of each of two programs, and the symbols that stand for them where both stand side by side.

ghost use Rattle.std.specs.Prelude.{Contains, IfSome};
ghost use Rattle.diff_matching.specs.declared.matching.Pair.{Pair};
ghost use Rattle.diff_runs.specs.Asking.{AreIn};
ghost use Rattle.diff_runs.specs.Showing.{BelongTogether};

use diagram_declarations::Symbol;
use diff_matching::{Matching, Pair};

/// Two variables, or two instances, of which the outputs are meant: one of OLD, and one of NEW.
#[derive(Clone, Copy)]
pub struct TwoSymbols {
    pub old: Symbol,
    pub new: Symbol,
}

/// The number that is in a pair with one of OLD.
fn number_with(pairs: &[Pair], number: usize) -> Option<usize>
    ensures { IfSome result (λ n. Contains pairs.now (record { old = number; new = n })) }
{
    let pair = pairs.iter().find(|pair| pair.old == number)?;
    Some(pair.new)
}

/// The symbol that belongs to one of OLD.
fn symbol_with(matching: &Matching, symbol: Symbol) -> Option<Symbol>
    ensures { IfSome result (BelongTogether matching.now symbol) }
{
    match symbol {
        Symbol::Var(var) => Some(Symbol::Var(number_with(matching.variables(), var)?)),
        Symbol::Instance(inst) => Some(Symbol::Instance(number_with(matching.instances(), inst)?)),
    }
}

/// The symbols that belong to a symbol of OLD and to one of NEW in the program in which both stand. `None` where one belongs to none.
pub fn symbols_in(of_old: &Matching, of_new: &Matching, symbols: TwoSymbols) -> Option<TwoSymbols>
    ensures { IfSome result (AreIn of_old.now of_new.now symbols) }
{
    Some(TwoSymbols {
        old: symbol_with(of_old, symbols.old)?,
        new: symbol_with(of_new, symbols.new)?,
    })
}
