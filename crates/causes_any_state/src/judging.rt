//! Whether some state leaves the coil at the sought value with a number.

ghost use Rattle.std.specs.Prelude.{◌≡◌, ◌+◌, ◌<◌, ◌%◌, ◌^◌, IsTrue, length, option_map, true};
ghost use Rattle.causes_query.specs.Listable.{IsListable};
ghost use Rattle.invariant_sets.specs.Never.{knowing};
ghost use Rattle.scan_partial.specs.Sizes.{AreAsLong};
ghost use Rattle.causes_any_state.specs.Numbers.{IsBegun, MayKnowCoil, NoneLeavesBy};
ghost use Rattle.causes_any_state.specs.Possible.{AreStatesOf, SomeLeavesBy, set_in};
ghost use Rattle.causes_any_state.specs.Searching.{IsKnowing, AreStateBuffers};
ghost use Rattle.causes_any_state.specs.declared.judging.Verdict.TheVariants.{Never, Found};

use crate::before::Before;
use crate::buffers::StateBuffers;
use crate::numbers::give;
use crate::query::{Knowing, StateQuery};
use crate::seeking::{assumption_of, seek};
use crate::states::pairs;
use diagram_declarations::Symbol;
use invariant_cases::cases::settle;
use invariant_cases::laws::settled_assuming;
use invariant_cases::pinning::pin;
use invariant_cases::{Outcome, Pair, Point, Question};
use invariant_sets::knowing::know;
use invariant_sets::laws::allowed_where_given;
use scan_partial::Knowledge;
use scan_signals::Tri;
use st_expression::Expression;

/// What is settled of a number.
#[derive(Clone, Copy, PartialEq, Eq)]
pub(crate) enum Verdict {
    /// No state with which what is assumed is true leaves the coil at the sought value with it.
    Never,
    /// Some state does, with which what is assumed is true.
    Found,
    /// It isn't settled.
    Open,
}

/// Knows that the coil is OFF where only such states count.
fn know_coil(asked: StateQuery<'_>, known: &mut Knowledge<Tri, Outcome>)
    requires coil { asked.coil < length asked.program.now.decls.vars }
    ensures coil { MayKnowCoil asked.entry.program.now asked.entry.coil asked.entry.states.now.before known.old known.new }
    ensures sizes { AreAsLong known.new known.old }
{
    if asked.states.before == Before::Off && !asked.program.decls().vars()[asked.coil].is_input() {
        pin(Point::Variable(asked.coil), Tri::Off, known);
    }
}

/// Knows what never changes, where only such states count, and nothing else.
fn know_set(asked: StateQuery<'_>, known: &mut Knowing)
    requires states { AreStatesOf asked.program.now asked.states.now }
    requires known { IsKnowing asked.program.now known.old }
    ensures case { known.new.buffers.case ≡ knowing asked.entry.program.now (set_in asked.entry.states.now.staying known.new.none) }
    ensures known { IsKnowing asked.entry.program.now known.new }
{
    match &asked.states.staying {
        Some(staying) => know(asked.program, &staying.steady, &mut known.buffers.case),
        None => know(asked.program, &known.none, &mut known.buffers.case),
    }
}

/// Knows what the number gives the listed inputs, but for those of its last bits, which are open, that the coil is OFF and what never changes, where
/// only such states count, and nothing else.
fn begin(asked: StateQuery<'_>, open_bits: u32, space: &mut StateBuffers)
    requires listable { IsListable asked.program.now asked.coil asked.listed.now }
    requires states { AreStatesOf asked.program.now asked.states.now }
    requires space { AreStateBuffers asked.program.now space.old }
    ensures begun { IsBegun asked.entry.program.now asked.entry.coil asked.entry.listed.now asked.entry.states.now.before open_bits asked.entry.number
        (knowing asked.entry.program.now (set_in asked.entry.states.now.staying space.new.knowing.none)) space.new.knowing.buffers.case }
    ensures space { AreStateBuffers asked.entry.program.now space.new }
{
    let known = &mut space.knowing;
    know_set(asked, known);
    give(
        asked.listed,
        open_bits,
        asked.number,
        asked.program.decls().vars().len(),
        &mut known.buffers.case,
    );
    know_coil(asked, &mut known.buffers.case);
}

/// Whether at most so many scans settle that no state with which what is assumed is true leaves the coil at the sought value with the number,
/// whatever its last bits are, which are open.
pub(crate) fn is_never<'a>(
    asked: StateQuery<'a>,
    assumed: Option<&'a Expression>,
    open_bits: u32,
    space: &mut StateBuffers,
    scans: u32,
) -> bool
    requires listable { IsListable asked.program.now asked.coil asked.listed.now }
    requires aligned { asked.number % 2 ^ open_bits ≡ 0 }
    requires states { AreStatesOf asked.program.now asked.states.now }
    requires space { AreStateBuffers asked.program.now space.old }
    ensures never { result ≡ true
        → NoneLeavesBy (option_map (λ e. e.now) assumed.entry) asked.entry.program.now asked.entry.coil asked.entry.listed.now asked.entry.states.now asked.entry.sought asked.entry.number (asked.entry.number + 2 ^ open_bits) }
    ensures space { AreStateBuffers asked.entry.program.now space.new }
{
    settled_assuming(asked.program);
    allowed_where_given(asked.program);
    begin(asked, open_bits, space);
    // A pair of the coil with itself is ON where the coil is.
    let question = Question {
        program: asked.program,
        writers: &space.knowing.writers,
        assumption: assumption_of(assumed, &space.sight.inputs),
        pairs: pairs(asked.states),
        target: Pair::of_itself(Symbol::Var(asked.coil)),
        wanted: !asked.sought,
    };
    settle(question, &mut space.knowing.buffers, scans).is_settled
}

/// Whether a state is found that leaves the coil at the sought value with the number.
pub(crate) fn finds(
    asked: StateQuery<'_>,
    assumed: Option<&Expression>,
    space: &mut StateBuffers,
) -> bool
    requires listable { IsListable asked.program.now asked.coil asked.listed.now }
    requires states { AreStatesOf asked.program.now asked.states.now }
    requires space { AreStateBuffers asked.program.now space.old }
    ensures found { IsTrue result → SomeLeavesBy (option_map (λ e. e.now) assumed.entry) asked.entry.program.now asked.entry.coil asked.entry.listed.now asked.entry.states.now asked.entry.sought asked.entry.number }
    ensures space { AreStateBuffers asked.entry.program.now space.new }
{
    begin(asked, 0, space);
    seek(asked, assumed, space, asked.looks).is_found
}

/// What is settled of the number.
pub(crate) fn judge(
    asked: StateQuery<'_>,
    assumed: Option<&Expression>,
    space: &mut StateBuffers,
) -> Verdict
    requires listable { IsListable asked.program.now asked.coil asked.listed.now }
    requires states { AreStatesOf asked.program.now asked.states.now }
    requires space { AreStateBuffers asked.program.now space.old }
    ensures never { result ≡ Never → SomeLeavesBy (option_map (λ e. e.now) assumed.entry) asked.entry.program.now asked.entry.coil asked.entry.listed.now asked.entry.states.now asked.entry.sought asked.entry.number → ⊥ }
    ensures found { result ≡ Found → SomeLeavesBy (option_map (λ e. e.now) assumed.entry) asked.entry.program.now asked.entry.coil asked.entry.listed.now asked.entry.states.now asked.entry.sought asked.entry.number }
    ensures space { AreStateBuffers asked.entry.program.now space.new }
{
    if is_never(asked, assumed, 0, space, asked.looks) {
        return Verdict::Never;
    }
    if finds(asked, assumed, space) {
        Verdict::Found
    } else {
        Verdict::Open
    }
}
