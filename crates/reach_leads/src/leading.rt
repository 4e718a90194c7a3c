//! What leaves open what a scan makes of the target, or of what is kept: an input, of which both values are tried then, or something of the state
//! before, which is kept then. It decides how long a search takes, and nothing else.

use crate::kept::Kept;
use crate::traced::{Traced, TracedBlock};
use crate::tracing::Trace;
use diagram_declarations::Symbol;
use diagram_program::Program;
use invariant_cases::Point;
use reach_runs::Literal;
use scan_signals::Tri;

/// What leaves a value open.
fn lead_of(traced: Option<&Traced>) -> Option<Point> {
    match traced {
        Some(
            Traced {
                value: Tri::Unsure,
                by,
            },
        ) => *by,
        Some(_) | None => None,
    }
}

/// What leaves open what an instance keeps.
fn lead_of_block(block: Option<&TracedBlock>) -> Option<Point> {
    match block {
        Some(block) => block.by,
        None => None,
    }
}

/// What leaves a variable, or the output of an instance, open after the scan.
fn lead_of_symbol(trace: &Trace, symbol: Symbol) -> Option<Point> {
    match symbol {
        Symbol::Var(var) => lead_of(trace.values.get(var)),
        Symbol::Instance(inst) => lead_of_block(trace.blocks.get(inst)),
    }
}

/// What leaves the target open after the scan.
pub fn lead_of_target(trace: &Trace, target: &[Literal]) -> Option<Point> {
    target
        .iter()
        .find_map(|literal| lead_of_symbol(trace, literal.symbol))
}

/// An input that leaves a kept variable open after the scan; what of the state does is noted.
fn of_values(program: &Program, trace: &Trace, kept: &Kept, wanted: &mut Kept) -> Option<usize> {
    for var in 0..kept.values.len() {
        if kept.values[var] {
            let input = noted(program, lead_of(trace.values.get(var)), wanted);
            if input.is_some() {
                return input;
            }
        }
    }
    None
}

/// The same of a kept memory.
fn of_memories(program: &Program, trace: &Trace, kept: &Kept, wanted: &mut Kept) -> Option<usize> {
    for number in 0..kept.memories.len() {
        if kept.memories[number] {
            let input = noted(program, lead_of(trace.memories.get(number)), wanted);
            if input.is_some() {
                return input;
            }
        }
    }
    None
}

/// The same of a kept instance.
fn of_blocks(program: &Program, trace: &Trace, kept: &Kept, wanted: &mut Kept) -> Option<usize> {
    for inst in 0..kept.blocks.len() {
        if kept.blocks[inst] {
            let input = noted(program, lead_of_block(trace.blocks.get(inst)), wanted);
            if input.is_some() {
                return input;
            }
        }
    }
    None
}

/// An input that leaves something open after the scan that is kept; what of the state does is noted.
pub fn lead_of_kept(
    program: &Program,
    trace: &Trace,
    kept: &Kept,
    wanted: &mut Kept,
) -> Option<usize> {
    let input = of_values(program, trace, kept, wanted);
    if input.is_some() {
        return input;
    }
    let input = of_memories(program, trace, kept, wanted);
    if input.is_some() {
        return input;
    }
    of_blocks(program, trace, kept, wanted)
}

/// The place of an input among the inputs, in order of declaration.
fn place_of(program: &Program, var: usize) -> Option<usize> {
    let vars = program.decls().vars();
    let mut place = 0;
    for number in 0..vars.len() {
        if vars[number].is_input() {
            if number == var {
                return Some(place);
            }
            place = place.saturating_add(1);
        }
    }
    None
}

/// The place of a point among the inputs, where it is one; something of the state is noted.
pub fn noted(program: &Program, point: Option<Point>, wanted: &mut Kept) -> Option<usize> {
    let point = point?;
    if let Point::Variable(var) = point {
        let place = place_of(program, var);
        if place.is_some() {
            return place;
        }
    }
    let _is_new = wanted.add(point);
    None
}
