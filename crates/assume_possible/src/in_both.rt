//! The search for a combination that makes true what is assumed of two programs.

ghost use Rattle.std.specs.Prelude.{◌≤◌, IsFalse, IsTrue};
ghost use Rattle.assume_possible.specs.Possible.{IsImpossibleInBoth, IsPossibleInBoth};

use crate::every::Every;
use assume_search::Assumed;
use causes_query::source::InputSource;
use causes_query::tail;
use search_tree::{Plan, advance, begin};
use st_expression::Expression;

/// Whether with the combination of some number of `bits` bits one expression is true over the inputs of the old program, and the other one over
/// those of the new program. The sources say where each input of a program takes its value from.
pub fn is_possible_in_both(
    old: &Expression,
    old_sources: Vec<InputSource>,
    new: &Expression,
    new_sources: Vec<InputSource>,
    bits: usize,
) -> bool
    requires { bits ≤ 32 }
    ensures some { IsTrue result → IsPossibleInBoth old.now old_sources.items new.now new_sources.items bits }
    ensures none { IsFalse result → IsImpossibleInBoth old.now old_sources.items new.now new_sources.items bits }
{
    let tail = tail(bits);
    let top = bits as u32 - tail;
    let plan = Plan {
        tail,
        top,
        first: 0,
    };
    let counted = Assumed {
        tree: Every {
            tail,
            top,
            looks: 0,
            longest: 0,
        },
        assumed: Some(new),
        sources: new_sources,
        tail,
    };
    let mut tree = Assumed {
        tree: counted,
        assumed: Some(old),
        sources: old_sources,
        tail,
    };
    let mut walk = begin(plan);
    match advance(plan, &mut tree, &mut walk) {
        Some(_) => true,
        None => false,
    }
}
