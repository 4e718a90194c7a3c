//! The search for a combination that makes true what is assumed.

ghost use Rattle.std.specs.Prelude.{◌≤◌, IsFalse, IsTrue};
ghost use Rattle.assume_possible.specs.Possible.{IsImpossible, IsPossible};

use crate::every::Every;
use assume_search::Assumed;
use causes_query::source::InputSource;
use causes_query::tail;
use search_tree::{Plan, advance, begin};
use st_expression::Expression;

/// Whether an expression over the inputs is true with the combination of some number of `bits` bits. The sources say where each input takes
/// its value from.
pub fn is_possible(assumed: &Expression, sources: Vec<InputSource>, bits: usize) -> bool
    requires { bits ≤ 32 }
    ensures some { IsTrue result → IsPossible assumed.now sources.items bits }
    ensures none { IsFalse result → IsImpossible assumed.now sources.items bits }
{
    let tail = tail(bits);
    let top = bits as u32 - tail;
    let plan = Plan {
        tail,
        top,
        first: 0,
    };
    let mut tree = Assumed {
        tree: Every {
            tail,
            top,
            looks: 0,
            longest: 0,
        },
        assumed: Some(assumed),
        sources,
        tail,
    };
    let mut walk = begin(plan);
    match advance(plan, &mut tree, &mut walk) {
        Some(_) => true,
        None => false,
    }
}
