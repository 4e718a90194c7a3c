//! What rungs in common leave alike.

ghost use Rattle.std.specs.Prelude.{◌≡◌, IfOk, length};
ghost use Rattle.diff_cases.specs.declared.target.Target.TheVariants as target;
ghost use Rattle.diff_matching.specs.Suited.{IsSuited};
ghost use Rattle.diff_rungs.specs.Common.{AreLeftAlike};

use crate::marks::Marks;
use crate::planning::walk;
use crate::reading::Versions;
use diagram_program::Program;
use diff_matching::Matching;
use scan_cycle::Memory;
use scan_cycle::scene::checked;
use std::alloc::Global;

/// For each pair of the matching, in its order, whether rungs in common leave it alike.
#[derive(Drop)]
pub struct InCommon {
    pub variables: Vec<bool>,
    pub instances: Vec<bool>,
    pub memories: Vec<bool>,
}

/// For each pair, whether the rungs that two programs have in common tell that one scan of each leaves it alike; no search is made, and of
/// the other pairs nothing is claimed.
///
/// # Errors
///
/// `Memory` when out of memory.
pub fn common(
    alloc: Global,
    matching: &Matching,
    old: &Program,
    new: &Program,
) -> Result<InCommon, Memory>
    requires { IsSuited matching.now old.now new.now }
    ensures as_many_variables { IfOk result (λ c. length c.variables.items ≡ length matching.now.variables) }
    ensures as_many_instances { IfOk result (λ c. length c.instances.items ≡ length matching.now.instances) }
    ensures as_many_memories { IfOk result (λ c. length c.memories.items ≡ length matching.now.memories) }
    ensures variables { IfOk result (λ c. AreLeftAlike target.Variable matching.now.variables c.variables.items matching.now old.now new.now) }
    ensures instances { IfOk result (λ c. AreLeftAlike target.Contents matching.now.instances c.instances.items matching.now old.now new.now) }
    ensures memories { IfOk result (λ c. AreLeftAlike target.Memory matching.now.memories c.memories.items matching.now old.now new.now) }
{
    checked(old);
    checked(new);
    let versions = Versions { matching, old, new };
    let all = Marks::all(alloc, matching)?;
    let mut marks = all.copy()?;
    walk(alloc, versions, &all, &mut marks)?;
    let Marks {
        inputs: _inputs,
        variables,
        instances,
        memories,
    } = marks;
    Ok(InCommon {
        variables,
        instances,
        memories,
    })
}
