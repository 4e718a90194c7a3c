//! What the actions of a rung write in a look.

ghost use Rattle.std.specs.Prelude.{◌≡◌, ◌+◌, length};
ghost use Rattle.diagram_program.specs.declared.gates.TheConstants.{OWN, LINKS};
ghost use Rattle.scan_cycle.specs.Gating.{IsPlaced};
ghost use Rattle.scan_symbolic.specs.Gating.{acted};

use diagram_program::Cell;
use diagram_program::gates::{Action, OWN};
use scan_cycle::effects::stored_by;
use scan_cycle::image::Image;
use scan_cycle::storage::Storage;
use scan_signals::Operations;

/// Writes what one action writes, over any signal, under the guard of its rung. Out of line, since most actions have steps of their
/// own.
#[inline(never)]
pub(crate) fn any_effect<S: Operations>(
    storage: &Storage,
    guard: S,
    links: &[S],
    action: &Action,
    seen: &mut Image<S>,
)
    requires action { IsPlaced action.now }
    requires links { length links.now ≡ LINKS }
    ensures { seen.new ≡ acted S.algebra storage.now.kept guard links.now action.now seen.old }
{
    match action.cell {
        Cell::Coil { mode, var, .. } => {
            let link = links[action.left as usize];
            let old = seen.value(var);
            let new = stored_by(mode, link, S::known(storage.memory(action.cell)), old);
            seen.put_value(var, S::choose(guard, new, old));
        }
        Cell::Block { inst } => {
            let old = seen.end(inst);
            let new = links[OWN + action.place as usize];
            seen.put_end(inst, S::choose(guard, new, old));
        }
        Cell::Empty
        | Cell::Wire
        | Cell::Contact { .. }
        | Cell::Lower { .. }
        | Cell::Jump { .. }
        | Cell::Return => {}
    }
}
