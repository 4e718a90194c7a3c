//! The Q of an instance after a step, by its inputs, its Q before and what it answers, whatever else it stores.

ghost use Rattle.std.specs.Prelude.{◌≡◌};
ghost use Rattle.invariant_cases.specs.Outcomes.{q_after};

use crate::answer::Answer;
use diagram_declarations::BlockKind::{self, Ctd, Ctu, Rs, Sr, Tof, Ton, Tp};
use scan_signals::{Operations, Tri};

/// What is known of Q after a step.
#[tactic(auto, unfolding(crate::specs::Outcomes::q_after))]
pub(crate) fn q_after(
    kind: BlockKind,
    preset: u32,
    q: Tri,
    answer: Answer,
    first: Tri,
    second: Tri,
) -> Tri
    ensures { result ≡ q_after kind preset q answer first second }
{
    let answered = match answer {
        Answer::Off => Tri::Off,
        Answer::On => Tri::On,
        Answer::Input => first,
        Answer::Open => Tri::Unsure,
    };
    match kind {
        Ton | Tof if preset == 0 => first,
        Ton => first.and(answered),
        Tof => first.or(answered),
        Tp if preset == 0 => Tri::Off,
        Tp => answered,
        Ctu | Ctd => Tri::choose(second, Tri::known(preset == 0), answered),
        Sr => first.or(second.not().and(q)),
        Rs => second.not().and(first.or(q)),
    }
}
