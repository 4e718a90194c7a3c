//! Whether all is known of an instance.

use diagram_declarations::BlockKind;
use reach_states::Untimed;
use scan_signals::Tri;

/// Whether all that an instance of a kind keeps is known.
pub(crate) fn is_whole(kind: BlockKind, kept: Untimed) -> bool {
    match (kind, kept) {
        (BlockKind::Sr | BlockKind::Rs, Untimed::Output(q)) => q != Tri::Unsure,
        (_, Untimed::Timer { .. } | Untimed::Counter { .. }) => true,
        (_, Untimed::Output(_) | Untimed::Anything) => false,
    }
}
