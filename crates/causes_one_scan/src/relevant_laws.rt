//! Laws over the definitions: each function does nothing, and its contract is the law.

ghost use Rattle.causes_one_scan.specs.Relevant.{AreListable};

/// Inputs that matter are inputs, none of them twice: of the rules on what is listed, a question about them breaks at most one, that more
/// are listed than the limit.
pub fn listable()
    ensures { AreListable }
{}
