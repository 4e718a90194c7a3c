//! Of which source the program is built.

/// The commit of the source and the toolchain, as a line: `make dist` writes it while it builds.
pub(crate) const BUILT: &str = "built from a working tree, whose commit isn't recorded\n";
