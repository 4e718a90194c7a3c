//! The versions of the state text.

ghost use Rattle.std.specs.Prelude.{◌≡◌, ◌≢◌, None, IfSome};
ghost use Rattle.csv.specs.Records.{fields_of};
ghost use Rattle.scan_signals.specs.Blocks.{new_block};
ghost use Rattle.text_state.specs.StateText.{has_record, version_record};
ghost use Rattle.text_state.specs.declared.version.Version as version;

use csv::ByteRecord;
use diagram_declarations::BlockKind;
use io_text::is_record;

/// A version of the state text. Version 2 is written, both are read.
#[derive(Clone, Copy, Debug, PartialEq, Eq)]
pub enum Version {
    /// Without records of bistables, which are OFF.
    First,
    /// With a record of each instance.
    Second,
}

impl Version {
    /// Whether a text of this version has records for instances of this kind: version 1 has none for bistables.
    pub(crate) fn has_record(self, kind: BlockKind) -> bool
        ensures { result ≡ has_record self (new_block kind) }
    {
        match kind {
            BlockKind::Sr | BlockKind::Rs => self == Version::Second,
            BlockKind::Ton | BlockKind::Tof | BlockKind::Tp | BlockKind::Ctu | BlockKind::Ctd =>
                true,
        }
    }
}

/// The version that a record says.
pub(crate) fn read_version(row: &ByteRecord) -> Option<Version>
    ensures some { IfSome result (λ v. fields_of row.now ≡ version_record v) }
    ensures none { result ≡ None → (v : version.Version) → fields_of row.now ≢ version_record v }
{
    if is_record(row, [b"version".as_slice(), b"1"].as_slice()) {
        return Some(Version::First);
    }
    if is_record(row, [b"version".as_slice(), b"2"].as_slice()) {
        return Some(Version::Second);
    }
    None
}
