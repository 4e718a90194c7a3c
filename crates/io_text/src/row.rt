//! What the fields of a record say.

ghost use Rattle.std.specs.Prelude.{◌≡◌, ◌≢◌, true, false, map};
ghost use Rattle.csv.specs.Records.{field_at, fields_of};
ghost use Rattle.io_text.specs.Text.{is_on};

use csv::ByteRecord;

/// Whether the record has just these fields.
pub fn is_record(row: &ByteRecord, fields: &[&[u8]]) -> bool
    ensures same { result ≡ true → fields_of row.now ≡ map (λ f. f.now) fields.now }
    ensures other { result ≡ false → fields_of row.now ≢ map (λ f. f.now) fields.now }
{
    if row.len() != fields.len() {
        return false;
    }
    for number in 0..fields.len() {
        let Some(field) = row.get(number) else {
            return false;
        };
        if field != fields[number] {
            return false;
        }
    }
    true
}

/// Whether a field of the record is the bit of ON.
pub fn is_on(row: &ByteRecord, number: usize) -> bool
    ensures { result ≡ is_on (field_at (fields_of row.now) number) }
{
    match row.get(number) {
        Some([byte]) => *byte == b'1',
        Some(_) | None => false,
    }
}
