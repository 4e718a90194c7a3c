//! One record of a state: whether it is what would be written, and what it says.

ghost use Rattle.std.specs.Prelude.{◌≡◌, ◌≢◌, ◌<◌, ◌≤◌, ◌*◌, ◌^◌, ◌∷◌, [], ℕ, Bool, None, IfSome, false, true, codes};
ghost use Rattle.csv.specs.Records.{field_at, fields_of};
ghost use Rattle.diagram_program.specs.declared.geometry.TheConstants.{PLACES, RUNGS};
ghost use Rattle.diagram_declarations.specs.declared.kind.BlockKind.TheVariants.{Ton, Ctu, Sr};
ghost use Rattle.scan_signals.specs.Blocks.{new_block};
ghost use Rattle.scan_signals.specs.declared.block.Stored.{Stored};
ghost use Rattle.scan_cycle.specs.Standing.{CanStore};
ghost use Rattle.text_state.specs.Item.{IsBlockRecord};
ghost use Rattle.text_state.specs.StateText.{block_record, memory_record, var_record};
ghost use Rattle.text_state.specs.Parts.{moment_record};

use csv::ByteRecord;
use diagram_declarations::{BlockKind, Instance, Var};
use diagram_program::geometry::{PLACES, ROWS};
use io_text::{bit_field, is_on, is_record, read_number, read_signed};
use itoa::Buffer;
use scan_signals::Stored;

/// Whether a record says this moment.
fn is_moment(field: &[u8], row: &ByteRecord) -> bool
    ensures same { result ≡ true → fields_of row.now ≡ codes "moment" ∷ field.now ∷ [] }
    ensures other { result ≡ false → fields_of row.now ≢ codes "moment" ∷ field.now ∷ [] }
{
    is_record(row, [b"moment".as_slice(), field].as_slice())
}

/// The moment that a record says.
pub(crate) fn read_moment(row: &ByteRecord) -> Option<u64>
    ensures some { IfSome result (λ n. fields_of row.now ≡ moment_record n) }
    ensures small { IfSome result (λ n. n < 2 ^ 64) }
    ensures none { result ≡ None → (n : ℕ) → n < 2 ^ 64 → fields_of row.now ≢ moment_record n }
{
    let Some(field) = row.get(1) else {
        return None;
    };
    let Some(number) = read_number(field) else {
        return None;
    };
    if is_moment(field, row) {
        Some(number)
    } else {
        None
    }
}

/// Whether a record gives this variable this value.
fn is_var(name: &[u8], value: &[u8], row: &ByteRecord) -> bool
    ensures same { result ≡ true → fields_of row.now ≡ codes "var" ∷ name.now ∷ value.now ∷ [] }
    ensures other { result ≡ false → fields_of row.now ≢ codes "var" ∷ name.now ∷ value.now ∷ [] }
{
    is_record(row, [b"var".as_slice(), name, value].as_slice())
}

/// The value that a record gives a variable.
pub(crate) fn read_var(var: &Var, row: &ByteRecord) -> Option<bool>
    ensures some { IfSome result (λ b. fields_of row.now ≡ var_record var.now b) }
    ensures none { result ≡ None → (b : Bool) → fields_of row.now ≢ var_record var.now b }
{
    if is_var(var.name.bytes(), bit_field(true), row) {
        return Some(true);
    }
    if is_var(var.name.bytes(), bit_field(false), row) {
        return Some(false);
    }
    None
}

/// Whether a record gives the edge at this place this memory.
fn is_memory(rung: &[u8], line: &[u8], column: &[u8], bit: &[u8], row: &ByteRecord) -> bool
    ensures same { result ≡ true → fields_of row.now ≡ codes "memory" ∷ rung.now ∷ line.now ∷ column.now ∷ bit.now ∷ [] }
    ensures other { result ≡ false → fields_of row.now ≢ codes "memory" ∷ rung.now ∷ line.now ∷ column.now ∷ bit.now ∷ [] }
{
    is_record(
        row,
        [b"memory".as_slice(), rung, line, column, bit].as_slice(),
    )
}

/// The memory that a record gives the edge at a place.
pub(crate) fn read_memory(place: usize, row: &ByteRecord) -> Option<bool>
    requires { place < PLACES * RUNGS }
    ensures some { IfSome result (λ b. fields_of row.now ≡ memory_record place b) }
    ensures none { result ≡ None → (b : Bool) → fields_of row.now ≢ memory_record place b }
{
    let (mut first, mut second, mut third) = (Buffer::new(), Buffer::new(), Buffer::new());
    let rung = first.format(place / PLACES + 1).as_bytes();
    let line = second.format(place % PLACES % ROWS + 1).as_bytes();
    let column = third.format(place % PLACES / ROWS + 1).as_bytes();
    if is_memory(rung, line, column, bit_field(true), row) {
        return Some(true);
    }
    if is_memory(rung, line, column, bit_field(false), row) {
        return Some(false);
    }
    None
}

/// Whether a record says that this timer stores these fields.
fn is_timer(
    name: &[u8],
    last: &[u8],
    running: &[u8],
    start: &[u8],
    q: &[u8],
    row: &ByteRecord,
) -> bool
    ensures same { result ≡ true → fields_of row.now ≡ codes "timer" ∷ name.now ∷ last.now ∷ running.now ∷ start.now ∷ q.now ∷ [] }
    ensures other { result ≡ false → fields_of row.now ≢ codes "timer" ∷ name.now ∷ last.now ∷ running.now ∷ start.now ∷ q.now ∷ [] }
{
    is_record(
        row,
        [b"timer".as_slice(), name, last, running, start, q].as_slice(),
    )
}

/// Whether a record says that this counter stores these fields.
fn is_counter(name: &[u8], last: &[u8], cv: &[u8], q: &[u8], row: &ByteRecord) -> bool
    ensures same { result ≡ true → fields_of row.now ≡ codes "counter" ∷ name.now ∷ last.now ∷ cv.now ∷ q.now ∷ [] }
    ensures other { result ≡ false → fields_of row.now ≢ codes "counter" ∷ name.now ∷ last.now ∷ cv.now ∷ q.now ∷ [] }
{
    is_record(row, [b"counter".as_slice(), name, last, cv, q].as_slice())
}

/// Whether a record says that this bistable stores this Q.
fn is_bistable(name: &[u8], q: &[u8], row: &ByteRecord) -> bool
    ensures same { result ≡ true → fields_of row.now ≡ codes "bistable" ∷ name.now ∷ q.now ∷ [] }
    ensures other { result ≡ false → fields_of row.now ≢ codes "bistable" ∷ name.now ∷ q.now ∷ [] }
{
    is_record(row, [b"bistable".as_slice(), name, q].as_slice())
}

/// Whether a timer can have this start at the moment.
fn is_possible(running: bool, start: u64, moment: u64) -> bool
    ensures yes { result ≡ true → (start ≤ moment) × (running ≡ false → start ≡ 0) }
    ensures no { result ≡ false → (running ≡ false → start ≡ 0) → moment < start }
{
    if running { start <= moment } else { start == 0 }
}

/// What a record says that a timer stores. A running one can't have started after the moment.
fn read_timer(name: &[u8], moment: u64, row: &ByteRecord) -> Option<Stored>
    ensures some { IfSome result (λ s. IsBlockRecord name.now (new_block Ton) moment (fields_of row.now) s) }
    ensures none { result ≡ None → (s : Stored) → IsBlockRecord name.now (new_block Ton) moment (fields_of row.now) s → ⊥ }
{
    let Some(field) = row.get(4) else {
        return None;
    };
    let Some(start) = read_number(field) else {
        return None;
    };
    let (last, running, q) = (is_on(row, 2), is_on(row, 3), is_on(row, 5));
    if !is_possible(running, start, moment) {
        return None;
    }
    if !is_timer(
        name,
        bit_field(last),
        bit_field(running),
        field,
        bit_field(q),
        row,
    ) {
        return None;
    }
    Some(Stored::Timer {
        last,
        running,
        start,
        q,
    })
}

/// What a record says that a counter stores.
fn read_counter(name: &[u8], row: &ByteRecord) -> Option<Stored>
    ensures some { IfSome result (λ s. (moment : ℕ) → IsBlockRecord name.now (new_block Ctu) moment (fields_of row.now) s) }
    ensures none { result ≡ None → (moment : ℕ) (s : Stored) → IsBlockRecord name.now (new_block Ctu) moment (fields_of row.now) s → ⊥ }
{
    let Some(field) = row.get(3) else {
        return None;
    };
    let Some(cv) = read_signed(field) else {
        return None;
    };
    let (last, q) = (is_on(row, 2), is_on(row, 4));
    if !is_counter(name, bit_field(last), field, bit_field(q), row) {
        return None;
    }
    Some(Stored::Counter { last, cv, q })
}

/// What a record says that a bistable stores.
fn read_bistable(name: &[u8], row: &ByteRecord) -> Option<Stored>
    ensures some { IfSome result (λ s. (moment : ℕ) → IsBlockRecord name.now (new_block Sr) moment (fields_of row.now) s) }
    ensures none { result ≡ None → (moment : ℕ) (s : Stored) → IsBlockRecord name.now (new_block Sr) moment (fields_of row.now) s → ⊥ }
{
    let q = is_on(row, 2);
    if !is_bistable(name, bit_field(q), row) {
        return None;
    }
    Some(Stored::Bistable { q })
}

/// What a record says that an instance stores, if that is possible at the moment.
pub(crate) fn read_block(instance: &Instance, moment: u64, row: &ByteRecord) -> Option<Stored>
    ensures some { IfSome result (λ s. CanStore instance.now.kind moment s) }
    ensures record { IfSome result (λ s. fields_of row.now ≡ block_record instance.now.name s) }
    ensures none { result ≡ None → (s : Stored) → CanStore instance.now.kind moment s → fields_of row.now ≢ block_record instance.now.name s }
{
    let name = instance.name.bytes();
    match instance.kind {
        BlockKind::Ton | BlockKind::Tof | BlockKind::Tp => read_timer(name, moment, row),
        BlockKind::Ctu | BlockKind::Ctd => read_counter(name, row),
        BlockKind::Sr | BlockKind::Rs => read_bistable(name, row),
    }
}
