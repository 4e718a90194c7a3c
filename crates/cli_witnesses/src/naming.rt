//! The name of a witness: that of the row that it shows, and of its files.

ghost use Rattle.std.specs.Prelude.{◌≡◌, ◌<◌, ◌+◌, ◌^◌, ◌++◌, IfOk, OnOk, count_by};
ghost use Rattle.cli_witnesses.specs.Naming.{again, earlier, file_name, have_one_name, row_mark, row_name, subject_of};

use crate::judged::Judged;
use diagram_program::Program;
use diff_cases::Target;
use diff_findings::{Sort, Subject};
use diff_meaning::Witness;
use itoa::Buffer;
use scan_cycle::Memory;
use std::alloc::Global;
use text_findings::{mark_of, name_of};

/// What the row of a difference is about.
fn subject_of(target: Target) -> Subject
    ensures { result ≡ subject_of target }
{
    match target {
        Target::Variable(pair) => Subject {
            sort: Sort::NewVariable,
            number: pair.new,
        },
        Target::Contents(pair) => Subject {
            sort: Sort::NewInstance,
            number: pair.new,
        },
        Target::Memory(pair) => Subject {
            sort: Sort::NewEdge,
            number: pair.new,
        },
    }
}

/// The name of the row, without what stands behind the name of an edge.
fn row_name<'a>(old: &'a Program, new: &'a Program, witness: &Witness) -> &'a [u8]
    ensures { result.now ≡ row_name old.now new.now witness.now }
{
    name_of(old, new, subject_of(witness.target))
}

/// What stands behind the name.
fn row_mark(witness: &Witness) -> &'static [u8]
    ensures { result.now ≡ row_mark witness.now }
{
    mark_of(subject_of(witness.target).sort)
}

/// Whether both rows have the same name.
fn have_one_name(old: &Program, new: &Program, first: &Witness, second: &Witness) -> bool
    ensures { result ≡ have_one_name old.now new.now first.now second.now }
{
    row_name(old, new, first) == row_name(old, new, second) && row_mark(first) == row_mark(second)
}

/// How many of some witnesses have the name of the row.
fn count_named(old: &Program, new: &Program, witness: &Witness, list: &[Witness]) -> usize
    ensures { result ≡ count_by (have_one_name old.now new.now witness.now) list.now }
{
    list.iter()
        .filter(|other| have_one_name(old, new, witness, other))
        .count()
}

/// Adds bytes to a name.
fn add(name: &mut Vec<u8>, bytes: &[u8]) -> Result<(), Memory>
    ensures { OnOk result (name.new.items ≡ name.old.items ++ bytes.now) }
{
    match name.extend_from_slice(bytes) {
        Ok(()) => Ok(()),
        Err(_) => Err(Memory),
    }
}

/// Adds what stands behind a name that so many before have.
fn add_again(name: &mut Vec<u8>, before: usize) -> Result<(), Memory>
    requires { before + 1 < 2 ^ 64 }
    ensures { OnOk result (name.new.items ≡ name.old.items ++ again before) }
{
    if before == 0 {
        return Ok(());
    }
    add(name, b" ")?;
    let mut digits = Buffer::new();
    add(name, digits.format(before as u64 + 1).as_bytes())
}

/// Adds the name of a row, and what stands behind it.
fn add_name(
    name: &mut Vec<u8>,
    judged: &Judged,
    witness: &Witness,
    before: usize,
) -> Result<(), Memory>
    requires { before + 1 < 2 ^ 64 }
    ensures { OnOk result (name.new.items ≡ name.old.items ++ (row_name judged.now.old judged.now.new witness.now ++ (row_mark witness.now ++ again before))) }
{
    add(name, row_name(judged.old(), judged.new(), witness))?;
    add(name, row_mark(witness))?;
    add_again(name, before)
}

impl Judged {
    /// The name of the files of a witness, by its number, counted from 0: that of the row that it shows, as `X`, `T1` or `X edge`, and of the second
    /// and later ones of the same name a number as well, as `X edge 2`. It is empty where there is no such witness.
    ///
    /// # Errors
    ///
    /// `Memory` when out of memory.
    pub fn name(&self, alloc: Global, number: usize) -> Result<Vec<u8>, Memory>
        ensures { IfOk result (λ name. name.items ≡ file_name self.now number) }
    {
        let mut name = Vec::new(alloc);
        let witnesses = self.witnesses();
        if witnesses.len() <= number {
            return Ok(name);
        }
        let witness = &witnesses[number];
        let before = count_named(self.old(), self.new(), witness, &witnesses[..number]);
        match add_name(&mut name, self, witness, before) {
            Ok(()) => Ok(name),
            Err(_) => {
                drop(name);
                Err(Memory)
            }
        }
    }
}
