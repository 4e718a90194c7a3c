//! The declared name that is nearest to a word.

ghost use Rattle.std.specs.Prelude.{◌≡◌, ◌≤◌, ◌+◌, IfOk, length, map, nat_le};
ghost use Rattle.std.specs.List.{list_all, range_with_len};
ghost use Rattle.diagram_declarations.specs.Decls.{names_of};
ghost use Rattle.diagram_declarations.specs.declared.limits.TheConstants.{MOST_INSTANCES, MOST_VARS};
ghost use Rattle.text_names.specs.Nearest.{far_from, first_near, is_sought, name_at, nearest, nearest_of, wider};

use crate::distance::distance;
use diagram_declarations::Decls;
use std::alloc::{AllocError, Global};

/// What a word is to name.
#[derive(Clone, Copy, Debug, PartialEq, Eq)]
pub enum Wanted {
    /// A variable that a coil can write: no input.
    Written,
    /// An input.
    Input,
    /// A variable.
    Variable,
    /// A variable or an instance.
    Any,
}

/// What stands for the distance of a name that isn't sought: no word is so long.
const FAR: usize = 1_000_000;

/// How many names are declared.
pub fn count_names(decls: &Decls) -> usize
    ensures value { result ≡ length (names_of decls.now) }
    ensures most { result ≤ MOST_VARS + MOST_INSTANCES }
{
    decls.vars().len() + decls.instances().len()
}

/// The name with a number: variables come first, then instances; behind them there is none.
pub fn name_at(decls: &Decls, number: usize) -> &[u8]
    ensures { result.now ≡ name_at decls.now number }
{
    let (vars, instances) = (decls.vars(), decls.instances());
    if number < vars.len() {
        return vars[number].name.bytes();
    }
    match instances.get(number - vars.len()) {
        Some(instance) => instance.name.bytes(),
        None => &[],
    }
}

/// Whether the name with a number is that of what is wanted.
fn is_sought(decls: &Decls, wanted: Wanted, number: usize) -> bool
    ensures { result ≡ is_sought decls.now wanted number }
{
    match decls.vars().get(number) {
        None => match wanted {
            Wanted::Any => true,
            Wanted::Written | Wanted::Input | Wanted::Variable => false,
        },
        Some(var) => match wanted {
            Wanted::Written => !var.is_input(),
            Wanted::Input => var.is_input(),
            Wanted::Variable | Wanted::Any => true,
        },
    }
}

/// How far a word is from the name with a number, if that is sought.
fn far_from(
    alloc: Global,
    decls: &Decls,
    wanted: Wanted,
    word: &[u8],
    number: usize,
) -> Result<usize, AllocError>
    ensures { IfOk result (λ d. d ≡ far_from decls.now wanted word.now number) }
{
    if !is_sought(decls, wanted, number) {
        return Ok(FAR);
    }
    distance(alloc, word, name_at(decls, number))
}

/// How far a word is from each name.
fn distances(
    alloc: Global,
    decls: &Decls,
    wanted: Wanted,
    word: &[u8],
) -> Result<Vec<usize>, AllocError>
    ensures { IfOk result (λ v. v.items ≡ map (far_from decls.now wanted word.now) (range_with_len 0 (length (names_of decls.now)))) }
{
    let mut distances = Vec::new(alloc);
    for number in 0..count_names(decls) {
        let far = far_from(alloc, decls, wanted, word, number)?;
        distances.push(far)?;
    }
    Ok(distances)
}

/// Whether none of these distances is less.
fn is_least(distances: &[usize], distance: usize) -> bool
    ensures { result ≡ list_all (λ d. nat_le distance d) distances.now }
{
    distances.iter().all(|other| distance <= *other)
}

/// The place of the first of the least of these distances, if that is small enough.
fn first_near(distances: &[usize], most: usize) -> Option<usize>
    ensures { result ≡ first_near most distances.now }
{
    distances.iter().position(|distance| *distance <= most && is_least(distances, *distance))
}

/// The number of the name of what is wanted that is nearest to a word, if one is near enough.
fn nearest_of(
    alloc: Global,
    decls: &Decls,
    wanted: Wanted,
    word: &[u8],
) -> Result<Option<usize>, AllocError>
    ensures { IfOk result (λ n. n ≡ nearest_of decls.now wanted word.now) }
{
    let distances = distances(alloc, decls, wanted, word)?;
    Ok(first_near(&distances, (word.len() + 1) / 3))
}

/// What is looked for where no name of what is wanted is near enough.
fn wider(wanted: Wanted) -> Wanted
    ensures { result ≡ wider wanted }
{
    match wanted {
        Wanted::Written | Wanted::Input | Wanted::Variable => Wanted::Variable,
        Wanted::Any => Wanted::Any,
    }
}

/// The number of the declared name that is nearest to a word, those of what is wanted first, if one is near enough: variables are counted first, then
/// instances.
///
/// # Errors
///
/// An error when out of memory.
pub fn nearest(
    alloc: Global,
    decls: &Decls,
    wanted: Wanted,
    word: &[u8],
) -> Result<Option<usize>, AllocError>
    ensures { IfOk result (λ n. n ≡ nearest decls.now wanted word.now) }
{
    match nearest_of(alloc, decls, wanted, word)? {
        Some(number) => Ok(Some(number)),
        None => nearest_of(alloc, decls, wider(wanted), word),
    }
}
