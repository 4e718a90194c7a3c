//! Which signal is connected with which pin.

ghost use Rattle.std.specs.Prelude.{◌≡◌, ◌++◌, IfOk, map};
ghost use Rattle.clp_project.specs.Format.{lines_of};
ghost use Rattle.clp_project.specs.Hal.{link_of, links_in, links_of_words, links_to};

use crate::lines::lines_of;
use crate::pin::{ClpPin, pin_of};
use crate::words::words_of;
use std::alloc::{AllocError, Global};

/// A pin, and the name of the signal that it is connected with.
#[derive(Clone, Copy)]
pub struct Link<'a> {
    pub pin: ClpPin,
    pub signal: &'a [u8],
}

/// Adds a link between a signal and each pin among the words of a line.
fn add_pins<'a>(
    signal: &'a [u8],
    mut words: &[&[u8]],
    links: &mut Vec<Link<'a>>,
) -> Result<(), AllocError>
    ensures { IfOk result (λ _. map link_of links.new.items ≡ map link_of links.old.items ++ links_to signal.now (map (λ w. w.now) words.entry.now)) }
{
    while let [word, rest @ ..] = words {
        if let Some(pin) = pin_of(word) {
            links.push(Link { pin, signal })?;
        }
        words = rest;
    }
    Ok(())
}

/// Adds the links of a line of a HAL file, by its words: one for each pin of ClassicLadder in a `net`.
#[tactic(auto, unfolding(crate::specs::Hal::links_of_words))]
fn add_words<'a>(words: &[&'a [u8]], links: &mut Vec<Link<'a>>) -> Result<(), AllocError>
    ensures { IfOk result (λ _. map link_of links.new.items ≡ map link_of links.old.items ++ links_of_words (map (λ w. w.now) words.now)) }
{
    match words {
        [word, signal, pins @ ..] if *word == b"net".as_slice() => add_pins(signal, pins, links),
        _ => Ok(()),
    }
}

/// Adds the links of all lines.
fn add_lines<'a>(
    alloc: Global,
    mut lines: &[&'a [u8]],
    links: &mut Vec<Link<'a>>,
) -> Result<(), AllocError>
    ensures { IfOk result (λ _. map link_of links.new.items ≡ map link_of links.old.items ++ links_in (map (λ l. l.now) lines.entry.now)) }
{
    while let [line, rest @ ..] = lines {
        add_words(&words_of(alloc, line)?, links)?;
        lines = rest;
    }
    Ok(())
}

/// The links of a text whose lines are joined, in its order.
///
/// # Errors
///
/// An error when out of memory.
pub fn links_in(alloc: Global, text: &[u8]) -> Result<Vec<Link<'_>>, AllocError>
    ensures { IfOk result (λ v. map link_of v.items ≡ links_in (lines_of text.now)) }
{
    let lines = lines_of(alloc, text)?;
    let mut links = Vec::new(alloc);
    add_lines(alloc, &lines, &mut links)?;
    Ok(links)
}
