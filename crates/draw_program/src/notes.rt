//! The comments of a text, each with the statement that it stands in front of.

use draw_layout::Comment;
use st_words::Word;
use std::alloc::{AllocError, Global};

/// The place behind the first `*)`, or the end.
fn closing(text: &[u8]) -> usize {
    match text.windows(2).position(|pair| pair == b"*)".as_slice()) {
        Some(place) => place.saturating_add(2).min(text.len()),
        None => text.len(),
    }
}

/// The comment that what stands between two words begins with, behind blanks, and what is behind it.
fn comment_of(between: &[u8]) -> Option<(&[u8], &[u8])> {
    let text = between.trim_ascii_start();
    let end = match text {
        [b'(', b'*', inside @ ..] => closing(inside).saturating_add(2),
        [b'/', b'/', ..] => match text.iter().position(|b| *b == b'\n') {
            Some(place) => place,
            None => text.len(),
        },
        _ => return None,
    };
    let (comment, rest) = text.split_at(end.min(text.len()));
    Some((comment.trim_ascii_end(), rest))
}

/// Adds the comments between two words, in front of a statement.
fn add_between<'t>(
    comments: &mut Vec<Comment<'t>>,
    between: &'t [u8],
    statement: usize,
) -> Result<(), AllocError> {
    let mut rest = between;
    for _ in 0..between.len() {
        let Some((text, behind)) = comment_of(rest) else {
            return Ok(());
        };
        comments.push(Comment { statement, text })?;
        rest = behind;
    }
    Ok(())
}

/// What stands between a word and the one before it.
fn before<'t>(text: &'t [u8], words: &[Word], number: usize) -> &'t [u8] {
    let end = match words.get(number) {
        Some(word) => word.start.min(text.len()),
        None => text.len(),
    };
    let start = match number.checked_sub(1) {
        Some(earlier) => match words.get(earlier) {
            Some(word) => word.end.min(end),
            None => end,
        },
        None => 0,
    };
    &text[start..end]
}

/// The place of the statement with a number; of none behind the last one.
fn start_of(places: &[Word], statement: usize) -> usize {
    match places.get(statement) {
        Some(word) => word.start,
        None => usize::MAX,
    }
}

/// The comments in front of statements, which begin at these words, and those behind the last one.
pub(crate) fn comments_of<'t>(
    alloc: Global,
    text: &'t [u8],
    words: &[Word],
    places: &[Word],
) -> Result<Vec<Comment<'t>>, AllocError> {
    let mut comments = Vec::new(alloc);
    let mut statement = 0;
    let mut is_behind = false;
    for (number, word) in words.iter().enumerate() {
        if word.start >= start_of(places, 0) {
            is_behind = true;
        }
        if word.start > start_of(places, statement) && statement < places.len() {
            statement += 1;
        }
        if is_behind {
            add_between(&mut comments, before(text, words, number), statement)?;
        }
    }
    add_between(
        &mut comments,
        before(text, words, words.len()),
        places.len(),
    )?;
    Ok(comments)
}
