//! A text, read word by word.

ghost use Rattle.std.specs.Prelude.{◌≡◌, length, IfOk, IfErr};
ghost use Rattle.st_words.specs.Words.{AreWords};
ghost use Rattle.st_words.specs.Places.{AreBetween, spellings};
ghost use Rattle.st_words.specs.Refusals.{Refuses};

use crate::fault::WordFault;
use crate::front::front_of;
use crate::word::Word;
use std::alloc::Global;

/// The words of a text, in its order.
///
/// # Errors
///
/// `Character` has the first place where no word begins and no comment that has an end. `Memory` where memory runs out.
pub fn read_words(alloc: Global, text: &[u8]) -> Result<Vec<Word>, WordFault>
    ensures read { IfOk result (λ words. AreWords text.now (spellings text.now words.items)) }
    ensures places { IfOk result (λ words. AreBetween 0 (length text.now) words.items) }
    ensures refused { IfErr result (Refuses text.now) }
{
    let mut words = Vec::new(alloc);
    let mut rest = text;
    while !rest.is_empty() {
        let start = text.len() - rest.len();
        let Some(front) = front_of(rest) else {
            return Err(WordFault::Character { at: start });
        };
        if front.is_word {
            let end = text.len() - front.rest.len();
            words.push(Word { start, end })?;
        }
        rest = front.rest;
    }
    Ok(words)
}
