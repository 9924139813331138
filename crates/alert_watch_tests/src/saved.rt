//! Items, and whether a watch is built of them.
use super::shown::key_of;
use alert_watch::AlertWatch;
use flat_form::{Flat, FlatError, Items};
use std::alloc::{AllocError, Global};
use test_tools::unsigned;

/// Adds the item of a word, as `5`, or the items of a key, as `key:7`. The answer is whether the word is known.
fn push_word(alloc: Global, items: &mut Items, word: &str) -> Result<bool, AllocError> {
    let Some(number) = word.strip_prefix("key:") else {
        return push_number(alloc, items, word);
    };
    let Ok(number) = number.parse::<i32>() else {
        return Ok(false);
    };
    key_of(alloc, number)?.flatten(alloc, items)?;
    Ok(true)
}

fn push_number(alloc: Global, items: &mut Items, word: &str) -> Result<bool, AllocError> {
    let Some(number) = unsigned(word) else {
        return Ok(false);
    };
    number.flatten(alloc, items)?;
    Ok(true)
}

/// What comes of building a watch of these words: `a watch`, `a watch and more` where items are left, `bad`, or none
/// where a word isn't known.
pub fn built_of(alloc: Global, words: &str) -> Result<Option<&'static str>, AllocError> {
    let mut items = Items::new(alloc);
    for word in words.split(' ') {
        if !word.is_empty() && !push_word(alloc, &mut items, word)? {
            return Ok(None);
        }
    }
    match AlertWatch::build(alloc, &items, 0) {
        Ok((_watch, next)) => Ok(Some(if next == items.len() {
            "a watch"
        } else {
            "a watch and more"
        })),
        Err(FlatError::Bad) => Ok(Some("bad")),
        Err(FlatError::Memory) => Err(AllocError),
    }
}
