//! Texts in which words stand for longer ones.

use std::alloc::Global;
use std::test::Fail;

/// The text in which each of these words stands for a longer one, one word after the other.
pub fn filled(alloc: Global, words: &[(&str, &str)], text: &str) -> Result<String, Fail> {
    let mut filled = String::from_str(alloc, text)?;
    for (word, stands_for) in words {
        filled = filled.as_str().replace(alloc, word, stands_for)?;
    }
    Ok(filled)
}
