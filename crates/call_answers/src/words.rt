//! The words of a line.

use anyhow::Result;
use std::alloc::Global;

/// The words of a line, which stand between tabs.
pub fn words_of<'a>(alloc: Global, line: &'a str) -> Result<Vec<&'a str>> {
    let mut words = Vec::new(alloc);
    for word in line.split('\t') {
        words.push(word)?;
    }
    Ok(words)
}

/// The word at a place, or an empty one.
pub fn word<'a>(words: &[&'a str], place: usize) -> &'a str {
    match words.get(place) {
        Some(word) => word,
        None => "",
    }
}

/// The number that the word at a place spells, or the largest.
pub fn number(words: &[&str], place: usize) -> usize {
    word(words, place).parse::<usize>().unwrap_or(usize::MAX)
}

/// The words behind the first `count`.
pub fn words_behind<'a, 'b>(words: &'b [&'a str], count: usize) -> &'b [&'a str] {
    if count > words.len() {
        return &[];
    }
    &words[count..]
}
