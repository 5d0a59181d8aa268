//! What the words of a line say.
use std::alloc::Global;

/// The first word of a text, and what stands behind it.
pub fn parted(text: &str) -> (&str, &str) {
    match text.split_once(' ') {
        Some(parts) => parts,
        None => (text, ""),
    }
}

/// The words of a text, each on its own.
pub fn words_of(alloc: Global, text: &str) -> Option<Vec<String>> {
    let mut words = Vec::new(alloc);
    put_words(alloc, text, &mut words)?;
    Some(words)
}

/// Puts the words of a text, each on its own, behind others.
pub fn put_words(alloc: Global, text: &str, words: &mut Vec<String>) -> Option<()> {
    for word in text.split_whitespace() {
        words.push(String::from_str(alloc, word).ok()?).ok()?;
    }
    Some(())
}

/// The numbers of a text, each in decimal digits.
pub fn counts_of(alloc: Global, text: &str) -> Option<Vec<u64>> {
    let mut counts = Vec::new(alloc);
    put_counts(text, &mut counts)?;
    Some(counts)
}

fn put_counts(text: &str, counts: &mut Vec<u64>) -> Option<()> {
    for word in text.split_whitespace() {
        counts.push(word.parse::<u64>().ok()?).ok()?;
    }
    Some(())
}

/// Puts the bytes of a text, each in hexadecimal digits, behind others.
pub fn put_bytes(text: &str, bytes: &mut Vec<u8>) -> Option<()> {
    for word in text.split_whitespace() {
        bytes.push(u8::from_str_radix(word, 16).ok()?).ok()?;
    }
    Some(())
}
