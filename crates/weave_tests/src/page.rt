//! What the program writes.
use std::alloc::Global;

/// A text that grows. What finds no memory is missing, and `is_whole` says so.
#[derive(Drop)]
pub(crate) struct Page {
    alloc: Global,
    bytes: Vec<u8>,
    is_whole: bool,
}

impl Page {
    pub(crate) fn new(alloc: Global) -> Self {
        Page {
            alloc,
            bytes: Vec::new(alloc),
            is_whole: true,
        }
    }

    pub(crate) fn bytes(&self) -> &[u8] {
        &self.bytes
    }

    /// Whether all that was put stands there.
    pub(crate) fn is_whole(&self) -> bool {
        self.is_whole
    }

    fn put(&mut self, bytes: &[u8]) {
        if self.bytes.extend_from_slice(bytes).is_err() {
            self.is_whole = false;
        }
    }

    pub(crate) fn text(&mut self, text: &str) {
        self.put(text.as_bytes());
    }

    /// A text, and the end of the line.
    pub(crate) fn line(&mut self, text: &str) {
        self.put(text.as_bytes());
        self.put(b"\n");
    }

    /// A number in decimal digits.
    fn number(&mut self, number: u64) {
        match format!(in self.alloc; "{number}") {
            Ok(digits) => self.text(&digits),
            Err(_) => self.is_whole = false,
        }
    }

    /// A text, and a number behind it.
    pub(crate) fn count(&mut self, text: &str, number: u64) {
        self.text(text);
        self.number(number);
    }

    /// Numbers in brackets.
    pub(crate) fn list(&mut self, numbers: &[u64]) {
        let mut before = "[";
        for number in numbers {
            self.count(before, *number);
            before = ", ";
        }
        self.text(if numbers.is_empty() { "[]" } else { "]" });
    }

    /// The word `true` or `false`.
    pub(crate) fn truth(&mut self, is_true: bool) {
        self.text(if is_true { "true" } else { "false" });
    }
}
