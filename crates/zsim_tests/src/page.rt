//! What the program writes.
use std::alloc::Global;

/// A text that grows. What finds no memory is missing, and `is_whole` says so.
#[derive(Drop)]
pub struct Page {
    alloc: Global,
    bytes: Vec<u8>,
    is_whole: bool,
}

impl Page {
    pub fn new(alloc: Global) -> Self {
        Page {
            alloc,
            bytes: Vec::new(alloc),
            is_whole: true,
        }
    }

    pub fn bytes(&self) -> &[u8] {
        &self.bytes
    }

    /// Whether all that was put stands there.
    pub fn is_whole(&self) -> bool {
        self.is_whole
    }

    pub fn put(&mut self, bytes: &[u8]) {
        if self.bytes.extend_from_slice(bytes).is_err() {
            self.is_whole = false;
        }
    }

    pub fn text(&mut self, text: &str) {
        self.put(text.as_bytes());
    }

    /// A text, and the end of the line.
    pub fn line(&mut self, text: &str) {
        self.put(text.as_bytes());
        self.put(b"\n");
    }

    /// A number in decimal digits.
    pub fn number(&mut self, number: u64) {
        match format!(in self.alloc; "{number}") {
            Ok(digits) => self.text(&digits),
            Err(_) => self.is_whole = false,
        }
    }

    /// A byte in two hexadecimal digits.
    pub fn byte(&mut self, byte: u8) {
        match format!(in self.alloc; "{byte:02x}") {
            Ok(digits) => self.text(&digits),
            Err(_) => self.is_whole = false,
        }
    }

    /// The word `true` or `false`.
    pub fn truth(&mut self, is_true: bool) {
        self.text(if is_true { "true" } else { "false" });
    }
}
