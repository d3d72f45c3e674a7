//! The bad line that ends a run. The output has its number; why it is bad is said elsewhere, from what is kept here.
use config::Plans;
use lab_text::{WhyBad, why_bad};
use memchr::memchr;
use streams::MAX_LINE;

/// The line at which a run has ended, if it was bad.
#[derive(Drop)]
pub struct BadLine {
    number: u64,
    len: usize,
    /// Of a line that is too long, one byte more than a line may have.
    bytes: [u8; MAX_LINE + 1],
}

impl BadLine {
    /// None yet.
    pub fn new() -> BadLine {
        BadLine {
            number: 0,
            len: 0,
            bytes: [0; MAX_LINE + 1],
        }
    }

    /// Keeps the first line of a text, which has this number.
    pub(crate) fn keep(&mut self, number: u64, text: &[u8]) {
        let end = match memchr(b'\n', text) {
            Some(end) => end,
            None => text.len(),
        };
        let len = end.min(MAX_LINE + 1);
        self.number = number;
        self.len = len;
        self.bytes[..len].copy_from_slice(&text[..len]);
    }

    /// How many lines there are up to it, with it.
    pub fn number(&self) -> u64 {
        self.number
    }

    /// Why it is bad.
    pub fn why(&self, plans: &Plans) -> WhyBad<'_> {
        let line = &self.bytes[..self.len.min(MAX_LINE + 1)];
        why_bad(plans.union(), plans.count(), line)
    }
}
