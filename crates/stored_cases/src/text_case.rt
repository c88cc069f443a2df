// A case that is a text.
use std::alloc::{AllocError, Global};

/// A case of a file of bytes, as far as it was read: a line `== NAME` begins it, and its text is what stands below.
#[derive(Drop)]
pub struct TextCase<'f> {
    name: &'f [u8],
    // Each line with its LF.
    text: Vec<u8>,
}

impl<'f> TextCase<'f> {
    /// The case that a line begins, without a text yet; `None` where it is no line `== NAME`.
    pub fn begun_by(alloc: Global, line: &'f [u8]) -> Option<Self> {
        Some(TextCase {
            name: line.strip_prefix(b"== ")?,
            text: Vec::new(alloc),
        })
    }

    /// The case's name.
    pub fn name(&self) -> &'f [u8] {
        self.name
    }

    /// Adds a line to the case's text.
    pub fn add(&mut self, line: &[u8]) -> Result<(), AllocError> {
        self.text.extend_from_slice(line)?;
        self.text.push(b'\n')?;
        Ok(())
    }

    /// The case's text, without the last LF.
    pub fn text(&self) -> &[u8] {
        match self.text.as_slice() {
            [text @ .., _] => text,
            [] => &[],
        }
    }
}
