// Files that the input contains.
use crate::line::add_line;
use std::alloc::{AllocError, Global};

/// A file with its name.
#[derive(Drop)]
pub struct File {
    pub name: String,
    pub bytes: Vec<u8>,
}

impl File {
    /// Returns a file with no bytes.
    pub fn new(alloc: Global, name: &str) -> Result<File, AllocError> {
        Ok(File {
            name: name.to_owned(alloc)?,
            bytes: Vec::new(alloc),
        })
    }

    /// Adds a line of the input.
    pub fn add_line(&mut self, line: &str) -> Result<(), AllocError> {
        match line.strip_prefix("++ ") {
            Some(count) => self.add_many(count.parse().unwrap_or(0)),
            None => add_line(&mut self.bytes, line.as_bytes()),
        }
    }

    fn add_many(&mut self, count: u32) -> Result<(), AllocError> {
        for _ in 0..count {
            self.bytes.push(b'#')?;
        }
        Ok(())
    }
}
