//! A case that is there once for each of several numbers.

use crate::statement::number;
use crate::wrong::Wrong;
use std::alloc::{AllocError, Global};
use std::ops::Range;

/// What stands for the number in the lines of the case.
const PLACE: &str = "{n}";

/// The lines of a case, and the numbers that it is there for.
#[derive(Drop)]
pub struct Each {
    alloc: Global,
    first: u64,
    last: u64,
    lines: Vec<String>,
}

impl Each {
    /// The numbers of a line `each FIRST to LAST`, with no lines yet.
    pub fn read(alloc: Global, range: &str) -> Result<Each, Wrong> {
        let Some((first, last)) = range.split_once(" to ") else {
            return Err(Wrong::Word);
        };
        let first = number(first)?;
        let last = number(last)?;
        if last < first {
            return Err(Wrong::Number);
        }
        let lines = Vec::new(alloc);
        Ok(Each {
            alloc,
            first,
            last,
            lines,
        })
    }

    /// Whether there is no line yet.
    pub fn is_empty(&self) -> bool {
        self.lines.is_empty()
    }

    /// The last of the numbers.
    pub fn last(&self) -> u64 {
        self.last
    }

    /// Whether there are numbers behind the first.
    pub fn has_later(&self) -> bool {
        self.first < self.last
    }

    /// The numbers behind the first.
    pub fn later(&self) -> Range<u64> {
        self.first.saturating_add(1)..self.last.saturating_add(1)
    }

    /// Keeps a line, and gives it for the first number.
    pub fn add(&mut self, line: &str) -> Result<String, Wrong> {
        self.lines.push(String::from_str(self.alloc, line)?)?;
        Ok(numbered(self.alloc, line, self.first)?)
    }

    /// The lines for a number.
    pub fn with_number(&self, number: u64) -> Result<Vec<String>, AllocError> {
        let mut lines = Vec::new(self.alloc);
        for line in &self.lines {
            lines.push(numbered(self.alloc, line, number)?)?;
        }
        Ok(lines)
    }
}

/// A line with the number in each place for it.
fn numbered(alloc: Global, line: &str, number: u64) -> Result<String, AllocError> {
    let mut text = String::new(alloc);
    for (place, part) in line.split(PLACE).enumerate() {
        if place > 0 {
            write!(text, "{number}")?;
        }
        text.push_str(part)?;
    }
    Ok(text)
}
