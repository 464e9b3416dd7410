//! One printed line, put together on the stack.

ghost use Rattle.std.specs.Prelude.{◌≡◌, ◌+◌, ◌≤◌, [], ◌++◌, length, decimal};

use arrayvec::ArrayString;
use itoa::Buffer;
use std::marker::Model;

/// The most bytes that a printed line has, its newline not among them.
pub const LONGEST_LINE: usize = 192;

/// A printed line that is being put together, without its newline.
#[derive(Drop)]
pub struct Line {
    text: ArrayString<LONGEST_LINE>,
}

impl Model for Line {
    ghost use Rattle.std.specs.Prelude.{List, ℕ};

    ghost Value = { List ℕ };

    ghost view = { λ line. line.text.bytes };
}

impl Line {
    pub fn new() -> Line
        ensures { result ≡ [] }
    {
        Line {
            text: ArrayString::new(),
        }
    }

    /// Adds a word.
    pub fn word(&mut self, word: &str)
        requires { length self.old + length word.now ≤ LONGEST_LINE }
        ensures { self.new ≡ self.old ++ word.now }
    {
        self.text.push_str(word);
    }

    /// Adds a number in decimal.
    pub fn number(&mut self, number: u64)
        requires { length self.old + 20 ≤ LONGEST_LINE }
        ensures text { self.new ≡ self.old ++ decimal number }
        ensures short { length self.new ≤ length self.old + 20 }
    {
        let mut buffer = Buffer::new();
        self.text.push_str(buffer.format(number));
    }

    pub fn as_bytes(&self) -> &[u8]
        ensures { result.now ≡ self.now }
    {
        self.text.as_str().as_bytes()
    }
}
