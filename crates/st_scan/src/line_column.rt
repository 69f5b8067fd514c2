//! Lines and columns, counted as the bytes go by.

ghost use Rattle.std.specs.Prelude.{◌≡◌, ◌+◌, ◌^◌, ◌<◌, ◌≤◌, ℕ, List, [], ◌∷◌, ◌++◌, length};
ghost use Rattle.st_scan.specs.Bytes.{begins_character, is_line_feed};
ghost use Rattle.st_scan.specs.Places.{IsBehind};

use st_num::Span;

/// The line and the column of the next character.
#[derive(Clone, Copy)]
pub(crate) struct LineColumn {
    line: usize,
    column: usize,
}

/// Whether a character of UTF-8 begins with it.
fn begins_character(byte: u8) -> bool
    ensures { result ≡ begins_character byte }
{
    !(128..=191).contains(&byte)
}

impl LineColumn {
    /// The place of the first character of a file.
    pub(crate) fn start() -> LineColumn
        ensures { IsBehind [] result }
    {
        LineColumn { line: 1, column: 1 }
    }

    /// The place behind one more byte.
    fn behind_byte(self, byte: u8) -> LineColumn
        requires lines { self.line + 1 < 2 ^ 64 }
        requires columns { self.column + 1 < 2 ^ 64 }
        ensures same { (before : List ℕ) → IsBehind before self
            → IsBehind (before ++ byte ∷ []) result }
        ensures lines { result.line ≤ self.line + 1 }
        ensures columns { result.column ≤ self.column + 1 }
    {
        if byte == b'\n' {
            LineColumn {
                line: self.line + 1,
                column: 1,
            }
        } else if begins_character(byte) {
            LineColumn {
                line: self.line,
                column: self.column + 1,
            }
        } else {
            self
        }
    }

    /// The place behind some more bytes.
    pub(crate) fn behind(self, bytes: &[u8]) -> LineColumn
        requires lines { self.line + length bytes.now < 2 ^ 64 }
        requires columns { self.column + length bytes.now < 2 ^ 64 }
        ensures same { (before : List ℕ) → IsBehind before self
            → IsBehind (before ++ bytes.now) result }
        ensures lines { result.line ≤ self.line + length bytes.now }
        ensures columns { result.column ≤ self.column + length bytes.now }
    {
        let mut here = self;
        for byte in bytes {
            here = here.behind_byte(*byte);
        }
        here
    }

    /// This place in the file of this number.
    pub(crate) fn span(self, file: u16) -> Span
        requires lines { self.line < 2 ^ 32 }
        requires columns { self.column < 2 ^ 32 }
        ensures { result ≡ record { file = file; line = self.line; column = self.column } }
    {
        Span {
            file,
            line: self.line as u32,
            column: self.column as u32,
        }
    }
}
