//! Words of letters.

ghost use Rattle.std.specs.Prelude.{◌↔◌, All, IsTrue};
ghost use Rattle.st_il.specs.Small.{IsLower, IsUpper, IsWordOf};
ghost use Rattle.st_small.specs.inner.Words.{HasLowerName};

use st_il::SmallRule;
use st_num::Name;

/// Whether the byte is a lower-case letter.
fn is_lower(byte: u8) -> bool
    ensures { IsTrue result ↔ IsLower byte }
{
    b'a' <= byte && byte <= b'z'
}

/// Whether the word has lower-case letters, one at least, and nothing else.
pub fn is_lower_word(word: &[u8]) -> bool
    ensures { IsTrue result ↔ IsWordOf IsLower word.now }
{
    if word.is_empty() {
        return false;
    }
    for byte in word {
        if !is_lower(*byte) {
            return false;
        }
    }
    true
}

/// Whether the byte is an upper-case letter.
fn is_upper(byte: u8) -> bool
    ensures { IsTrue result ↔ IsUpper byte }
{
    b'A' <= byte && byte <= b'Z'
}

/// Whether the word has upper-case letters, one at least, and nothing else.
pub fn is_upper_word(word: &[u8]) -> bool
    ensures { IsTrue result ↔ IsWordOf IsUpper word.now }
{
    if word.is_empty() {
        return false;
    }
    for byte in word {
        if !is_upper(*byte) {
            return false;
        }
    }
    true
}

/// Whether each is a word of upper-case letters.
pub fn are_upper_words(words: &[Name]) -> bool
    ensures { IsTrue result ↔ All (IsWordOf IsUpper) words.now }
{
    for word in words {
        if !is_upper_word(word.as_slice()) {
            return false;
        }
    }
    true
}

/// Whether the name of each rule is a word of lower-case letters.
pub fn have_lower_names(rules: &[SmallRule]) -> bool
    ensures { IsTrue result ↔ All HasLowerName rules.now }
{
    for rule in rules {
        if !is_lower_word(rule.name.as_slice()) {
            return false;
        }
    }
    true
}
