//! The words that the language keeps for itself.

ghost use Rattle.std.specs.Prelude.{◌≡◌, ◌↔◌, map, Contains, IsTrue};
ghost use Rattle.st_num.specs.Words.{word_spelling};
ghost use Rattle.st_il.specs.Small.{reserved};

use st_num::Word;

/// Whether the word is reserved, so that it names nothing.
pub fn is_reserved(word: &[u8]) -> bool
    ensures { IsTrue result ↔ Contains reserved word.now }
{
    is_one_of(&Word::ALL, word)
}

/// Whether one of the words is written so.
fn is_one_of(words: &[Word], text: &[u8]) -> bool
    ensures { IsTrue result ↔ Contains (map word_spelling words.now) text.now }
{
    for word in words {
        if is_written(*word, text) {
            return true;
        }
    }
    false
}

/// Whether the word is spelled like this.
fn is_written(word: Word, text: &[u8]) -> bool
    ensures { IsTrue result ↔ (word_spelling word ≡ text.now) }
{
    word.spelling().as_bytes() == text
}
