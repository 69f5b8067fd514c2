//! Fixed texts and words of letters at the front of bytes.

ghost use Rattle.std.specs.Prelude.{◌≡◌, ◌≢◌, ℕ, ◌≤◌, ◌↔◌, List, ◌++◌, take, drop, length, All, IsTrue, IfSome, MatchOption};
ghost use Rattle.st_small.specs.inner.SmallForm.{IsLetter, IsWord, Stops, Answers};

/// The case of letters.
#[derive(Clone, Copy)]
pub enum Case {
    Lower,
    Upper,
}

impl Case {
    /// Whether the byte is a letter of this case.
    fn has(self, byte: u8) -> bool
        ensures { IsTrue result ↔ IsLetter self byte }
    {
        match self {
            Case::Lower => b'a' <= byte && byte <= b'z',
            Case::Upper => b'A' <= byte && byte <= b'Z',
        }
    }
}

/// What stands behind the given front, where the bytes begin with it.
pub fn behind<'a>(bytes: &'a [u8], front: &[u8]) -> Option<&'a [u8]>
    ensures { MatchOption result ((rest : List ℕ) → bytes.now ≢ front.now ++ rest)
        (λ rest. bytes.now ≡ front.now ++ rest.now) }
{
    bytes.strip_prefix(front)
}

/// How many letters stand at the front.
fn count_letters(bytes: &[u8], case: Case) -> usize
    ensures within { result ≤ length bytes.now }
    ensures letters { All (IsLetter case) (take result bytes.now) }
    ensures stops { Stops (IsLetter case) (drop result bytes.now) }
{
    for (i, byte) in bytes.iter().enumerate() {
        if !case.has(*byte) {
            return i;
        }
    }
    bytes.len()
}

/// The word of letters at the front, as long as it goes, and what stands behind it.
pub fn read_word(bytes: &[u8], case: Case) -> Option<(&[u8], &[u8])>
    ensures read { IfSome result (λ r. IsWord case r.0.now × (bytes.now ≡ r.0.now ++ r.1.now)) }
    ensures only { (word rest : List ℕ) → IsWord case word → Stops (IsLetter case) rest
        → bytes.now ≡ word ++ rest → Answers result word rest }
{
    let count = count_letters(bytes, case);
    if count == 0 {
        return None;
    }
    Some(bytes.split_at(count))
}

/// The word at the front that the given text ends, and what stands behind that text.
pub fn read_word_before<'a>(bytes: &'a [u8], case: Case, end: &[u8]) -> Option<(&'a [u8], &'a [u8])>
    ensures read { IfSome result (λ r. IsWord case r.0.now
        × (bytes.now ≡ r.0.now ++ (end.now ++ r.1.now))) }
    ensures only { (word rest : List ℕ) → IsWord case word
        → Stops (IsLetter case) (end.now ++ rest) → bytes.now ≡ word ++ (end.now ++ rest)
        → Answers result word rest }
{
    let (word, rest) = read_word(bytes, case)?;
    let rest = behind(rest, end)?;
    Some((word, rest))
}
