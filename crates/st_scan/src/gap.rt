//! Blanks and comments, which stand between tokens.

ghost use Rattle.std.specs.Prelude.{◌≡◌, ◌≤◌, length, List, ℕ, MatchOption, IfSome};
ghost use Rattle.st_scan.specs.Bytes.{is_blank, is_line_feed};
ghost use Rattle.st_scan.specs.Gaps.{gap, between, line, comment, opens, closes, starts_line, opens_comment};

/// Whether it is a space, a tab, a carriage return or a line feed.
pub(crate) fn is_blank(byte: u8) -> bool
    ensures { result ≡ is_blank byte }
{
    byte == b' ' || byte == b'\t' || byte == b'\r' || byte == b'\n'
}

/// Whether these two are `(;`, which opens a comment.
fn opens(first: u8, second: u8) -> bool
    ensures { result ≡ opens first second }
{
    first == b'(' && second == b';'
}

/// Whether these two are `;)`, which closes a comment.
fn closes(first: u8, second: u8) -> bool
    ensures { result ≡ closes first second }
{
    first == b';' && second == b')'
}

/// Whether these two are `;;`, which begins a comment up to the end of the line.
fn starts_line(first: u8, second: u8) -> bool
    ensures { result ≡ starts_line first second }
{
    first == b';' && second == b';'
}

/// Whether a comment opens at the front.
pub(crate) fn opens_comment(bytes: &[u8]) -> bool
    ensures { result ≡ opens_comment bytes.now }
{
    let Some((first, others)) = bytes.split_first() else {
        return false;
    };
    let Some((second, _)) = others.split_first() else {
        return false;
    };
    opens(*first, *second)
}

/// What stands behind the line feed that ends a comment of one line.
#[tactic(auto, unfolding(crate::specs::Gaps::gap))]
fn skip_line(bytes: &[u8]) -> &[u8]
    ensures same { gap line bytes.now ≡ gap between result.now }
    ensures shorter { length result.now ≤ length bytes.now }
{
    let mut rest = bytes;
    'line: while let Some((byte, others)) = rest.split_first() {
        rest = others;
        if *byte == b'\n' {
            return rest;
        }
    }
    rest
}

/// What stands behind a comment, from behind its first sign on.
#[tactic(auto, using(crate::proofs::Gaps::comment_empty, crate::proofs::Gaps::comment_last))]
fn skip_comment(bytes: &[u8]) -> Option<&[u8]>
    ensures same { MatchOption result
        ((start : List ℕ) → gap (comment start 0) bytes.now ≡ start)
        (λ rest. (start : List ℕ) → gap (comment start 0) bytes.now ≡ gap between rest.now) }
    ensures shorter { IfSome result (λ rest. length rest.now ≤ length bytes.now) }
{
    let mut rest = bytes;
    let mut open: usize = 0;
    'comment: loop {
        let (first, others) = rest.split_first()?;
        let (second, behind) = others.split_first()?;
        if closes(*first, *second) {
            if open == 0 {
                return Some(behind);
            }
            open -= 1;
            rest = behind;
        } else if opens(*first, *second) {
            open += 1;
            rest = behind;
        } else {
            rest = others;
        }
    }
}

/// What stands behind the blanks and closed comments at the front.
pub(crate) fn skip_gap(bytes: &[u8]) -> &[u8]
    ensures { result.now ≡ gap between bytes.now }
{
    let mut rest = bytes;
    'between: loop {
        let Some((first, others)) = rest.split_first() else {
            return rest;
        };
        if is_blank(*first) {
            rest = others;
            continue;
        }
        let Some((second, behind)) = others.split_first() else {
            return rest;
        };
        if starts_line(*first, *second) {
            rest = skip_line(behind);
        } else if opens(*first, *second) {
            let Some(after) = skip_comment(behind) else {
                return rest;
            };
            rest = after;
        } else {
            return rest;
        }
    }
}
