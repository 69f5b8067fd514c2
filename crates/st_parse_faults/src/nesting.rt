//! How many brackets, and how many bars of lengths, are open.

ghost use Rattle.std.specs.Prelude as Prelude;
ghost use Rattle.std.specs.Prelude.{◌≡◌, ◌≤◌, reverse};
ghost use Rattle.st_num.specs.declared.limit.TheConstants.{HIGHEST_TREE};
ghost use Rattle.st_parse_faults.specs.inner.Seen as seen;
ghost use Rattle.st_parse_automaton.specs.inner.Readings.{progress_of};

use st_grammar::Closing;
use st_parse_automaton::{Frame, PartKind, Progress, Shape};

/// How many brackets are open behind the token, where so many are open before it.
pub(crate) fn nesting_after(nesting: u8, shape: Shape) -> u8
    requires { nesting ≤ HIGHEST_TREE }
    ensures value { result ≡ seen.nesting_after nesting shape }
    ensures bound { seen.may_open shape ≡ Prelude.false → result ≤ nesting }
{
    match shape {
        Shape::Open(_, _) => nesting + 1,
        Shape::Close(Closing::ByBar) => nesting,
        Shape::Close(_) => nesting.saturating_sub(1),
        Shape::Single(_) | Shape::Dot(_) | Shape::Sign(_) | Shape::Other => nesting,
    }
}

/// Whether the token is a bracket that opens, or a bar.
pub(crate) fn may_open(shape: Shape) -> bool
    ensures { result ≡ seen.may_open shape }
{
    matches!(shape, Shape::Open(_, _) | Shape::Close(Closing::ByBar))
}

/// One for a length that is open in this frame, and else none.
fn bars_in(frame: Frame) -> usize
    ensures value { result ≡ seen.bars_in frame }
    ensures bound { result ≤ 1 }
{
    match frame {
        Frame::Within(PartKind::Length, _, _, _) => 1,
        _ => 0,
    }
}

/// The lengths that are open in these frames.
fn frame_bars(frames: &[Frame]) -> usize
    ensures { result ≡ seen.frame_bars (reverse frames.now) }
{
    let mut found = 0;
    let mut rest = frames;
    'open: while let Some((frame, front)) = rest.split_last() {
        found += bars_in(*frame);
        rest = front;
    }
    found
}

/// The lengths whose opening bars are read, and not their closing ones.
pub(crate) fn bars(progress: &Progress) -> usize
    ensures { result ≡ seen.bars (progress_of progress.now) }
{
    match progress {
        Progress::At(_) => 0,
        Progress::Inside(_, reading, _) => frame_bars(reading.frames.as_slice()),
    }
}
