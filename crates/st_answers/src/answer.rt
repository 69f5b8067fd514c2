//! What a command answers.

ghost use Rattle.std.specs.Prelude.{◌≡◌, ◌++◌, codes, IfOk};
ghost use Rattle.st_answers.specs.Unbuilt.{IsUnbuilt};

use crate::status::Status;
use st_num::NoMemory;
use std::alloc::Global;

/// How a command ends, and what it prints.
#[derive(Drop)]
pub struct Answer {
    pub status: Status,
    pub bytes: Vec<u8>,
}

/// The answer of one line: a front, and a name behind it.
pub fn line_answer(
    alloc: Global,
    status: Status,
    front: &str,
    name: &str,
) -> Result<Answer, NoMemory>
    ensures status { IfOk result (λ answer. answer.status ≡ status) }
    ensures bytes { IfOk result (λ answer. answer.bytes.items
        ≡ front.now ++ name.now ++ codes "\n") }
{
    let mut bytes = Vec::from_slice(alloc, front.as_bytes())?;
    bytes.extend_from_slice(name.as_bytes())?;
    bytes.extend_from_slice(b"\n")?;
    Ok(Answer { status, bytes })
}

/// The answer where what is asked for is not built.
pub fn unbuilt(alloc: Global) -> Result<Answer, NoMemory>
    ensures { IfOk result (λ answer. IsUnbuilt answer.status answer.bytes.items) }
{
    line_answer(alloc, Status::Unbuilt, "unbuilt", "")
}
