ghost use Rattle.std.specs.Prelude.{◌≡◌, [], IfOk};
ghost use Rattle.sheet_text.specs.Texts.{TextOf};

use crate::refusal;
use sheet_ops::EditErr;
use ss_base::{Memory, Txt};
use std::alloc::Global;

/// The empty text, of a command that prints nothing. It takes no memory.
pub fn nothing(alloc: Global) -> Txt
    ensures { result ≡ [] }
{
    Txt::from_vec(Vec::new(alloc))
}

/// What is printed of an edit's answer: nothing of one that was done, and of one that was refused a
/// line, by the number of its line in the script. Want of memory isn't printed: it is the answer.
pub fn answer_text(alloc: Global, number: u32, answer: Result<(), EditErr>) -> Result<Txt, Memory>
    ensures { IfOk result (λ t. TextOf answer number t) }
{
    match answer {
        Ok(()) => Ok(nothing(alloc)),
        Err(EditErr::Memory) => Err(Memory),
        Err(cause) => refusal(alloc, number, cause),
    }
}
