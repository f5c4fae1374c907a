// What is written.

ghost use Rattle.std.specs.Prelude.{◌≡◌, IfErr, OnOk};
ghost use Rattle.std.specs.Io.KnownBytes.{Appends};
ghost use Rattle.mj_dialogue.specs.declared.answering.Unanswered.TheVariants as unanswered;

use mj_dialogue::Unanswered;
use std::io::Write;

// Writes some bytes.
pub fn put<W: Write>(out: &mut W, bytes: &[u8]) -> Result<(), Unanswered>
    ensures ok { OnOk result (Appends (W.contents out.old) (W.contents out.new) bytes.now) }
    ensures err { IfErr result (λ why. why ≡ unanswered.Unwritten) }
{
    match out.write_all(bytes) {
        Ok(()) => Ok(()),
        Err(_) => Err(Unanswered::Unwritten),
    }
}
