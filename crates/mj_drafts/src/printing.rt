// What is printed, and the exit status that goes with it.

ghost use Rattle.std.specs.Prelude.{◌≡◌, ◌≤◌, OnOk, IfErr};
ghost use Rattle.mj_drafts.specs.Statuses.{status_of, ending_status};

use crate::stop::ProgramError;
use std::io::Write;

/// Says why something couldn't be done, if so, and gives the exit status.
pub fn tell_trouble<E: Write>(done: Result<(), ProgramError<'_>>, err: &mut E) -> u8
    ensures ok { OnOk done.entry (result ≡ 0) }
    ensures err { IfErr done.entry (λ stop. result ≡ status_of stop) }
    ensures bound { result ≤ 4 }
{
    match done {
        Ok(()) => 0,
        Err(stop) => stopped(&stop, err),
    }
}

/// Says why jobs were stopped before their end, if they were, and gives the exit status.
pub fn tell_stop<E: Write>(stop: Option<ProgramError<'_>>, err: &mut E) -> u8
    ensures which { result ≡ ending_status stop.entry }
    ensures bound { result ≤ 4 }
{
    match stop {
        None => 0,
        Some(stop) => stopped(&stop, err),
    }
}

/// Says why the program stops, and gives the exit status.
pub fn stopped<E: Write>(stop: &ProgramError<'_>, err: &mut E) -> u8
    ensures which { result ≡ status_of stop.now }
    ensures bound { result ≤ 4 }
{
    // Where this can't be written either, the status alone tells.
    let _ = writeln!(err, "{stop}");
    stop.status()
}

/// Writes all bytes.
pub fn print<'a, O: Write>(bytes: &[u8], out: &mut O) -> Result<(), ProgramError<'a>> {
    if out.write_all(bytes).is_err() || out.flush().is_err() {
        return Err(ProgramError::File("-"));
    }
    Ok(())
}
