// When a job that waits is told that it is late.

ghost use Rattle.std.specs.Prelude.{◌≡◌};
ghost use Rattle.mj_ask.specs.Late.{is_timed_out};

use mj_num::Num;

/// Whether a timeout is over: it is 0 or less, or the job was stepped late. Without a timeout a job is never late.
pub fn is_timed_out(timeout: Option<Num>, late: bool) -> bool
    ensures { result ≡ is_timed_out timeout late }
{
    match timeout {
        None => false,
        Some(timeout) => late || timeout.value() <= 0,
    }
}
