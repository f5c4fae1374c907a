// Whether what has a timeout was in time.

ghost use Rattle.std.specs.Prelude.{◌≡◌};
ghost use Rattle.mj_device_ops.specs.Talked.{test_in};

use mj_num::Num;

/// Gives `$TEST` behind an ask that was served in time, or wasn't. What has no timeout leaves it as it was before.
pub(crate) fn test_in(timeout: Option<Num>, in_time: bool, before: bool) -> bool
    ensures { result ≡ test_in timeout in_time before }
{
    match timeout {
        None => before,
        Some(_) => in_time,
    }
}
