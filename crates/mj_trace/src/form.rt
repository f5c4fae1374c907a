// The forms of traces.

ghost use Rattle.std.specs.Prelude.{◌≡◌};
ghost use Rattle.mj_trace.specs.Trace.{limit_line, limit_of, version_of};

use mj_text::Limit;

/// How a trace is written. Today's form says how long the texts of the run may be, and where each ask came from.
#[derive(Clone, Copy, PartialEq, Eq, Debug)]
pub enum Form {
    /// `mj-trace 1`: texts have up to 32,767 bytes, and no ask has a place
    First,
    /// `mj-trace 2`, with the limit of its second line
    Second(Limit),
}

impl Form {
    /// 1 or 2.
    pub fn version(self) -> u32
        ensures { result ≡ version_of self }
    {
        match self {
            Form::First => 1,
            Form::Second(_) => 2,
        }
    }

    /// How long the texts of the run may be.
    pub fn limit(self) -> Limit
        ensures { result ≡ limit_of self }
    {
        match self {
            Form::First => Limit::V1,
            Form::Second(limit) => limit,
        }
    }
}

/// The first line of the older form, without its byte 10.
pub(crate) const FIRST: &[u8] = b"mj-trace 1";

/// And of today's.
pub(crate) const SECOND: &[u8] = b"mj-trace 2";

/// The line of a limit, without its byte 10.
pub(crate) fn limit_line(limit: Limit) -> &'static [u8]
    ensures { result.now ≡ limit_line limit }
{
    match limit {
        Limit::V1 => b"limit 32767",
        Limit::V2 => b"limit 1048576",
    }
}
