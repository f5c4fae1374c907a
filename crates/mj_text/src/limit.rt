//! How many bytes a text may have.

ghost use Rattle.std.specs.Prelude.{◌≡◌, ◌≤◌};
ghost use Rattle.mj_text.specs.declared.text.TheConstants.{TEXT_LIMIT};
ghost use Rattle.mj_text.specs.Limit.{most_bytes, smaller};

use crate::text::TEXT_LIMIT;

/// How many bytes the texts of a program may have: today's limit, or the one of programs and traces that were made before there were longer texts.
#[derive(Clone, Copy, PartialEq, Eq, Debug)]
pub enum Limit {
    /// 32,767 bytes
    V1,
    /// 1,048,576 bytes, which is as many as any text has
    V2,
}

impl Limit {
    /// The greatest number of bytes of a text.
    pub fn bytes(self) -> usize
        ensures value { result ≡ most_bytes self }
        ensures within { result ≤ TEXT_LIMIT }
    {
        match self {
            Limit::V1 => 32_767,
            Limit::V2 => TEXT_LIMIT,
        }
    }

    /// The smaller of two limits.
    pub fn smaller(self, other: Limit) -> Limit
        ensures { result ≡ smaller self other }
    {
        match self {
            Limit::V1 => Limit::V1,
            Limit::V2 => other,
        }
    }
}
