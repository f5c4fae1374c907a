// Special variables that are shown.

/// A special variable that is shown.
#[derive(Clone, Copy, PartialEq, Eq, Debug)]
pub enum Special {
    /// `$TEST`
    Test,
    /// `$TLEVEL`
    Level,
}
