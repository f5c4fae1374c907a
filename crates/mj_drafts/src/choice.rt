// The options of the command line whose values may be refused, and what each wants.

ghost use Rattle.std.specs.Prelude.{◌≡◌};
ghost use Rattle.mj_drafts.specs.Choices.{wanted_by};

/// An option of the command line whose value may be refused.
#[derive(Clone, Copy, PartialEq, Eq, Debug)]
pub enum Choice {
    /// `--start`
    Start,
    /// `--device`
    Device,
    /// `--until`
    Until,
    /// `--save`
    Save,
    /// `--trace`, where it is written
    Trace,
    /// `--keep`
    Keep,
    /// `--out`
    Out,
    /// `--html`
    Html,
}

impl Choice {
    /// The form that its value has.
    #[tactic(auto, unfolding(crate::specs::Choices::wanted_by))]
    pub fn wants(self) -> &'static str
        ensures { result.now ≡ wanted_by self }
    {
        match self {
            Choice::Start =>
                "`--start` wants `LABEL^ROUTINE` or `^ROUTINE`, and is given at most 255 times",
            Choice::Device =>
                "`--device` wants `NAME=in:FILE` or `NAME=out:FILE`, and another NAME than `0`",
            Choice::Until =>
                "`--until` wants `fault`, `stuck`, `clash` or an expression over globals, such as `^C=4`",
            Choice::Save =>
                "`--save` wants a file that isn't a routine's, nor that of `--steps`, a `--device` or a standard stream",
            Choice::Trace =>
                "`--trace` wants a file that isn't a routine's, nor that of `--steps`, `--globals`, `--save`, a `--device` or a standard stream",
            Choice::Keep =>
                "`--keep` wants a file that isn't a routine's, nor that of `--globals`, a `--device` or a standard stream",
            Choice::Out =>
                "`--out` wants a file that isn't a routine's, nor that of `--globals` or a standard stream",
            Choice::Html =>
                "`--html` wants a file that isn't a routine's, nor that of the trace, `--globals` or a standard stream",
        }
    }
}
