// What is said of a line that is refused: the cases, each with its words.

ghost use Rattle.std.specs.Prelude.{◌≡◌};
ghost use Rattle.mj_reasons.specs.Words.{asked_text, part_text, said_text};

use crate::asks::Asked;
use crate::part::Part;

/// What is said of a line that is refused.
#[derive(Clone, Copy)]
pub enum Said {
    /// what is wanted where a line stands, byte by byte
    Wanted(Part),
    /// the header of a listing
    Listing,
    /// the end of a line
    Ends,
    /// a byte 13 before the end of a line
    Returned,
    /// a line of a listing that the machine reads whole
    Node,
    /// a name that is out of order
    Rises,
    /// a word over its limit
    LongWord,
    /// a name or a text over its limit
    LongNode,
    /// the header of a trace
    Trace,
    /// the second line of one
    Limit,
    /// a line of a device
    Pool,
    /// a line of a start
    Start,
    /// the front of a line
    First,
    /// the place of an event
    Place,
    /// the word of an ask
    Asks,
    /// an event too many
    Many,
    /// the form of what a job asks
    Ask(Asked),
}

impl Said {
    /// What is said.
    #[tactic(auto, unfolding(crate::specs::Words::said_text))]
    pub fn words(self) -> &'static str
        ensures { result.now ≡ said_text self }
    {
        match self {
            Said::Wanted(part) => part_words(part),
            Said::Listing =>
                "the first line is `mj-globals 2`, or `mj-globals 1` of older listings",
            Said::Ends => "byte 10 ends each line, the last too, and no byte 13 stands before it",
            Said::Returned => "no byte 13 stands before the byte 10 that ends a line",
            Said::Node =>
                "byte 10 alone ends each line, a subscript that is a number has no quotes, none is empty, and `\\0a` is only for bytes outside 32 to 126",
            Said::Rises =>
                "its name doesn't come after that of the line before: words go by bytes, then subscripts, numbers before texts",
            Said::LongWord => "a word has at most 31 bytes",
            Said::LongNode =>
                "a name has at most 31 subscripts, and a text 1,048,576 bytes, or 32,767 of the older form",
            Said::Trace => "the first line is `mj-trace 2`, or `mj-trace 1` of older traces",
            Said::Limit => "the second line is `limit 1048576`, or `limit 32767`",
            Said::Pool =>
                "`pool \"NAME\" COUNT` stands before all starts, and behind the devices whose names come first by bytes",
            Said::Start =>
                "1 to 255 lines `start A^R` or `start ^R` stand behind all devices and before all events, each with a session of \"0\" left",
            Said::First => "a line begins with `pool`, `start` or the number of a job",
            Said::Place =>
                "behind the number of the job stands where it asked from: `R:12`, or `-`",
            Said::Asks =>
                "behind that stands `value data order query subtree set kill put try unlock begin commit rollback open close start dev rest` or `halt`",
            Said::Many =>
                "no more than 1000000 events stand in a trace, or as many as `--events` says",
            Said::Ask(asked) => asked_words(asked),
        }
    }
}

// What is wanted where a line stands.
#[tactic(auto, unfolding(crate::specs::Words::part_text))]
fn part_words(part: Part) -> &'static str
    ensures { result.now ≡ part_text part }
{
    match part {
        Part::Caret => "a line begins with the name of a global: `^A(1,\"b\")=\"x\"`",
        Part::Word => "behind `^` stands a word: a letter or `%`, then letters and digits",
        Part::Letters => "behind the word stand subscripts in parentheses, or `=` and the value",
        Part::Subscript => "a subscript is a whole number, or a text in quotes",
        Part::Minus => "behind `-` stands a digit that isn't 0",
        Part::Digits(_) =>
            "behind a number stands `,` or `)`; what isn't whole, or has more than 18 digits, is a text in quotes",
        Part::Closed => "behind the name stands `=`",
        Part::Value => "the value stands in quotes",
        Part::Quoted { .. } =>
            "a text ends with a quote, and a byte outside 32 to 126 is written `\\0a`",
        Part::Quote { value: true } => "behind the value stands nothing; a quote in it is doubled",
        Part::Quote { value: false } =>
            "behind a subscript stands `,` or `)`; a quote in it is doubled",
        Part::Escape { .. } =>
            "behind `\\` stands another one, or two hexadecimal digits of lower case",
        Part::Hex { .. } => "behind `\\` stand two hexadecimal digits of lower case",
        Part::Job =>
            "a step is the number of a job, 1 to 255 without zeros in front, and may end in ` late`",
        Part::Number(_) =>
            "a step is the number of a job, 1 to 255 without zeros in front, and may end in ` late`",
        Part::Late(_) =>
            "a step is the number of a job, 1 to 255 without zeros in front, and may end in ` late`",
    }
}

// The form of what a job asks.
#[tactic(auto, unfolding(crate::specs::Words::asked_text))]
fn asked_words(asked: Asked) -> &'static str
    ensures { result.now ≡ asked_text asked }
{
    match asked {
        Asked::Value => "`value ^A(1)` is told a text in quotes, or `-`",
        Asked::Data => "`data ^A(1)` is told `0`, `1`, `10` or `11`",
        Asked::Order => "`order ^A(\"\") 1`, or `-1`, is told a subscript, or `-`",
        Asked::Query => "`query ^A(1)` is told a name, or `-`",
        Asked::Subtree =>
            "`subtree ^A(1)` is told `{(2)=\"x\"}`, the pairs in order, `()` for the node itself",
        Asked::Set => "`set ^A(1) \"x\"` is told `done` or `limit`",
        Asked::Kill => "`kill ^A(1)` is told `done` or `limit`",
        Asked::Put => "`put ^A(1) {(2)=\"x\"}` is told `done` or `limit`",
        Asked::Try =>
            "`try ^A,^B(1) :5` is told `got`, `late` or `limit`; without a timeout `:5` is missing",
        Asked::Unlock => "`unlock ^A,^B(1)` and `unlock *` are told `done` or `limit`",
        Asked::Begin => "`begin` and `begin serial` are told `done`",
        Asked::Commit => "`commit` is told `done`, or `clash 1 \"old\" \"new\"`",
        Asked::Rollback => "`rollback` is told `done`",
        Asked::Open =>
            "`open \"F\" :5` is told `got`, `late` or `none`; without a timeout `:5` is missing",
        Asked::Close => "`close \"F\"` is told `done`",
        Asked::Start =>
            "`start A^R (\"x\",-) :5` is told `job 2` or `limit`; no values are `()`, and `-` stands for one that is left out",
        Asked::Device =>
            "`dev \"F\" begin`, `end` and `write \"x\"` are told `done` or `failed`, `line :5` a text, `byte :5` a code, both also `end`, `late`, `failed`",
        Asked::Rest => "`rest 5` is told `done`",
        Asked::Halt => "`halt`, or `halt F2` behind a fault, is told `done`",
    }
}
