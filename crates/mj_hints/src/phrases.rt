// What helps where a line is refused: the cases, each with its phrase.

ghost use Rattle.std.specs.Prelude.{◌≡◌};
ghost use Rattle.mj_hints.specs.Phrases.{phrase_of, phrase_instead};

use mj_ast::Construct;

/// What helps where a line is refused.
#[derive(Clone, Copy)]
pub enum Hint {
    /// a word that is nearly this one
    Near(&'static [u8]),
    /// what the language leaves out by this name
    Instead(Construct),
    /// two blanks are wanted behind a command without arguments
    TwoBlanks,
    /// two blanks stand before arguments
    OneBlank,
    /// a blank stands inside arguments
    NoBlank,
    /// an argument of `TROLLBACK`
    Rollback,
    /// a `*` before a name that no byte is read into or written of
    Alias,
    /// a function's name has no `(` directly behind it
    Directly,
    /// a `;` directly behind a word
    CommentBlank,
    /// `//` and the like
    Semicolon,
    /// a byte order mark
    Mark,
    /// a value is given, and no `SET` stands before it
    Valued,
    /// `{` or `}`
    Braces,
    /// `[` behind a name
    Brackets,
    /// `<=`
    AtMost,
    /// `>=`
    AtLeast,
    /// `!=` and `<>`
    Unequal,
    /// `==`
    OneEquals,
    /// `&&`
    And,
    /// `||`
    Or,
    /// `++`, `+=` and the like
    Increase,
    /// `%` behind a value
    Remainder,
    /// `'` where none may stand
    Apostrophe,
    /// a quote that isn't closed
    Quote,
    /// a text where none may stand
    Joined,
    /// the line ends, or has a blank, inside parentheses
    Parenthesis,
    /// a `)` too many
    Closed,
    /// a `)` too early
    Fewer,
    /// a `!` behind a value
    NewLine,
    /// something else where a name is wanted
    NameThere,
    /// something else where a command may begin
    CommandThere,
    /// two values with nothing between
    Apart,
    /// a global or subscripts where locals are wanted
    Locals,
    /// a `.` between names
    Dotted,
    /// a `_` where texts aren't joined
    Underscored,
    /// any other byte
    Stray,
    /// a number of more than 18 digits
    LongNumber,
    /// `$X` or `$Y` where a value is given to it
    Column,
    /// `$$F` where a command may begin
    Invoked,
    /// the line ends too early
    Ends,
    /// a label that an earlier line has
    Again,
    /// a line over its limit
    LongLine,
    /// a line too many
    LongRoutine,
    /// a word, or a list of subscripts, over its limit
    LongWord,
    /// a file whose name is no word
    Named,
    /// a level too many
    Deep,
    /// a variable that has the time
    Clock,
    /// a variable that traps faults, or tells of them
    Trap,
    /// the variable of the principal device
    Principal,
    /// `$ZEOF`
    InputEnd,
    /// any other variable that begins with Z
    Passed,
    /// `$VIEW`, `$SYSTEM`, `$STORAGE`
    System,
    /// `$KEY`, `$DEVICE`
    Device,
    /// `$QUIT`
    Asked,
    /// any other variable
    Variables,
    /// `$TEXT`
    Lines,
    /// `$RANDOM`
    Chance,
    /// `$FNUMBER`
    Format,
    /// `$INCREMENT`
    Raised,
    /// `$NEXT`
    Next,
    /// `$ZPREVIOUS`
    Back,
    /// `$ZDATE`
    Dated,
    /// `$ZCONVERT`
    Letters,
    /// a function of lists
    Lists,
    /// `$CASE`
    Cases,
    /// a function whose name without its `Z` is one
    Bytes,
    /// any other function that begins with Z
    PassedFunctions,
    /// any other function
    Functions,
    /// `XECUTE`
    Execute,
    /// `ZWRITE`
    Listed,
    /// `ZKILL`
    Kept,
    /// any other Z command, and `VIEW`
    Extended,
    /// `THEN`
    Then,
    /// `RETURN`
    Returned,
    /// any other command
    Commands,
}

impl Hint {
    /// What is said of it, but for a word that is nearly another one.
    #[tactic(auto, unfolding(crate::specs::Phrases::phrase_of))]
    pub fn phrase(self) -> &'static str
        ensures { result.now ≡ phrase_of self }
    {
        match self {
            Hint::Near(_) => "",
            Hint::Instead(construct) => instead(construct),
            Hint::TwoBlanks =>
                "two blanks stand behind a command that has no arguments: `ELSE  WRITE 1`",
            Hint::OneBlank => "one blank stands between a command and its arguments: `SET X=1`",
            Hint::NoBlank =>
                "no blank stands inside arguments, or beside a comma of theirs: `SET X=1,Y=2`",
            Hint::Rollback => "`TROLLBACK` has no argument, and rolls all levels back",
            Hint::Alias =>
                "there are no aliases: `MERGE X=Y` copies; a `*` that multiplies has no blank before it",
            Hint::Directly => "the `(` of a function stands directly behind its name: `$LENGTH(X)`",
            Hint::CommentBlank => "a blank stands before the `;` of a comment",
            Hint::Semicolon =>
                "a comment begins with `;`, and a quotient without its fraction is `X\\Y`",
            Hint::Mark =>
                "a byte order mark stands there, which isn't seen: save the file without it",
            Hint::Valued => "a value is given by `SET`: `SET X=1`",
            Hint::Braces =>
                "there are no braces: `DO`, with two blanks behind it, runs the lines below that begin with ` .`",
            Hint::Brackets => "subscripts stand in parentheses: `X(1)`",
            Hint::AtMost => "`X<=Y` is written `X'>Y`",
            Hint::AtLeast => "`X>=Y` is written `X'<Y`",
            Hint::Unequal => "\"unequal\" is written `X'=Y`",
            Hint::OneEquals => "\"equal\" is written `X=Y`",
            Hint::And => "\"both\" is written `X&Y`",
            Hint::Or => "\"either\" is written `X!Y`",
            Hint::Increase => "a variable is raised by `SET X=X+1`",
            Hint::Remainder => "the remainder is written `X#Y`",
            Hint::Apostrophe => "a text stands in quotes, `\"text\"`, and `'` means \"not\"",
            Hint::Quote => "the quote isn't closed; inside a text two quotes stand for one",
            Hint::Joined =>
                "texts are joined by `_`, and written one after the other by `WRITE X,Y`",
            Hint::Parenthesis => "a `(` before it isn't closed",
            Hint::Closed => "no `(` is open there",
            Hint::Fewer => "something is missing before it: an argument, or a value",
            Hint::NewLine =>
                "`X!Y` is \"either\"; a `!` that writes a new line is an argument of its own: `WRITE X,!`",
            Hint::NameThere => "a name stands there: a letter or `%`, then letters and digits",
            Hint::CommandThere => "a command begins there: a blank ends the arguments before it",
            Hint::Apart => "an operator or a comma is missing before it",
            Hint::Locals => "locals alone stand there, without subscripts",
            Hint::Dotted =>
                "no name has a `.`, which is no operator either: `_` joins texts, and subscripts stand in parentheses: `X(1)`",
            Hint::Underscored => "no name has a `_`: a letter or `%`, then letters and digits",
            Hint::Stray => "outside of texts and comments no line has this byte",
            Hint::LongNumber => "a number has at most 18 digits",
            Hint::Column => "`$X` and `$Y` can't be set: `WRITE ?5` moves to column 5",
            Hint::Invoked =>
                "a function stands in an argument: `SET X=$$F(1)`; `DO F(1)` runs lines that give no value",
            Hint::Ends => "something is missing: arguments, or a value",
            Hint::Again => "an earlier line has this label",
            Hint::LongLine => "a line has at most 8,192 bytes",
            Hint::LongRoutine => "a routine has at most 10,000 lines",
            Hint::LongWord => "a word has at most 31 bytes, and a variable at most 31 subscripts",
            Hint::Named =>
                "the name of the file, up to its last point, is a word of at most 31 letters and digits, a letter first; a first `_` stands for `%`",
            Hint::Deep => "at most 64 levels nest: a local can hold what is inside",
            Hint::Clock => "there is no clock: pass the time in, by `--stdin` or `--globals`",
            Hint::Trap => "nothing traps a fault: test first, by `$DATA`, `$GET` or `IF`",
            Hint::Principal => "the principal device is \"0\"",
            Hint::InputEnd =>
                "at the end of the input a timed `READ` makes `$TEST` 0: `READ X:0 QUIT:'$TEST`",
            Hint::Passed =>
                "Z variables are left out: leave it out, or pass in what is to be known, by `--stdin` or `--globals`",
            Hint::System => "it looks into the system below, and nothing stands for it",
            Hint::Device =>
                "a device that fails ends the job by `F16 DEVICE`, and at its end a timed `READ` makes `$TEST` 0",
            Hint::Asked =>
                "a line is called by `DO`, or as a function, which ends by a `QUIT` with a value: nothing asks which",
            Hint::Variables =>
                "the variables are `$IO`, `$JOB`, `$TEST`, `$TLEVEL`, `$TRESTART`, `$X` and `$Y`",
            Hint::Lines =>
                "lines can't be read: a local array that a `SET` fills can have the texts",
            Hint::Chance =>
                "numbers by chance come from one of your own: `SET S=S*69069+1#4294967296,N=S\\65536#10`",
            Hint::Format => "`$JUSTIFY`, `$EXTRACT` and `_` can make the text",
            Hint::Raised => "it can be written `LOCK +^C SET (^C,N)=$GET(^C)+1 LOCK -^C`",
            Hint::Next => "`$ORDER` does it, and ends with the empty text",
            Hint::Back => "`$ORDER(X(S),-1)` goes back",
            Hint::Dated =>
                "a date is worked out from the number of its day by `\\` and `#`, or passed in as a text",
            Hint::Letters =>
                "letters are changed by `$TRANSLATE(X,\"abc\",\"ABC\")`, with all of them in both texts",
            Hint::Lists =>
                "a list is kept in a text, as `$PIECE(X,\"^\",2)` has it, or under subscripts: `X(2)`",
            Hint::Cases => "`$SELECT(X=1:\"a\",X=2:\"b\",1:\"c\")` chooses",
            Hint::Bytes => "texts are bytes: the function without the `Z` in its name does it",
            Hint::PassedFunctions =>
                "Z functions are left out: pass in what is to be known, by `--stdin` or `--globals`",
            Hint::Functions =>
                "the functions are `$A $C $D $E $F $G $J $L $NA $O $P $QL $QS $Q $RE $S $TR`, or whole: `$LENGTH`",
            Hint::Execute => "no text is run: write it as lines behind a label, and `DO` runs them",
            Hint::Listed =>
                "`--save FILE` lists the globals, and `g` and `v 1` of `mj debug` list globals and locals",
            Hint::Kept =>
                "what is below is kept so: `MERGE T=^A KILL ^A`, and `MERGE ^A(S)=T(S)` for each S",
            Hint::Extended => "Z commands and `VIEW` are left out, and nothing stands for them",
            Hint::Then =>
                "there is no `THEN`: the commands follow behind a blank, `IF X=1 SET Y=2`",
            Hint::Returned => "`QUIT` returns",
            Hint::Commands => "a command's word is whole, or as short as it can be: `WRITE`, `W`",
        }
    }
}

// What is written instead of a construct that is left out.
#[tactic(auto, unfolding(crate::specs::Phrases::phrase_instead))]
fn instead(construct: Construct) -> &'static str
    ensures { result.now ≡ phrase_instead construct }
{
    match construct {
        Construct::Indirection =>
            "a name is written as it is; `V(N)` has values by names, and `DO A:N=\"A\",B:N=\"B\"` chooses",
        Construct::Fraction =>
            "numbers are whole: count in smaller units, as 150 hundredths for 1.5",
        Construct::Exponent => "write the number in full: `1E3` is `1000`, and `1E5` is `100000`",
        Construct::Power => "multiply: `SET P=1 FOR I=1:1:3 SET P=P*X`",
        Construct::Pattern =>
            "test by functions: `X'=\"\"&($TRANSLATE(X,\"0123456789\")=\"\")` is true of digits; with letters instead, of letters",
        Construct::Naked => "write the whole name: `^A(1)`",
        Construct::Environment => "a subscript more can have the environment: `^A(\"E\",1)`",
        Construct::Structured => "it is left out, and nothing stands for it",
        Construct::ByReference =>
            "leave it out of the call and the label's formals: `DO A` and `$$A` see their caller's locals by name",
        Construct::EntryOffset => "that line can have a label of its own",
        Construct::ReadLength => "`READ *C` reads a byte, and `$CHAR(C)` is its text",
        Construct::DeviceParameters =>
            "they are left out: `--device NAME=in:FILE` and `=out:FILE` say what a device is",
        Construct::ProcessParameters =>
            "they are left out: `JOB A` starts the job, and what it writes is printed",
        Construct::MnemonicSpace => "write the bytes: `WRITE *27`",
        Construct::TransactionId => "a transaction has no name: `TSTART ():SERIAL`",
        Construct::BareSerial => "an argument stands before it: `TSTART ():SERIAL`",
        Construct::SetExtract =>
            "join the parts: `SET X=$EXTRACT(X,1)_\"q\"_$EXTRACT(X,3,$LENGTH(X))`",
        Construct::JustifyDecimals =>
            "where X counts hundredths: `$JUSTIFY(X\\100,5)_\".\"_$EXTRACT(100+(X#100),2,3)`",
        Construct::QueryBackward => "`$ORDER(X(S),-1)` goes back, a level at a time",
        Construct::NameDepth => "name the variable itself: `$NAME(A(1))`",
        Construct::OrderNames =>
            "`$ORDER` wants subscripts: names can be kept under one variable, as `^NAMES(\"A\")`",
        Construct::Function => "it is left out",
        Construct::Variable => "it is left out",
        Construct::Command => "it is left out",
    }
}
