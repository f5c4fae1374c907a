// What each fault means, and what helps.

ghost use Rattle.std.specs.Prelude.{◌≡◌};
ghost use Rattle.mj_faulted.specs.Meanings.{meaning_of, help_of};

use mj_text::Fault;

/// What a fault means.
#[tactic(auto, unfolding(crate::specs::Meanings::meaning_of))]
pub fn meaning(fault: Fault) -> &'static str
    ensures { result.now ≡ meaning_of fault }
{
    match fault {
        Fault::Undefined => "undefined variable",
        Fault::Divide => "division by zero",
        Fault::Fraction => "the quotient is no whole number",
        Fault::Range => "number out of range",
        Fault::Length => "text too long",
        Fault::Subscript => "an empty subscript, or no text of a name",
        Fault::Select => "no condition of $SELECT is true",
        Fault::NoLine => "no such line",
        Fault::Quit => "the wrong QUIT",
        Fault::QuitInTransaction => "QUIT out of an open transaction",
        Fault::NoTransaction => "no transaction is open",
        Fault::NoRestart => "the transaction can't be restarted",
        Fault::InTransaction => "not allowed in a transaction, or in a function",
        Fault::Overlap => "MERGE of overlapping names",
        Fault::NoDevice => "no such device, or it isn't open",
        Fault::Device => "the device failed",
        Fault::Depth => "too many frames",
        Fault::Limit => "a limit is passed",
        Fault::Steps => "too many asks",
        Fault::ForIndex => "the variable of a FOR is undefined",
        Fault::Char => "no byte has this code",
        Fault::Params => "more actuals than formals",
    }
}

/// What helps there.
#[tactic(auto, unfolding(crate::specs::Meanings::help_of))]
pub fn help(fault: Fault) -> &'static str
    ensures { result.now ≡ help_of fault }
{
    match fault {
        Fault::Undefined => {
            "`$GET` gives a value where there is none, and `$DATA` says whether there is one"
        }
        Fault::Divide => "the right operand of `/`, `\\` and `#` can be tested first: `IF Y'=0`",
        Fault::Fraction => "`\\` divides without the fraction, and `#` gives the remainder",
        Fault::Range => "a number has at most 18 digits, and the direction of `$ORDER` is 1 or -1",
        Fault::Length => "a text has at most 1,048,576 bytes",
        Fault::Subscript => {
            "no subscript is empty, but the last one of `$ORDER` and `$QUERY`; `$QLENGTH` and `$QSUBSCRIPT` want the text of a name"
        }
        Fault::Select => "a last condition can always be true: `$SELECT(X=1:\"A\",1:\"B\")`",
        Fault::NoLine => {
            "the routine, its label, or its line outside of a block isn't there: `mj check` tells of most that routines name"
        }
        Fault::Quit => {
            "a function ends by a `QUIT` with a value, and what `DO` calls, or a `FOR`, by one without"
        }
        Fault::QuitInTransaction => {
            "`TCOMMIT` or `TROLLBACK` ends the transaction in the frame that began it, or above it"
        }
        Fault::NoTransaction => {
            "`TSTART` begins one, and `$TLEVEL` is above 0 while one is open"
        }
        Fault::NoRestart => {
            "`TSTART ()` begins one that can be restarted, and `TSTART *` one that restores all locals"
        }
        Fault::InTransaction => {
            "in a transaction there is no `JOB`, and no `LOCK` without `+` or `-`; a function begins none"
        }
        Fault::Overlap => "neither name may be the other one, or stand above it",
        Fault::NoDevice => {
            "`--device NAME=in:FILE` and `=out:FILE` give a session each; `OPEN` takes one, and `USE` wants it open"
        }
        Fault::Device =>
            "its file can't be opened, read or written, or a line of it is longer than a text",
        Fault::Depth => "a job has at most 512 frames: what calls itself without an end?",
        Fault::Limit => {
            "the manual has the limits of names, subscripts, levels, accesses, devices and jobs"
        }
        Fault::Steps => "a job asks 1,000,000 times at most, or as often as `--events` says",
        Fault::ForIndex => "a `KILL` or a `NEW` in the pass took its value away",
        Fault::Char => "codes of bytes are 0 to 255",
        Fault::Params => "the line has fewer formals than it is given values",
    }
}
