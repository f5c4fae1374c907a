// The longer texts of help.

/// The version, and the kit that it was tested with.
pub const VERSION: &str = "0.1.0, tested with rattle-kit-13f logic dac8208d650f15bf";

/// What stands below the help of the program.
pub const EXAMPLES: &str = "\
Examples:
  mj run --start ^R R.m
  mj run --live MENU.m
  mj run --stdin --start ^HELLO HELLO.m < NAMES
  mj run --device LIST=in:NAMES --device OUT=out:LETTER --start ^R R.m
  mj run --trace TRACE --globals DATA --save DATA --start ^R R.m
  mj run --workers 2 --start A^R --start B^R R.m
  mj step --steps STEPS --start A^R --start B^R R.m
  mj explore --until stuck --keep STEPS --start A^R --start B^R R.m
  mj debug --start ^R R.m
  mj check R.m _TOOL.m
  mj replay --trace TRACE R.m
  mj migrate --trace TRACE --out TRACE R.m
  mj explain TRACE R.m

Exit statuses:
  0  all is done
  1  a job faulted, a trace isn't that of a run, or a run by chance shows what it was made for
  2  a routine, a listing of globals, a trace or a file of steps was refused, or a step was
  3  the words of the command line are wrong
  4  memory was refused, a file failed, all jobs wait, or they went on for too long";

/// What stands below the help of `run`.
pub const RUN_EXAMPLE: &str = "\
Examples, from the label LATER of the routine in R.m, two jobs by two threads, and one job over globals that are kept in a file:
  mj run --start LATER^R R.m _TOOL.m
  mj run --workers 2 --start A^R --start B^R R.m
  mj run --start ^R --globals DATA --save DATA R.m

A job that is talked to at a terminal, which writes as it goes and reads a line when it asks for one:
  mj run --live --globals DATA --save DATA MENU.m

A job that reads the lines of standard input, one that opens LIST and OUT, and one whose events are written down, a line each:
  mj run --stdin --start ^HELLO HELLO.m < NAMES
  mj run --device LIST=in:NAMES --device OUT=out:LETTER --start ^R R.m
  mj run --trace TRACE --start ^R R.m

Jobs that all wait for each other wait until they are interrupted, and then no file is written. These tell which jobs wait, and why:
  mj step --why --start A^R --start B^R R.m
  mj explore --until stuck --start A^R --start B^R R.m";

/// What is said where a live run is to have several first jobs.
pub const LIVE_STARTS: &str = "`--live` runs one job, so there may be only one `--start`";

/// What is said where the input of a live run is to be read before it.
pub const LIVE_STDIN: &str =
    "`--live` reads standard input line by line, so `--stdin` can't stand beside it";

/// What is said where a live run is to have workers.
pub const LIVE_WORKERS: &str = "`--live` steps its job, so `--workers` can't stand beside it";

/// What stands below the help of `step`.
pub const STEP_EXAMPLE: &str = "\
Examples, by the steps in a file (`1`, `2` and `1 late` are such lines), and in turn:
  mj step --steps STEPS --start A^R --start B^R R.m
  mj step --why --trace TRACE --start A^R --start B^R R.m";

/// What stands below the help of `explore`.
pub const EXPLORE_EXAMPLE: &str = "\
Examples, of four jobs that each add 1 to ^C, and of two that take locks; the steps that are kept are made again by `mj step`, with the same other options:
  mj explore --until '^C=4' --keep STEPS --start ^R --start ^R --start ^R --start ^R R.m
  mj explore --runs 10000 --until stuck --keep STEPS --start A^R --start B^R R.m
  mj step --steps STEPS --start A^R --start B^R R.m";

/// What stands below the help of `debug`.
pub const DEBUG_EXAMPLE: &str = "\
Commands, one a line, of which `help` lists more at a prompt:
  s N         steps job N; `s N late` steps it where its timeout is over
  go K        steps the jobs in turn, up to K times or to a breakpoint
  b R:L       stops `go` at line L of the routine R; `d R:L` doesn't any more
  back, fwd   go one event back or on along the record of what happened
  f N, v N    show the frames and the variables of job N
  k, g        show who holds which names, and the globals
  q           ends

Examples, at a terminal, of a run that was recorded, of the steps in a file, and by the commands in a file:
  mj debug --start ^R R.m
  mj debug --replay TRACE R.m
  mj step --steps STEPS --trace TRACE --start ^R R.m; mj debug --replay TRACE R.m
  mj debug --globals DATA --start A^R --start B^R R.m < COMMANDS";

/// What is said where a debugger is to make the steps of a file.
pub const DEBUG_STEPS: &str =
    "`mj debug` takes no `--steps`: `mj step --steps FILE --trace TRACE` makes them, and `mj debug --replay TRACE` opens their run";

/// What stands below the help of `check`.
pub const CHECK_EXAMPLE: &str = "\
Example, which prints `ok 2`, or up to 20 lines of each file that are refused, with what helps:
  mj check R.m _TOOL.m";

/// What stands below the help of `replay`.
pub const REPLAY_EXAMPLE: &str = "\
Example, which prints `same`, or `differs at line 6` where the event in line 6 of the trace isn't made, over the globals that were there at first:
  mj replay --trace TRACE --globals DATA R.m";

/// What stands below the help of `migrate`.
pub const MIGRATE_EXAMPLE: &str = "\
Example, which prints `migrated 7`, the number of the events, or `differs at line 6` where the event in line 6 of the trace isn't made:
  mj migrate --trace TRACE --out TRACE --globals DATA R.m";

/// What stands below the help of `explain`.
pub const EXPLAIN_EXAMPLE: &str = "\
Examples, in words, and as a page beside them, over the globals that were there at first:
  mj explain TRACE R.m
  mj explain --globals DATA --html PAGE.html TRACE R.m";
