// The debugger over the commands that a reader gives: each is read, and answered on a writer before the next one is.
//
// `debug` begins as a run does (`mj_begin`), and has each command answered (`mj_dialogue`, `talking.rt`). Where the words ask for it a prompt is shown before
// each (`prompts.rt`), and more is answered (`mj_guide`, `guided.rt`). There the record can be cut at a place, and gone on from there. With or without a prompt
// a trace can be opened in the place of a run that begins. Both are runs that are made again (`mj_remade`). How commands end, and what a debugger begins with
// that opens a trace or goes on from a place, is in `specs/Ends.antt`. The globals and the trace are written behind the last command, as they stand at the
// record's end.
#![tactic(auto)]

mod debugs;
mod guided;
mod prompts;
mod talking;

pub use debugs::debug;
