// The program, as a library: what the words of the command line ask for, done over a reader and two writers that the caller
// gives.
//
// `run` is the whole program, and its result is the exit status. It reads the words (by `mj_command_line`), then the file of steps, the files of the
// routines, the listing of globals and standard input (`mj_begin`), and then has jobs run: by workers (`mj_threads`), or in turn or as the file says
// (`mj_run`), or live, as one is talked to (`mj_live`), or by the commands of a debugger (`mj_prompt`), or again and again by chance (`mj_search`). Their
// devices are over lines and files (`mj_files`), that of a live run over what is typed (`mj_typed`), those of runs by chance in memory. What is told of a
// run, and what is written, is done by `mj_finish`. What the jobs leave besides is forgotten, not dropped, since the process ends behind `run`. What is done
// with traces of runs is in `mj_recall`.
#![tactic(auto)]

mod lives;
mod program;
mod workers;

pub use mj_drafts::Lockable;
pub use program::run;
