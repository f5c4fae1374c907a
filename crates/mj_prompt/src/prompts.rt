// The prompt of the debugger.

use mj_begin::{routine_bytes, routine_name};
use mj_command_line::Debug;
use mj_debug::Debugger;
use mj_dev::Device;
use mj_drafts::ProgramError;
use mj_inspect::{Source, last_job, line_of, spot_at};
use mj_sessions::Sessions;
use mj_sys::Opening;
use mj_text::Digits;
use std::io::Write;
use std::rt::Files;

/// The commands, as they are listed.
pub const COMMANDS: &[u8] = b"\
s N         steps job N; `s N late` steps it where its timeout is over
go K        steps the jobs in turn, up to K times, to a breakpoint, or until all wait
until clash, until busy, until fault, until R:L
            do so up to a commit that clashed, a step that was busy, the end of a job that faulted,
            or an ask from the line R:L
w           shows what each job asks next, and from which line
b R:L       stops `go` at line L of the routine R, and b LABEL^R at that label's line;
            d R:L and d LABEL^R don't any more; b lists the lines where it stops
watch ^C    stops `go` behind a write to ^C; unwatch ^C doesn't any more; watch lists the names
back, fwd   go one event back or on along the record of what happened
branch      forgets the events behind the place, and goes on otherwise
p X, p ^X   show a local or a global with all below it, as the job sees it that the prompt tells of;
            p N X as job N does; p $TEST and p $TLEVEL show these
f N, v N    show the frames and the variables of job N
k, g        show who holds which names, and the globals
l           shows the source round the line; l R:L and l LABEL^R round another
keep FILE   writes the steps so far to a file, for `mj step --steps`
help        lists the commands
q           ends
An empty line does the last command again.
";

/// How they are listed.
const HINT: &[u8] = b"`help` lists the commands\n";

/// What is shown before each command, on standard error.
#[derive(Drop)]
pub struct Prompt {
    sources: Vec<Source>,
}

/// The prompt, where the words ask for one. The files of the routines are read once more for it.
pub fn prompt_of<'a, R: Files + AllocGlobal>(
    rt: &R,
    order: &Debug<'a>,
) -> Result<Option<Prompt>, ProgramError<'a>> {
    if !order.prompt {
        return Ok(None);
    }
    let mut sources = Vec::new(rt.alloc());
    for file in &order.run.files {
        let bytes = routine_bytes(rt, *file)?;
        let name = routine_name(rt.alloc(), *file)?;
        if sources.push(Source { name, bytes }).is_err() {
            return Err(ProgramError::Memory);
        }
    }
    Ok(Some(Prompt { sources }))
}

impl Prompt {
    /// Shows the line that the last ask before the place came from, if there is one, and that a command is to be given.
    pub fn show<D: Device, O: Opening, E: Write>(
        &self,
        debugger: &Debugger<D, Sessions<D>, O>,
        err: &mut E,
    ) {
        // Where that can't be written, the debugger goes on.
        let _ = self.show_place(debugger, err);
        let _ = err.write_all(b"> ");
    }

    // Shows the line.
    fn show_place<D: Device, O: Opening, E: Write>(
        &self,
        debugger: &Debugger<D, Sessions<D>, O>,
        err: &mut E,
    ) -> Option<()> {
        let job = last_job(debugger)?;
        let (routine, line) = spot_at(debugger)?;
        let mut digits = Digits::new();
        let routine = routine.bytes(&mut digits);
        let _ = write!(err, "job {job} at ");
        let _ = err.write_all(routine);
        let _ = write!(err, ":{line}:");
        let _ = err.write_all(self.line(routine, line));
        let _ = err.write_all(b"\n");
        Some(())
    }

    // The line of this number of a routine, if there is one.
    fn line(&self, routine: &[u8], number: u32) -> &[u8] {
        for source in &self.sources {
            if source.name.as_slice() == routine {
                return line_of(&source.bytes, number).unwrap_or(b"".as_slice());
            }
        }
        b""
    }

    /// The files of the routines.
    pub fn sources(&self) -> &[Source] {
        &self.sources
    }

    /// Says how the commands are listed.
    pub fn greet<E: Write>(&self, err: &mut E) {
        // Where that can't be written, the debugger goes on.
        let _ = err.write_all(HINT);
    }

    /// Lists the commands where the line is `?`; says how they are listed where it is another one that spells no command.
    pub fn help<E: Write>(&self, line: &[u8], err: &mut E) {
        let text = if line == b"?".as_slice() {
            COMMANDS
        } else {
            HINT
        };
        // Where that can't be written, the debugger goes on.
        let _ = err.write_all(text);
    }
}
