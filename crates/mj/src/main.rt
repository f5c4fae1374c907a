// The program: `mj_main::run` over the words of the command line and the standard streams.
#![tactic(auto)]

use std::env;
use std::io::{self, ErrorKind, IsTerminal};
use std::process::ExitCode;
use std::thread::Builder;

// The stack of the thread in which the program runs, whatever stack the system gives it: expressions nest 64 levels deep, and each is a few calls.
const STACK: usize = 1 << 23;

fn main(rt: HostRuntime) -> ExitCode {
    let words: Vec<String> = match words(&rt) {
        Ok(words) => words,
        Err(error) => return ExitCode::from(unread(&rt, error.kind())),
    };
    let begun = Builder::new().stack_size(STACK).spawn(&rt, move || {
        mj_main::run(
            &rt,
            &words,
            &mut rt.stdin(),
            &mut rt.stdout(),
            &mut rt.stderr(),
        )
    });
    match begun {
        Ok(thread) => ExitCode::from(thread.join(&rt)),
        Err(_) => ExitCode::from(unread(&rt, ErrorKind::OutOfMemory)),
    }
}

// Says why the words can't be had, and gives the exit status: where one of them isn't UTF-8 they are wrong, else memory was refused.
fn unread(rt: &HostRuntime, why: ErrorKind) -> u8 {
    if why == ErrorKind::InvalidData {
        let _ = eprintln!(rt;
            "error: invalid UTF-8 was detected in one or more arguments\n\nFor more information, try '--help'."
        );
        3
    } else {
        let _ = eprintln!(rt; "memory");
        4
    }
}

// The words of the command line. Where a debugger's commands come from a terminal, its prompt is asked for too, and where refusals go to one, hints are.
fn words(rt: &HostRuntime) -> io::Result<Vec<String>> {
    let mut words: Vec<String> = env::args(rt)?.collect(rt.alloc())?;
    if rt.stdin().is_terminal() {
        ask_for(rt, &mut words, &["debug"], "--prompt")?;
    }
    if rt.stderr().is_terminal() {
        ask_for(
            rt,
            &mut words,
            &[
                "run", "step", "explore", "debug", "replay", "migrate", "explain",
            ],
            "--hints",
        )?;
    }
    Ok(words)
}

// Asks for an option that these commands have, unless the words ask for it.
fn ask_for(
    rt: &HostRuntime,
    words: &mut Vec<String>,
    commands: &[&str],
    option: &str,
) -> io::Result<()> {
    if words.len() >= 2 && lacks(words, commands, option) {
        let word = String::from_str(rt.alloc(), option)?;
        words.insert(2, word)?;
    }
    Ok(())
}

// Whether these words are those of one of the commands, and don't ask for an option.
fn lacks(words: &[String], commands: &[&str], option: &str) -> bool {
    match words.get(1) {
        None => false,
        Some(command) => {
            commands.iter().any(|name| *name == command.as_str())
                && !words.iter().any(|word| word.as_str() == option)
        }
    }
}
