// The ends of runs.

ghost use Rattle.std.specs.Prelude.{◌≡◌, ◌++◌, position, IfOk, OnOk, OnErr};
ghost use Rattle.std.specs.Str.{bytes_eq};
ghost use Rattle.std.specs.String.{string_bytes};
ghost use Rattle.mj_core.specs.Runs.{out_of};
ghost use Rattle.mj_dev.specs.Shelves.{principal};
ghost use Rattle.mj_explore.specs.declared.ends.End.{End as EndOf};
ghost use Rattle.mj_explore.specs.Ends.{IsNoted, end_text, lacks_end, output_head, output_text, outputs_of};

use mj_core::Core;
use mj_dev::Memory;
use mj_judge::is_over;
use mj_sessions::Sessions;
use mj_sys::Opening;
use mj_text::Text;
use std::alloc::{AllocError, Global};

/// An end of runs.
#[derive(Drop)]
pub struct End {
    /// what it is, as a text that no other end has
    pub text: Vec<u8>,
    /// how many runs had it
    pub runs: u32,
}

/// Notes that a run had an end of this text.
pub fn note(ends: &mut Vec<End>, text: Vec<u8>) -> Result<(), AllocError>
    ensures ok { OnOk result (IsNoted text.items ends.old.items ends.new.items) }
    ensures err { OnErr result (ends.new.items ≡ ends.old.items) }
{
    match place_of(ends, &text) {
        Some(place) => {
            drop(text);
            let end = &mut ends[place];
            end.runs = end.runs.saturating_add(1);
            Ok(())
        }
        None => {
            ends.reserve(1)?;
            ends.push_reserved(End { text, runs: 1 });
            Ok(())
        }
    }
}

// Where the end of this text stands.
fn place_of(ends: &[End], text: &[u8]) -> Option<usize>
    ensures { result ≡ position (λ (e : EndOf). bytes_eq e.text.items text.now) ends.now }
{
    ends.iter().position(|end| is_of(end, text))
}

// Whether an end has this text.
fn is_of(end: &End, text: &[u8]) -> bool
    ensures { result ≡ bytes_eq end.now.text.items text.now }
{
    end.text.as_slice() == text
}

/// The end of a run, as a text that no other end has: whether all jobs have ended, the globals that are left, and what each wrote.
pub fn end_text<O: Opening>(
    alloc: Global,
    core: &Core<Memory, Sessions<Memory>, O>,
) -> Result<Vec<u8>, AllocError>
    ensures { IfOk result (λ text. text.items ≡ end_text O.opening core.now.history) }
{
    let mut text = Vec::new(alloc);
    text.push(if is_over(core) { b'+' } else { b'-' })?;
    let globals = mj_gfile::write(alloc, core.globals())?;
    text.extend_from_slice(&globals)?;
    put_outputs(alloc, &mut text, core, core.jobs() as u32)?;
    Ok(text)
}

// Puts what so many jobs wrote to the end.
fn put_outputs<O: Opening>(
    alloc: Global,
    text: &mut Vec<u8>,
    core: &Core<Memory, Sessions<Memory>, O>,
    jobs: u32,
) -> Result<(), AllocError>
    ensures { OnOk result (text.new.items ≡ text.old.items ++ outputs_of (λ job. out_of core.now.history job principal 1) jobs) }
{
    let name = Text::from_number(alloc, 0);
    'jobs: for done in 0..jobs {
        let output = core.out(done + 1, &name, 1)?;
        put_output(alloc, text, done + 1, &output)?;
    }
    Ok(())
}

// Puts what a job wrote to the end.
fn put_output(alloc: Global, text: &mut Vec<u8>, job: u32, output: &[u8]) -> Result<(), AllocError>
    ensures { OnOk result (text.new.items ≡ text.old.items ++ output_text job output.now) }
{
    let head = output_head(alloc, job, output.len())?;
    text.extend_from_slice(head.as_bytes())?;
    text.extend_from_slice(output)?;
    if lacks_end(output) {
        text.push(b'\n')?;
    }
    Ok(())
}

// Whether there are bytes, and they don't end a line.
fn lacks_end(output: &[u8]) -> bool
    ensures { result ≡ lacks_end output.now }
{
    match output.last() {
        None => false,
        Some(byte) => *byte != b'\n',
    }
}

// The line before what a job wrote.
fn output_head(alloc: Global, job: u32, count: usize) -> Result<String, AllocError>
    ensures { IfOk result (λ head. string_bytes head ≡ output_head job count) }
{
    let head = format!(in alloc; "job {job} wrote {count} bytes:\n")?;
    Ok(head)
}
