// A variable, as it is shown: its name with all below it.

ghost use Rattle.std.specs.Prelude.{◌≡◌, ◌++◌, true, false, IfOk, IfErr, OnOk, option_map};
ghost use Rattle.mj_gfile.specs.Spelling.{listed_line};
ghost use Rattle.mj_sys.specs.History.{state_of};
ghost use Rattle.mj_debug.specs.Walks.{front};
ghost use Rattle.mj_dialogue.specs.Fails.{IsHidden};
ghost use Rattle.mj_dialogue.specs.Lines.{lined};
ghost use Rattle.mj_dialogue.specs.Says.{ChangesNothing};
ghost use Rattle.mj_inspect.specs.Own.{seen_globals, seen_or};
ghost use Rattle.mj_inspect.specs.Shows.{ShowsOf, ShowsVariable, variable_lines, node_lines, is_in};

use crate::own::own_globals;
use crate::telling::{or_mark, said};
use mj_debug::Debugger;
use mj_dev::Device;
use mj_gfile::{put_name, put_text};
use mj_globs::Globals;
use mj_replica::Unshown;
use mj_sessions::Sessions;
use mj_subs::Name;
use mj_sys::Opening;
use mj_text::Text;
use std::alloc::{AllocError, Global};

/// Shows a variable of a job at the place: its lines as a listing has them, and `-` where nothing stands at it or below it.
pub fn show<D: Device, O: Opening>(
    alloc: Global,
    debugger: &mut Debugger<D, Sessions<D>, O>,
    job: u32,
    name: &Name,
) -> Result<Vec<u8>, Unshown>
    ensures ok { IfOk result (λ bytes. ChangesNothing debugger.old debugger.new × ShowsVariable O.opening debugger.old job name.now bytes.items) }
    ensures err { IfErr result (λ why. IsHidden O.opening debugger.old why debugger.new) }
{
    debugger.show()?;
    match variable(alloc, debugger, job, name) {
        Ok(bytes) => Ok(bytes),
        Err(_) => Err(Unshown::Memory),
    }
}

// The lines of a variable of a job.
fn variable<D: Device, O: Opening>(
    alloc: Global,
    debugger: &Debugger<D, Sessions<D>, O>,
    job: u32,
    name: &Name,
) -> Result<Vec<u8>, AllocError>
    requires { debugger.now.ready ≡ true }
    ensures { IfOk result (λ bytes. ShowsVariable O.opening debugger.now job name.now bytes.items) }
{
    if name.is_global() {
        return global_lines(alloc, debugger, job, name);
    }
    local_lines(alloc, debugger, job, name)
}

// The lines of a global, as a job sees it.
fn global_lines<D: Device, O: Opening>(
    alloc: Global,
    debugger: &Debugger<D, Sessions<D>, O>,
    job: u32,
    name: &Name,
) -> Result<Vec<u8>, AllocError>
    requires { debugger.now.ready ≡ true }
    ensures { IfOk result (λ bytes. ShowsOf true O.opening debugger.now job name.now bytes.items) }
{
    let nodes = global_nodes(debugger, job)?;
    lines(alloc, &nodes, name)
}

// The globals, as a job sees them.
fn global_nodes<D: Device, O: Opening>(
    debugger: &Debugger<D, Sessions<D>, O>,
    job: u32,
) -> Result<Vec<(Name, Text)>, AllocError>
    requires { debugger.now.ready ≡ true }
    ensures { IfOk result (λ nodes. nodes.items ≡ seen_globals (state_of O.opening (front debugger.now)) job) }
{
    let own = own_globals(debugger, job)?;
    nodes_of(debugger.globals(), &own)
}

// The nodes of these globals, or of those that a job sees in their place.
fn nodes_of(committed: &Globals, own: &Option<Globals>) -> Result<Vec<(Name, Text)>, AllocError>
    ensures { IfOk result (λ nodes. nodes.items ≡ seen_or committed.now.content (option_map (λ g. g.content) own.now)) }
{
    match own {
        Some(own) => own.nodes(),
        None => committed.nodes(),
    }
}

// The lines of a local.
fn local_lines<D: Device, O: Opening>(
    alloc: Global,
    debugger: &Debugger<D, Sessions<D>, O>,
    job: u32,
    name: &Name,
) -> Result<Vec<u8>, AllocError>
    requires { debugger.now.ready ≡ true }
    ensures { IfOk result (λ bytes. ShowsOf false O.opening debugger.now job name.now bytes.items) }
{
    let Some(locals) = debugger.locals(job) else {
        return said(alloc, b"C1");
    };
    let nodes = locals.nodes()?;
    let bytes = lines(alloc, &nodes, name)?;
    Ok(bytes)
}

// The lines of a name and of all below it, of these, or a mark where there are none.
fn lines(alloc: Global, nodes: &[(Name, Text)], name: &Name) -> Result<Vec<u8>, AllocError>
    ensures { IfOk result (λ bytes. bytes.items ≡ variable_lines nodes.now name.now) }
{
    let found = found_lines(alloc, nodes, name)?;
    or_mark(alloc, found)
}

// The lines of a name and of all below it, of these.
fn found_lines(alloc: Global, nodes: &[(Name, Text)], name: &Name) -> Result<Vec<u8>, AllocError>
    ensures { IfOk result (λ bytes. bytes.items ≡ node_lines nodes.now name.now) }
{
    let mut bytes = Vec::new(alloc);
    for (node, text) in nodes {
        if is_in(node, name) {
            put_node(&mut bytes, node, text)?;
        }
    }
    Ok(bytes)
}

// Puts the line of a name and its text to the end.
fn put_node(bytes: &mut Vec<u8>, name: &Name, text: &Text) -> Result<(), AllocError>
    ensures { OnOk result (bytes.new.items ≡ bytes.old.items ++ lined (listed_line (name.now, text.now))) }
{
    put_name(bytes, name)?;
    bytes.push(b'=')?;
    put_text(bytes, text)?;
    bytes.push(b'\n')?;
    Ok(())
}

// Whether a name is this one, or below it.
fn is_in(node: &Name, name: &Name) -> bool
    ensures { result ≡ is_in node.now name.now }
{
    name.overlap(node) && !node.above(name)
}
