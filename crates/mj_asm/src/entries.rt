// Where DO, GOTO and JOB lead.

ghost use Rattle.std.specs.Prelude.{◌≡◌, IfOk};
ghost use Rattle.mj_ast.specs.Trees.{target_of};
ghost use Rattle.mj_semantics.specs.Lines as lines;
ghost use Rattle.mj_asm.specs.Sites.{here_of};

use crate::site::Site;
use mj_ask::Entry;
use mj_ast::Target;
use std::alloc::AllocError;

/// The entry that a target names, in this routine where it names none.
pub fn entry_of(site: Site, target: &Target) -> Result<Entry, AllocError>
    ensures { IfOk result (λ e. e ≡ lines.entry_of (here_of site.entry) (target_of target.now)) }
{
    let label = match &target.label {
        None => None,
        Some(label) => Some(label.try_clone()?),
    };
    let routine = match &target.routine {
        None => site.routine.try_clone()?,
        Some(routine) => routine.try_clone()?,
    };
    Ok(Entry { label, routine })
}
