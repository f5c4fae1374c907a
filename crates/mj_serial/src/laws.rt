// Laws of every run: each function has nothing to do, and its contract is the law.

ghost use Rattle.mj_load.specs.Image.{program_of};
ghost use Rattle.mj_serial.specs.Laws.{OpensSo, IsSerial, ClashesMust, IsAsAlone, AllMustClash};
ghost use Rattle.mj_serial.specs.Rules.{Exactly, ByNames, AfterAll, IsSerialBy, ClashesMustBy};

use mj_core::{Answerer, Core, Fresh};
use mj_dev::Device;
use mj_sys::Opening;

/// What the jobs of a core did is as their blocks run alone, and each commit of theirs that clashed had to.
pub fn holds<D: Device, A: Answerer<Fresh<D>>, O: Opening>(core: &Core<D, A, O>)
    ensures serial { IsAsAlone (program_of core.now.image) O.opening core.now.history }
    ensures clashes { AllMustClash (program_of core.now.image) O.opening core.now.history }
{
    // that its history is a run, and that no transaction was open at its opening, comes with its length
    let _run = core.len(); // for the proof
}

/// Every run of many jobs is as its blocks run alone, in the order of their commits.
pub fn serial()
    ensures { IsSerial }
{}

/// In every run of many jobs, a commit clashes only where it must.
pub fn clashes_must()
    ensures { ClashesMust }
{}

/// At the opening of a system no transaction is open, as the two laws want it.
pub fn none_is_open()
    ensures { OpensSo }
{}

/// By the rule of this system for commits, the runs of all programs are so, as long as more turns keep what a program comes to.
pub fn of_all_programs()
    ensures serial { IsSerialBy Exactly }
    ensures clashes { ClashesMustBy Exactly }
{}

/// Where a commit asks again only what was read by its name, some run isn't as its blocks run alone.
pub fn names_are_not_enough()
    ensures { IsSerialBy ByNames → ⊥ }
{}

/// Where a commit asks each read again after all own writes, some run isn't as its blocks run alone.
pub fn after_all_writes_is_late()
    ensures { IsSerialBy AfterAll → ⊥ }
{}
