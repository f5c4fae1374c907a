// Laws of every run of the machine: each function has nothing to do, and its contract is the law.

ghost use Rattle.mj_pcode.specs.Laws.{IsDeepEnough, HandsOnAtMost};

/// Instructions as deep as a run has turns are deep enough.
pub fn deep_enough()
    ensures { IsDeepEnough }
{}

/// What a run comes to depends on what a restart goes on with for no more turns than the run has.
pub fn hands_on_at_most()
    ensures { HandsOnAtMost }
{}
