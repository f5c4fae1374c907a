// Laws of every job: each function has nothing to do, and its contract is the law.

ghost use Rattle.mj_semantics.specs.Laws.{IsDeepEnough, IsSteady, HandsOnAtMost};

/// The depth to which `next` follows the points of a run is deep enough for its turns.
pub fn deep_enough()
    ensures { IsDeepEnough }
{}

/// More turns keep what a job comes to.
pub fn steady()
    ensures { IsSteady }
{}

/// What a job does depends on what a restart goes on with for no more turns than the job has.
pub fn hands_on_at_most()
    ensures { HandsOnAtMost }
{}
