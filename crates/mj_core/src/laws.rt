// Laws of every run of many jobs: each function has nothing to do, and its contract is the law.

ghost use Rattle.mj_core.specs.Ended.{HasHalted};

/// A job whose own run is over has asked its halt last, and doesn't go on.
pub fn ended_by_halt()
    ensures { HasHalted }
{}
