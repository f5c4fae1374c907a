// Laws of every job: each function has nothing to do, and its contract is the law.

ghost use Rattle.mj_jobvm.specs.Fit.{AsksWhatFits};
ghost use Rattle.mj_jobvm.specs.Halted.{EndsByHalt, IsHaltLast};

/// A run that is over has asked its halt last, and so has a log with which it is over.
pub fn ended_by_halt()
    ensures run { EndsByHalt }
    ensures log { IsHaltLast }
{}

/// A job asks of devices only what its sessions with them can serve: it calls none that it hasn't got or that failed, and opens none that it has.
pub fn asks_what_fits()
    ensures { AsksWhatFits }
{}
