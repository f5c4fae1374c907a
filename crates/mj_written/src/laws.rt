// Laws of every job: each function has nothing to do, and its contract is the law.

ghost use Rattle.mj_written.specs.Laws.{AreWritten};

/// After replies that can be written a job asks what can be written.
pub fn asks_are_written()
    ensures { AreWritten }
{}
