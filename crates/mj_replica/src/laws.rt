// Laws of all runs: each function has nothing to do, and its contract is the law.

ghost use Rattle.mj_replica.specs.Laws.{AreFrontsRuns};

/// A front of a run is a run. So no event behind the first that isn't made mends it.
pub fn fronts_are_runs()
    ensures { AreFrontsRuns }
{}
