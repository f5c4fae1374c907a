// The law of doubts: the function has nothing to do, and its contract is the law.

ghost use Rattle.mj_warnings.specs.Doubts.{DoubtsFault};

/// What is doubtful of a DO, a GOTO or a function ends the job by a fault.
pub fn doubts_fault()
    ensures { DoubtsFault }
{}
