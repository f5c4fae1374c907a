// Laws of every run: each function has nothing to do, and its contract is the law.

ghost use Rattle.mj_recorded.specs.Agreeing.{AnswersAgree, AsksAreTold, LogsFollow};
ghost use Rattle.mj_recorded.specs.Laws.{AreRecorded};
ghost use Rattle.mj_recorded.specs.Traces.{AreReadBack, AreMigratedReadBack};

/// What calls of a job's `advance` tell with one log agrees: it is one ask, and none where the job has ended. A job shows no other ask, and its log
/// goes on with no other.
pub fn answers_agree()
    ensures told { AnswersAgree }
    ensures shown { AsksAreTold }
    ensures logs { LogsFollow }
{}

/// Each event of a run can be written.
pub fn events_are_written()
    ensures { AreRecorded }
{}

/// The trace of a run can be written, within the sizes of its values, and what is written is read back as this trace. A replay of it over the run's routines
/// and globals says that it is a run, unless a job goes on for so long that it may be taken for one that asks nothing more.
pub fn traces_are_read_back()
    ensures { AreReadBack }
{}

/// A trace that was brought to today's form can be written, is read back as it was made, and a replay of it says that it is a run.
pub fn migrated_traces_are_read_back()
    ensures { AreMigratedReadBack }
{}
