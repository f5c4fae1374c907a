// Laws of every run of many jobs: each function has nothing to do, and its contract is the law.

ghost use Rattle.mj_dev.specs.Told.{IsToldBy};
ghost use Rattle.mj_fit.specs.Laws.{OpensFree, AllAreServed, NoStepIsUnfit, AllAreServedBy, NoTalkIsUnfit};

use mj_dev::Device;

/// No job holds a device when a system begins.
pub fn none_is_held()
    ensures { OpensFree }
{}

/// What a job asks next in a run can be served: its session with the device is there, and may be called; or it hasn't got the device that it opens.
pub fn all_are_served()
    ensures { AllAreServed }
{}

/// So no step that a core makes in a run is unfit.
pub fn no_step_is_unfit()
    ensures { NoStepIsUnfit }
{}

/// What a job asks next can be served where it has the sessions that the replies of its log say, whatever is shared.
pub fn all_are_served_by()
    ensures { AllAreServedBy }
{}

/// So no job with these sessions is unfit for `mj_core::talk`, which needs no system.
pub fn no_talk_is_unfit<D: Device>()
    ensures { NoTalkIsUnfit (IsToldBy D.inside D.failures D.taken D.given D.IsTold) }
{}
