// What a recorded run tells: why commits clashed, which jobs wait for each other, and which updates were lost.
//
// All of it is found in the events of a trace. Where transactions began and when changes of globals were made is said by `specs/Events.antt` and
// `specs/Landings.antt`; why a commit clashed by `specs/Clashes.antt` (`IsClash`), what a lost update is by `specs/Losses.antt` (`IsLoss`) and a look by
// `specs/Looks.antt` (`is_look`), and what a deadlock is by `specs/Waiting.antt` (`is_deadlock`). `story_of` finds them, and its contract (`IsStory` in
// `specs/Stories.antt`) says that each is one, and how many clashes there are. `mj_describe` tells them.
// Lost updates and deadlocks are looked for in some way or other, and what was found is then tested.
#![tactic(auto)]

mod begins;
mod causes;
mod clashes;
mod cycles;
mod events;
mod finding;
mod landings;
mod looks;
mod losses;
mod search;
mod story;

pub use begins::begins_of;
pub use clashes::{ToldClash, Why};
pub use cycles::{Asked, Hold, Wait, wanted_by};
pub use events::began_after;
pub use landings::Landing;
pub use looks::looks_tell;
pub use losses::Loss;
pub use story::{Story, story_of};
