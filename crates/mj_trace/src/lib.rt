// Traces of runs: a text of lines, by which a run is shown to somebody else.
//
// There is one spelling for each trace in its form (`Form`): `trace_text` of `specs/Trace.antt`, with the asks and replies of `specs/Spelling.antt`.
// `write_trace` writes it. A caller that has no `Trace` puts the opening and then each event into bytes of its own: `put_opening`, `put_event`. `read_trace`
// reads a trace back. What else it is given it refuses, by the first line that is none: `IsTraceRefused` of `specs/Refused.antt` says so by the spelling
// alone, and `reading_of` of `specs/Lines.antt` as it is read. What a line may say is found from the left to the right (`specs/Reading.antt`); then it is
// spelled again, and must be the line. `specs/Laws.antt` has the laws.
#![tactic(auto)]

mod asked;
mod asks;
mod devices;
mod fields;
mod form;
mod found;
mod head;
mod laws;
mod lists;
mod members;
mod piece;
mod read;
mod refusal;
mod replies;
mod run;
mod told;
mod trace;

pub use asks::put_ask;
pub use form::Form;
pub use head::{event_line, put_event, put_opening};
pub use laws::one_reason;
pub use read::read_trace;
pub use refusal::TraceError;
pub use replies::put_reply;
pub use trace::{Trace, write_trace};
