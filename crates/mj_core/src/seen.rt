// What comes of steps.

use mj_sys::Held;

/// What a step comes to.
#[derive(Drop)]
pub enum Seen {
    /// the event at this place of the history, from 0: the job asked and was told
    Event(usize),
    /// another job has what is asked for
    Busy {
        /// the job that has it
        holder: u32,
        /// what it has
        held: Held,
    },
    /// there is nothing to read yet
    NotYet,
    /// nobody can answer what the job asks: it has no session for it, which never comes in a run, or what is recorded can't be the reply
    Unfit,
    /// the job asked nothing within 10,000 turns
    Ran,
    /// the job has ended
    Ended,
}

/// What a job comes to that is let go on, and isn't served.
#[derive(Drop)]
pub enum Ready<R> {
    /// it asks: what was seen of it there
    Asks(R),
    /// it asked nothing within 10,000 turns
    Ran,
    /// it has halted
    Ended,
}
