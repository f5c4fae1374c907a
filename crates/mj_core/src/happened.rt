// Which job's ask was served when.

/// An event: its job, and its place in that job's log, from 0.
#[derive(Clone, Copy, PartialEq, Eq, Debug)]
pub struct Happened {
    pub job: u32,
    pub at: usize,
}
