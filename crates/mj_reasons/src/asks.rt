// The words of what jobs ask, as traces have them.

ghost use Rattle.std.specs.Prelude.{◌≡◌};
ghost use Rattle.mj_reasons.specs.Fields.{ask_named as the_ask_named, other_named as the_other_named};

/// What a job asks, by its word.
#[derive(Clone, Copy)]
pub enum Asked {
    Value,
    Data,
    Order,
    Query,
    Subtree,
    Set,
    Kill,
    Put,
    Try,
    Unlock,
    Begin,
    Commit,
    Rollback,
    Open,
    Close,
    Start,
    Device,
    Rest,
    Halt,
}

/// What is asked by a word.
pub fn ask_named(word: &[u8]) -> Option<Asked>
    ensures { result ≡ the_ask_named word.now }
{
    if word == b"value".as_slice() {
        Some(Asked::Value)
    } else if word == b"data".as_slice() {
        Some(Asked::Data)
    } else if word == b"order".as_slice() {
        Some(Asked::Order)
    } else if word == b"query".as_slice() {
        Some(Asked::Query)
    } else if word == b"subtree".as_slice() {
        Some(Asked::Subtree)
    } else if word == b"set".as_slice() {
        Some(Asked::Set)
    } else if word == b"kill".as_slice() {
        Some(Asked::Kill)
    } else if word == b"put".as_slice() {
        Some(Asked::Put)
    } else if word == b"try".as_slice() {
        Some(Asked::Try)
    } else {
        other_named(word)
    }
}

// What is asked by a word that names no question and no change of globals, and no lock.
fn other_named(word: &[u8]) -> Option<Asked>
    ensures { result ≡ the_other_named word.now }
{
    if word == b"unlock".as_slice() {
        Some(Asked::Unlock)
    } else if word == b"begin".as_slice() {
        Some(Asked::Begin)
    } else if word == b"commit".as_slice() {
        Some(Asked::Commit)
    } else if word == b"rollback".as_slice() {
        Some(Asked::Rollback)
    } else if word == b"open".as_slice() {
        Some(Asked::Open)
    } else if word == b"close".as_slice() {
        Some(Asked::Close)
    } else if word == b"start".as_slice() {
        Some(Asked::Start)
    } else if word == b"dev".as_slice() {
        Some(Asked::Device)
    } else if word == b"rest".as_slice() {
        Some(Asked::Rest)
    } else if word == b"halt".as_slice() {
        Some(Asked::Halt)
    } else {
        None
    }
}
