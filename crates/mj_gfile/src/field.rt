// Fields of a line.

/// A field that is spelled as it must be.
#[derive(Drop, Debug)]
pub enum Field<T> {
    /// what it says
    Within(T),
    /// a word, a list of subscripts or a text in it is over its limit
    Over,
}
