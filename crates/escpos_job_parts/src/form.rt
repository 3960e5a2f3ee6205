//! The two forms of a stream of bytes.

/// How a stream of bytes is given to a job, or written by it.
#[derive(Clone, Copy, Debug, PartialEq, Eq)]
pub enum Form {
    /// As text: two hexadecimal digits for each byte.
    Hexadecimal,
    /// As the bytes themselves.
    Raw,
}
