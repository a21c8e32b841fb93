use gs_bytes::Text;

/// A line of a text, without its newline, and its number, from 1.
#[derive(Debug, Drop, PartialEq, Eq)]
pub struct Line {
    pub number: u32,
    pub bytes: Text,
}
