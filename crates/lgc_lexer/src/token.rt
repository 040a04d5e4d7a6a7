// Tokens and their kinds.

/// The kind of a token, which tells its form. Letters are those of ASCII.
#[derive(Clone, Copy, Debug, PartialEq, Eq)]
pub enum Kind {
    /// A lower-case letter, then letters, digits and `_`.
    Lower,
    /// An upper-case letter or `_`, then letters, digits and `_`.
    Upper,
    /// A digit, then letters, digits and `_`.
    Digits,
    /// Printable ASCII between two `'`, at least one byte and no `'`.
    Quoted,
    /// `"`, any bytes other than `"`, then `"`.
    Text,
    /// One or more of `* + - # & @ ~ ^ ? ! $ < = > |` and the backslash.
    Symbol,
    /// One of `( ) { } [ ] , . : ; /`.
    Punct,
}

/// A token of some bytes, with its quotes where it has some.
#[derive(Clone, Copy, Debug, PartialEq, Eq)]
pub struct Token {
    /// The form that its bytes have.
    pub kind: Kind,
    /// The offset of its first byte, counted in bytes from 0.
    pub start: u32,
    /// The offset of the byte after its last one, at most the length of the bytes.
    pub end: u32,
}
