//! What a token is.

/// What a token is. A word that means nothing and a byte that begins no token are `Other`.
#[derive(Clone, Copy, Debug, PartialEq, Eq)]
pub enum Kind {
    /// The number of the generator with this name, or 0 where no generator has it.
    Name { number: u32 },
    /// Whether the text is the one digit 1, so that it may stand for the unit too, and the value,
    /// or nothing where the magnitude is above 2^127 - 1.
    Integer { is_one: bool, value: Option<i128> },
    Star,
    Caret,
    Open,
    Close,
    SquareOpen,
    SquareClose,
    Comma,
    Equal,
    Bar,
    Solve,
    Quotient,
    Other,
}
