//! Why an operator or an access gives nothing.

/// Why an operator or an access gives nothing.
#[derive(Clone, Copy, Debug, PartialEq, Eq)]
pub enum Fault {
    /// A division by zero, or a quotient that does not fit its type.
    Divide,
    /// The language gives it no meaning.
    Undefined,
}
