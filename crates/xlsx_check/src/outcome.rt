use cell_data::Decimal;

/// What was computed: a number or a boolean.
#[derive(Clone, Copy, Debug, PartialEq, Eq)]
pub enum Computed {
    Number(Decimal),
    Truth(bool),
}

/// What a formula comes to.
#[derive(Clone, Copy, Debug, PartialEq, Eq)]
pub enum Outcome {
    Value(Computed),
    /// Something in the formula, or in a cell that it names, isn't computed.
    Unsupported,
    /// A number on the way doesn't fit a decimal.
    Overflow,
}

/// What is said of a formula beside the value that its cell has.
#[derive(Clone, Copy, Debug, PartialEq, Eq)]
pub enum Verdict {
    Agrees,
    Differs(Computed),
    /// The cell has no value, or an empty one.
    NoValue,
    /// Something in the formula, or in a cell that it names, isn't computed.
    Unsupported,
    /// A number on the way doesn't fit a decimal.
    Overflow,
}
