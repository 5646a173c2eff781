//! Places in the texts of a run, and refusals.

/// Why an input is refused. The numbers are those that a report prints.
#[derive(Clone, Copy, Debug, PartialEq, Eq)]
pub enum Code {
    /// A byte outside comments that is neither a blank nor printable ASCII.
    BadByte = 1,
    /// The tokens do not spell exactly one expression.
    Unbalanced = 2,
    /// A `(` opens a level above the limit.
    TooDeep = 3,
    /// A construct that is left out by name.
    Construct = 4,
    /// A token after which no text of the grammar can go on.
    Malformed = 5,
    /// A second declaration, variable or value.
    Duplicate = 6,
    /// A name that is not declared where it is used.
    Unknown = 7,
    /// A wrong number of arguments.
    Arity = 8,
    /// An argument whose types do not fit the declared ones.
    TypeClash = 9,
    /// A count or the total cost whose weight in the loss is below 0.
    NegativeWeight = 10,
    /// A product with two factors that each mention a count or the total cost.
    NonLinear = 11,
    /// A number with too many digits, or with a decimal point.
    NumberTooLong = 12,
    /// A metric coefficient, or an action's cost bound, at its limit.
    CostTooLarge = 13,
    /// More ground steps than the limit.
    TooManyInstances = 14,
    /// An expanded size above the limit.
    FormulaTooLarge = 15,
    /// More preference instances than the limit.
    TooManyPreferences = 16,
    /// An action with more weighted precondition preference instances than the limit.
    SplitTooWide = 17,
    /// A plan with more steps than the limit.
    TooManySteps = 18,
    /// The written task is not plain.
    NotPlain = 19,
    /// The plan's cost and its lifted plan's loss differ.
    Mismatch = 20,
    /// A file with more bytes than the limit.
    FileTooLong = 21,
    /// A step with more conditions than an action may have in a translation without conditional
    /// effects.
    FlatTooWide = 22,
}

/// Whether a task was read from its author or was written by the compiler.
#[derive(Clone, Copy, Debug, PartialEq, Eq)]
pub enum Side {
    /// The task read.
    Source,
    /// The task written.
    Written,
}

/// Whether a metric's value is to be small or great.
#[derive(Clone, Copy, Debug, PartialEq, Eq)]
pub enum Direction {
    /// Small values are better.
    Minimize,
    /// Great values are better.
    Maximize,
}

/// Which file of a run is meant.
#[derive(Clone, Copy, Debug, PartialEq, Eq)]
pub enum Role {
    /// The domain of the task read.
    Domain,
    /// The problem of the task read.
    Problem,
    /// The domain of the written task.
    WrittenDomain,
    /// The problem of the written task.
    WrittenProblem,
    /// A plan.
    Plan,
}

/// A place in a text.
#[derive(Clone, Copy, Debug, PartialEq, Eq)]
pub struct Pos {
    /// Which text.
    pub role: Role,
    /// How many bytes stand before the place.
    pub offset: u32,
}

/// A refusal: the word at fault is the `len` bytes of the text at the place; `len` is 0 at the
/// text's end.
#[derive(Clone, Copy, Debug, PartialEq, Eq)]
pub struct Refusal {
    /// Why.
    pub code: Code,
    /// Where.
    pub pos: Pos,
    /// How many bytes the word at fault has.
    pub len: u32,
}
