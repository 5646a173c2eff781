//! The commands of the program.

/// What is asked for: which command it is.
#[derive(Clone, Copy, Debug, PartialEq, Eq)]
pub enum CommandKind {
    /// Translate a task.
    Compile,
    /// Bring a plan of a written task back to the task.
    Lift,
    /// Translate a task, and a plan of it with it.
    Embed,
    /// Judge a plan of a task.
    Evaluate,
    /// Write a sample.
    Generate,
    /// Translate a task without conditional effects.
    CompileFlat,
    /// Say where the constraints and preferences of a plan are decided.
    Explain,
    /// Judge a plan after each of its lines.
    Watch,
}
