//! The table of commands.

ghost use Rattle.std.specs.Prelude.{◌≡◌};
ghost use Rattle.p3_tree.specs.Commands as commands;
ghost use Rattle.p3_cli.specs.Asked.{as_row};

use p3_base::Role;
use p3_tree::CommandKind;

/// What stands on a command line.
#[derive(Clone, Copy)]
pub(crate) struct Row {
    /// The word of the command.
    pub(crate) word: &'static [u8],
    /// Whether a number stands behind it.
    pub(crate) is_numbered: bool,
    /// What the files are that it reads, in order.
    pub(crate) reads: &'static [Role],
    /// What the files are that it writes, in order.
    pub(crate) writes: &'static [Role],
}

/// Translates a task.
const COMPILE: Row = Row {
    word: b"compile",
    is_numbered: false,
    reads: &[Role::Domain, Role::Problem],
    writes: &[Role::WrittenDomain, Role::WrittenProblem],
};

/// Brings a plan of a written task back to the task.
const LIFT: Row = Row {
    word: b"lift",
    is_numbered: false,
    reads: &[
        Role::Domain,
        Role::Problem,
        Role::WrittenDomain,
        Role::WrittenProblem,
        Role::Plan,
    ],
    writes: &[Role::Plan],
};

/// Translates a task, and a plan of it with it.
const EMBED: Row = Row {
    word: b"embed",
    is_numbered: false,
    reads: &[Role::Domain, Role::Problem, Role::Plan],
    writes: &[Role::WrittenDomain, Role::WrittenProblem, Role::Plan],
};

/// Judges a plan of a task.
const EVALUATE: Row = Row {
    word: b"evaluate",
    is_numbered: false,
    reads: &[Role::Domain, Role::Problem, Role::Plan],
    writes: &[],
};

/// Writes a sample.
const GENERATE: Row = Row {
    word: b"generate",
    is_numbered: true,
    reads: &[],
    writes: &[Role::Domain, Role::Problem, Role::Plan],
};

/// Translates a task into one without conditional effects.
const COMPILE_FLAT: Row = Row {
    word: b"compile-flat",
    is_numbered: false,
    reads: &[Role::Domain, Role::Problem],
    writes: &[Role::WrittenDomain, Role::WrittenProblem],
};

/// Tells why a plan has its value.
const EXPLAIN: Row = Row {
    word: b"explain",
    is_numbered: false,
    reads: &[Role::Domain, Role::Problem, Role::Plan],
    writes: &[],
};

/// Judges each line of what is to be a plan.
const WATCH: Row = Row {
    word: b"watch",
    is_numbered: false,
    reads: &[Role::Domain, Role::Problem, Role::Plan],
    writes: &[],
};

/// All commands.
const KINDS: &[CommandKind] = &[
    CommandKind::Compile,
    CommandKind::Lift,
    CommandKind::Embed,
    CommandKind::Evaluate,
    CommandKind::Generate,
    CommandKind::CompileFlat,
    CommandKind::Explain,
    CommandKind::Watch,
];

/// Gives the row of a command.
pub(crate) fn row_of(kind: CommandKind) -> Row
    ensures { as_row result ≡ commands.row kind }
{
    match kind {
        CommandKind::Compile => COMPILE,
        CommandKind::Lift => LIFT,
        CommandKind::Embed => EMBED,
        CommandKind::Evaluate => EVALUATE,
        CommandKind::Generate => GENERATE,
        CommandKind::CompileFlat => COMPILE_FLAT,
        CommandKind::Explain => EXPLAIN,
        CommandKind::Watch => WATCH,
    }
}

/// Finds the command of a word. It takes no memory.
pub(crate) fn kind_of(word: &[u8]) -> Option<CommandKind>
    ensures { result ≡ commands.kind_of word.now }
{
    KINDS
        .iter()
        .copied()
        .find(|kind| row_of(*kind).word == word)
}
