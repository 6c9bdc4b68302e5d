//! Statements as they are read.
use crate::node::Span;
use sno_value::ExprId;

/// A statement of a program.
#[derive(Clone, Copy, Debug)]
pub struct Statement {
    /// The line in which it begins, from 1.
    pub line: u32,
    pub label: Option<Span>,
    pub core: Option<Core>,
    pub jump: Jump,
    /// The L of `END L`.
    pub entry: Option<Span>,
}

/// What a statement does before it goes on.
#[derive(Clone, Copy, Debug)]
pub struct Core {
    pub subject: ExprId,
    pub pattern: Option<ExprId>,
    /// Whether `=` stands.
    pub equals: bool,
    pub object: Option<ExprId>,
}

/// Where a statement goes on.
#[derive(Clone, Copy, Debug)]
pub enum Jump {
    /// The next statement.
    Fall,
    Always(Target),
    /// On success, and on failure; where one is absent, the next statement.
    Either(Option<Target>, Option<Target>),
}

/// Where a jump leads.
#[derive(Clone, Copy, Debug)]
pub enum Target {
    Label(Span),
    /// `$E`: the label that is the text of E.
    Computed(ExprId),
}
