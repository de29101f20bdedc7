/// What a node of a statement stands for, by the values of its parts.
#[derive(Clone, Copy)]
pub enum Action {
    /// `{ s .. }`
    Block,
    /// `;`
    Empty,
    /// `e;`
    Evaluate,
    /// `if (e) s`, or with `else s`.
    If,
    /// `while (e) s`
    While,
    /// `for (..; e; e, ..) s`
    For,
    /// `l: s`, where `s` is a loop.
    Label,
    /// A loop or its label, and the JML before it.
    Annotated,
    /// `break;` or `break l;`
    Break,
    /// `continue;` or `continue l;`
    Continue,
    /// `return;` or `return e;`
    Return,
    /// `throw e;`
    Throw,
    /// `try { s .. } ..`
    Try,
    /// A statement that begins with a name: labelled, of variables of a class, or an expression.
    Named,
    /// `final T x = e, ..;`
    FinalLocal,
    /// `int x = e, ..;` or `int[] x = e, ..;`
    IntLocal,
    /// `boolean x = e, ..;`
    BooleanLocal,
    /// A variable, its first value if it has one, and others.
    Variables,
    /// No variables.
    NoVariables,
    /// The start of a `for`: `int x = e, ..` or `int[] x = e, ..`.
    IntStart,
    /// The start of a `for`: `boolean x = e, ..`.
    BooleanStart,
    /// The start of a `for` that begins with a name: variables of a class, or expressions.
    NamedStart,
    /// What makes a name a statement, and further expressions.
    NameEffects,
    /// A `catch`, others, and what stands behind `finally`.
    Rescue,
    /// What stands behind `finally`, without a `catch`.
    Finally,
    /// Several `catch`.
    Handlers,
    /// No `catch`.
    NoHandlers,
    /// `catch (C x) { s .. }`
    Catch,
    /// A statement, and those behind it.
    Statements,
    /// No statements.
    NoStatements,
    /// `super(e, ..);`, and the statements behind it.
    Super,
}
