ghost use Rattle.std.specs.Prelude.{◌≡◌, ℕ, IfSome, reverse, slice_range};
ghost use Rattle.jd_grammar.specs.Moves.{chosen_view};
ghost use Rattle.jd_grammar.specs.Tables.{HasRun, chosen, entry, plain};

/// A symbol of a grammar.
#[derive(Clone, Copy)]
pub enum Symbol {
    /// A token of this kind. Kind 0 is the end of the tokens, and no token's.
    Token(u8),
    /// What the productions of this name stand for.
    Name(u8),
}

/// A production of a grammar: the name that it is of; the kind of token before which it is not used, one that no token has where it
/// always is; and where what stands for the name lies among the table's symbols: its first symbol, and the one behind its last.
pub type Rule = (u8, u8, u16, u16);

/// Productions that are used one after the other before this kind of token: where they lie among the table's, each as one more than its
/// number; and where what is to come before and what is to come behind them lies among its symbols, the next symbol last.
pub type Run = (u8, u16, u16, u16, u16, u16, u16);

/// A grammar with its parsing table.
#[derive(Clone, Copy)]
pub struct Table<'a> {
    /// The productions by their numbers.
    pub rules: &'a [Rule],
    /// The symbols of their bodies.
    pub symbols: &'a [Symbol],
    /// By name and kind of the token ahead, at `name * width + kind`: one more than the number of the production to use, or 0 for none.
    pub rows: &'a [u16],
    /// How many kinds there are, the end among them.
    pub width: u8,
    /// The names that a whole text may be of.
    pub starts: &'a [u8],
    /// By name: what it weighs, more than the names together that may stand before the first token of a body of it. So productions
    /// are used at most that often before a token is read.
    pub weights: &'a [u8],
    /// By name: whether each tree of it has a token.
    pub solid: &'a [bool],
    /// Runs of productions, as of the levels of an expression.
    pub runs: &'a [Run],
    /// By name and kind of the token ahead, at `name * width + kind`: one more than the number of a run that may be used where that name
    /// is to come next, or 0 for none.
    pub run_rows: &'a [u16],
    /// The productions of the runs.
    pub run_order: &'a [u16],
    /// What is to come before and behind them.
    pub run_symbols: &'a [Symbol],
}

// The entry of a name and a kind.
fn entry_at(table: &Table<'_>, name: u8, kind: u8) -> u16
    ensures { result ≡ entry (plain table.now) name kind }
{
    if kind >= table.width {
        return 0;
    }
    let at = name as usize * table.width as usize + kind as usize;
    if at < table.rows.len() {
        table.rows[at]
    } else {
        0
    }
}

fn symbols_in(symbols: &[Symbol], from: u16, to: u16) -> &[Symbol]
    ensures { result.now ≡ slice_range symbols.now from to }
{
    let from = from as usize;
    let to = (to as usize).min(symbols.len());
    if from < to { &symbols[from..to] } else { &[] }
}

fn numbers_in(numbers: &[u16], from: u16, to: u16) -> &[u16]
    ensures { result.now ≡ slice_range numbers.now from to }
{
    let from = from as usize;
    let to = (to as usize).min(numbers.len());
    if from < to { &numbers[from..to] } else { &[] }
}

/// The production to use for a name with a token of this kind ahead: one more than its number, and its body.
pub(crate) fn choose<'a>(table: &Table<'a>, name: u8, kind: u8) -> Option<(u16, &'a [Symbol])>
    ensures { chosen_view result ≡ chosen (plain table.now) name kind }
{
    let number = entry_at(table, name, kind);
    if number == 0 {
        return None;
    }
    let at = (number - 1) as usize;
    if at >= table.rules.len() {
        return None;
    }
    let rule = table.rules[at];
    if rule.0 != name {
        return None;
    }
    if rule.1 == kind {
        return None;
    }
    Some((number, symbols_in(table.symbols, rule.2, rule.3)))
}

// One more than the number of the run for a name before a kind, or 0.
fn run_at(table: &Table<'_>, name: u8, kind: u8) -> u16 {
    if kind >= table.width {
        return 0;
    }
    let at = name as usize * table.width as usize + kind as usize;
    if at < table.run_rows.len() {
        table.run_rows[at]
    } else {
        0
    }
}

/// A run for a name with a token of this kind ahead: what is to come before it, the next symbol last, its productions, each one more than
/// its number, and what is to come behind it.
pub(crate) fn run_of<'a>(
    table: &Table<'a>,
    name: u8,
    kind: u8,
) -> Option<(&'a [Symbol], &'a [u16], &'a [Symbol])>
    ensures { IfSome result (λ r. HasRun (plain table.now) kind r.1.now (reverse r.0.now) (reverse r.2.now)) }
{
    let number = run_at(table, name, kind);
    if number == 0 {
        return None;
    }
    let at = (number - 1) as usize;
    if at >= table.runs.len() {
        return None;
    }
    let run = table.runs[at];
    if run.0 != kind {
        return None;
    }
    let order = numbers_in(table.run_order, run.1, run.2);
    let before = symbols_in(table.run_symbols, run.3, run.4);
    let behind = symbols_in(table.run_symbols, run.5, run.6);
    Some((before, order, behind))
}
