// Which variable takes which kind of term: one table, indexed twice. From matcher.rs (`variable_accepts`).
#![tactic(auto)]

ghost use Rattle.std.specs.Prelude.{◌≡◌, ◌+◌, ◌<◌};
ghost use Rattle.words.specs.Records.{as_term};
ghost use Rattle.kinds.specs.Variables.{row_of};
ghost use Rattle.kinds.specs.Kinds.{rows, columns, ColumnIs, takes_at, takes_term};

use words::Term;
use words::kind::TermKind;

// The kinds of variables: the rows of the table.
#[derive(Clone, Copy, Debug, PartialEq, Eq)]
pub enum VariableKind {
    Symbol = 0,
    Term = 1,
    Expression = 2,
}

impl VariableKind {
    // Its row.
    fn row(self) -> usize
        ensures { (result ≡ row_of self) × (result < rows) }
    {
        self as usize
    }
}

const ROWS: usize = 3;

const COLUMNS: usize = 7;

// The columns of unknowns follow those of the other kinds, which are their own.
const UNKNOWNS: usize = TermKind::Unknown as usize;

// Rows s, t, e; columns Char, Identifier, Number, Bracket, symbol unknown, term unknown, expression unknown.
const TAKES: [[bool; COLUMNS]; ROWS] = [
    [true, true, true, false, true, false, false],
    [true, true, true, true, true, true, false],
    [true, true, true, true, true, true, true],
];

// The entry of the table.
#[tactic(auto, unfolding(crate::specs::Kinds::takes_at, term_spec::specs::Value::takes_table))]
fn takes(row: usize, column: usize) -> bool
    requires { (row < rows) × (column < columns) }
    ensures { result ≡ takes_at row column }
{
    TAKES[row][column]
}

// A term's column: unknowns are split in three. None for an unknown of no kind.
fn column_of(t: Term) -> Option<usize>
    ensures { ColumnIs result (as_term t) }
{
    if t.kind < UNKNOWNS {
        return Some(t.kind);
    }
    if words::EXPRESSION < t.a {
        return None;
    }
    Some(UNKNOWNS + t.a)
}

// Whether a variable takes a term.
pub fn variable_accepts(kind: VariableKind, t: Term) -> bool
    ensures { result ≡ takes_term (row_of kind) (as_term t) }
{
    match column_of(t) {
        Some(column) => takes(kind.row(), column),
        None => false,
    }
}
