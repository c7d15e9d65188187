// How a sheet's text is laid out (01, "The sheet"): its numbers, its lines, where its parts start. No other crate computes a position in it.
#![tactic(auto)]

ghost use Rattle.std.specs.Prelude.{◌≡◌, T, ◌+◌, ◌*◌};
ghost use Rattle.sheet_spec.specs.Sheet.{column_width, line_width, spec_names_start, spec_pattern_start, spec_runs_start, sheet_end};
ghost use Rattle.sheet_form.specs.Form.{Short, as_counts, in_limits};

// ---- numbers ----

// The bytes of a number.
pub const COLUMN: usize = 10;

// Numbers are below it.
pub const BEYOND: usize = 4294967296;

// The byte that a line and the names end with.
pub const NEWLINE: u8 = b'\n';

// ---- lines ----

// A line of four numbers, as the first line and those of an answer: its numbers, where the second, third and fourth start, where its newline
// stands, and its bytes.
pub const LINE_COLUMNS: usize = 4;

pub const SECOND: usize = COLUMN;

pub const THIRD: usize = 2 * COLUMN;

pub const FOURTH: usize = 3 * COLUMN;

pub const LINE_END: usize = LINE_COLUMNS * COLUMN;

pub const LINE: usize = LINE_END + 1;

// The numbers of a term line, of a pattern line and of a run line, and the zeros that end a run line.
pub const TERM_COLUMNS: usize = words::TERM_WIDTH;

pub const ITEM_COLUMNS: usize = items::ITEM_WIDTH;

pub const RUN_COLUMNS: usize = words::RUN_WIDTH;

pub const RUN_ZEROS: usize = 2;

// The bytes of a term line, of a pattern line and of a run line.
pub const TERM_LINE: usize = COLUMN * TERM_COLUMNS + 1;

pub const ITEM_LINE: usize = COLUMN * ITEM_COLUMNS + 1;

pub const RUN_LINE: usize = COLUMN * (RUN_COLUMNS + RUN_ZEROS) + 1;

// The most numbers of a line, so that its bytes are a small number.
pub const MOST_COLUMNS: usize = 10;

// What stands in a line: the numbers that are kept as words, then zeros, then a newline.
#[derive(Clone, Copy)]
pub struct LineForm {
    pub kept: usize,
    pub zeros: usize,
}

impl LineForm {
    // The first line.
    pub const COUNTS: LineForm = LineForm {
        kept: LINE_COLUMNS,
        zeros: 0,
    };

    pub const TERM: LineForm = LineForm {
        kept: TERM_COLUMNS,
        zeros: 0,
    };

    pub const ITEM: LineForm = LineForm {
        kept: ITEM_COLUMNS,
        zeros: 0,
    };

    pub const RUN: LineForm = LineForm {
        kept: RUN_COLUMNS,
        zeros: RUN_ZEROS,
    };

    // The bytes before the newline.
    pub fn end(self) -> usize
        requires { Short self }
        ensures { result ≡ column_width * (self.kept + self.zeros) }
    {
        COLUMN * (self.kept + self.zeros)
    }

    // The bytes of the line.
    pub fn width(self) -> usize
        requires { Short self }
        ensures { result ≡ line_width self.kept self.zeros }
    {
        self.end() + 1
    }
}

// ---- the parts ----

// "terms (to 512), name bytes (to 4,096), pattern records (to 256), runs (to 64)"
pub const MOST_TERMS: usize = 512;

pub const MOST_NAMES: usize = 4096;

pub const MOST_ITEMS: usize = items::PATTERN_LIMIT;

pub const MOST_RUNS: usize = words::RUN_LIST_LIMIT;

// The counts of a sheet: terms, name bytes, pattern records, runs.
// The limits are no invariant of it: a text may show any counts, and `names_part` of sheet_read takes any.
#[derive(Clone, Copy)]
pub struct Counts {
    pub terms: usize,
    pub names: usize,
    pub pattern: usize,
    pub runs: usize,
}

impl Counts {
    // None is over its limit.
    #[tactic(auto, unfolding(sheet_spec::specs::Sheet::limits))]
    pub fn within_limits(self) -> bool
        ensures { result ≡ in_limits (as_counts self) }
    {
        self.terms <= MOST_TERMS
            && self.names <= MOST_NAMES
            && self.pattern <= MOST_ITEMS
            && self.runs <= MOST_RUNS
    }

    // Where the name bytes start.
    #[tactic(auto, using(sheet_spec::proofs::SheetLaws::limits_facts))]
    pub fn names_start(self) -> usize
        requires { T (in_limits (as_counts self)) }
        ensures { result ≡ spec_names_start (as_counts self) }
    {
        LINE + TERM_LINE * self.terms
    }

    // Where the newline after them stands.
    #[tactic(auto, using(sheet_spec::proofs::SheetLaws::limits_facts))]
    pub fn names_end(self) -> usize
        requires { T (in_limits (as_counts self)) }
        ensures { result ≡ spec_names_start (as_counts self) + self.names }
    {
        self.names_start() + self.names
    }

    // Where the pattern lines start.
    #[tactic(auto, using(sheet_spec::proofs::SheetLaws::limits_facts))]
    pub fn pattern_start(self) -> usize
        requires { T (in_limits (as_counts self)) }
        ensures { result ≡ spec_pattern_start (as_counts self) }
    {
        self.names_end() + 1
    }

    // Where the run lines start.
    #[tactic(auto, using(sheet_spec::proofs::SheetLaws::limits_facts))]
    pub fn runs_start(self) -> usize
        requires { T (in_limits (as_counts self)) }
        ensures { result ≡ spec_runs_start (as_counts self) }
    {
        self.pattern_start() + ITEM_LINE * self.pattern
    }

    // The bytes of the whole.
    #[tactic(auto, using(sheet_spec::proofs::SheetLaws::limits_facts))]
    pub fn end(self) -> usize
        requires { T (in_limits (as_counts self)) }
        ensures { result ≡ sheet_end (as_counts self) }
    {
        self.runs_start() + RUN_LINE * self.runs
    }
}
