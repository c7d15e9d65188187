// The kinds of terms and of nodes, by 01's names and numbers. The word of a record may be any number; `try_from` says which kind it is.
ghost use Rattle.std.specs.Prelude.{◌≡◌};
ghost use Rattle.words.specs.Kinds.{term_kind, node_kind, NamesTerm, NamesNode};

#[derive(Clone, Copy, Debug, PartialEq, Eq)]
pub enum TermKind {
    Char = 0,
    Identifier = 1,
    Number = 2,
    Bracket = 3,
    Unknown = 4,
}

#[derive(Clone, Copy, Debug, PartialEq, Eq)]
pub enum NodeKind {
    Nil = 0,
    Cons = 1,
    Concat = 2,
}

// No kind has this number.
#[derive(Clone, Copy, Debug, PartialEq, Eq)]
pub struct UnknownKind(pub usize);

impl TermKind {
    // Its number.
    pub fn number(self) -> usize
        ensures { result ≡ term_kind self }
    {
        self as usize
    }
}

impl TryFrom<usize> for TermKind {
    type Error = UnknownKind;

    ghost try_from_gives = { NamesTerm };

    fn try_from(number: usize) -> Result<Self, UnknownKind> {
        match number {
            0 => Ok(TermKind::Char),
            1 => Ok(TermKind::Identifier),
            2 => Ok(TermKind::Number),
            3 => Ok(TermKind::Bracket),
            4 => Ok(TermKind::Unknown),
            _ => Err(UnknownKind(number)),
        }
    }
}

impl NodeKind {
    // Its number.
    pub fn number(self) -> usize
        ensures { result ≡ node_kind self }
    {
        self as usize
    }
}

impl TryFrom<usize> for NodeKind {
    type Error = UnknownKind;

    ghost try_from_gives = { NamesNode };

    fn try_from(number: usize) -> Result<Self, UnknownKind> {
        match number {
            0 => Ok(NodeKind::Nil),
            1 => Ok(NodeKind::Cons),
            2 => Ok(NodeKind::Concat),
            _ => Err(UnknownKind(number)),
        }
    }
}
