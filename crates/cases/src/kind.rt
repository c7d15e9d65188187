// The kinds of records.
use items::kind::ItemKind;
use words::kind::{NodeKind, TermKind};

// What a record is. Terms, nodes and patterns have their own numbers.
#[derive(Clone, Copy)]
pub enum Kind {
    Term(TermKind),
    Node(NodeKind),
    Item(ItemKind),
}

impl Kind {
    pub fn from_word(word: &[u8]) -> Option<Kind> {
        match word {
            b"char" => Some(Kind::Term(TermKind::Char)),
            b"ident" => Some(Kind::Term(TermKind::Identifier)),
            b"number" => Some(Kind::Term(TermKind::Number)),
            b"bracket" => Some(Kind::Term(TermKind::Bracket)),
            b"unknown" => Some(Kind::Term(TermKind::Unknown)),
            b"nil" => Some(Kind::Node(NodeKind::Nil)),
            b"cons" => Some(Kind::Node(NodeKind::Cons)),
            b"concat" => Some(Kind::Node(NodeKind::Concat)),
            b"open" => Some(Kind::Item(ItemKind::Open)),
            b"close" => Some(Kind::Item(ItemKind::Close)),
            b"s" => Some(Kind::Item(ItemKind::SVariable)),
            b"t" => Some(Kind::Item(ItemKind::TVariable)),
            b"e" => Some(Kind::Item(ItemKind::EVariable)),
            b"call" => Some(Kind::Item(ItemKind::Call)),
            b"block" => Some(Kind::Item(ItemKind::Block)),
            _ => None,
        }
    }

    // The kind of a record with a name, as e.1, by its letter.
    pub fn from_letter(letter: u8) -> Option<Kind> {
        match letter {
            b'i' => Some(Kind::Term(TermKind::Identifier)),
            b'n' => Some(Kind::Term(TermKind::Number)),
            b's' => Some(Kind::Item(ItemKind::SVariable)),
            b't' => Some(Kind::Item(ItemKind::TVariable)),
            b'e' => Some(Kind::Item(ItemKind::EVariable)),
            _ => None,
        }
    }

    pub fn number(self) -> usize {
        match self {
            Kind::Term(kind) => kind.number(),
            Kind::Node(kind) => kind.number(),
            Kind::Item(kind) => kind.number(),
        }
    }
}
