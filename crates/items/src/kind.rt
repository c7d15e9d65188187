// The kinds of pattern records, by 01's names and numbers: the kinds of literals are those of terms, and a binding has the kind of its variable. The word
// of a record may be any number; `try_from` says which kind it is.
ghost use Rattle.std.specs.Prelude.{◌≡◌};
ghost use Rattle.items.specs.Kinds.{item_kind, NamesItem};

use words::kind::UnknownKind;

#[derive(Clone, Copy, Debug, PartialEq, Eq)]
pub enum ItemKind {
    Char = 0,
    Identifier = 1,
    Number = 2,
    Open = 3,
    Close = 4,
    SVariable = 5,
    TVariable = 6,
    EVariable = 7,
    Call = 8,
    Block = 9,
}

impl ItemKind {
    // Its number.
    pub fn number(self) -> usize
        ensures { result ≡ item_kind self }
    {
        self as usize
    }
}

impl TryFrom<usize> for ItemKind {
    type Error = UnknownKind;

    ghost try_from_gives = { NamesItem };

    fn try_from(number: usize) -> Result<Self, UnknownKind> {
        match number {
            0 => Ok(ItemKind::Char),
            1 => Ok(ItemKind::Identifier),
            2 => Ok(ItemKind::Number),
            3 => Ok(ItemKind::Open),
            4 => Ok(ItemKind::Close),
            5 => Ok(ItemKind::SVariable),
            6 => Ok(ItemKind::TVariable),
            7 => Ok(ItemKind::EVariable),
            8 => Ok(ItemKind::Call),
            9 => Ok(ItemKind::Block),
            _ => Err(UnknownKind(number)),
        }
    }
}
