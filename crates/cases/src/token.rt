// The values of a clause, as a line writes them.
use crate::answer::Answer;
use crate::clause::Clause;
use crate::fault::Fault;
use crate::kind::Kind;
use crate::names;
use crate::names::Names;
use crate::vocabulary::Region;

// What a token says: a number, characters or names in quotes, a record with a name, as e.1, or a word that stands for a number.
#[derive(Clone, Copy)]
pub enum Value<'a> {
    Number(&'a [u8]),
    Characters(&'a [u8]),
    Names(&'a [u8]),
    Named(Kind, &'a [u8]),
    Kind(Kind),
    Region(Region),
    Answer(Answer),
    Max,
}

impl<'a> Value<'a> {
    // None where the token is a word that stands for no number.
    pub fn from_token(token: &'a [u8]) -> Option<Value<'a>> {
        match token {
            [b'0'..=b'9', ..] => Some(Value::Number(token)),
            [b'\'', ..] => Some(Value::Characters(token)),
            [b'"', ..] => Some(Value::Names(token)),
            [letter, b'.', name @ ..] => match Kind::from_letter(*letter) {
                Some(kind) => Some(Value::Named(kind, name)),
                None => Value::from_word(token),
            },
            _ => Value::from_word(token),
        }
    }

    fn from_word(word: &'a [u8]) -> Option<Value<'a>> {
        if let Some(kind) = Kind::from_word(word) {
            return Some(Value::Kind(kind));
        }
        if let Some(region) = Region::from_word(word) {
            return Some(Value::Region(region));
        }
        if let Some(answer) = Answer::from_word(word) {
            return Some(Value::Answer(answer));
        }
        match word {
            b"max" => Some(Value::Max),
            _ => None,
        }
    }

    // Its numbers join the clause, of which there is none before the first verb. Its names are set all the same.
    pub fn join(self, clause: Option<&mut Clause>, names: &mut Names) -> Result<(), Fault> {
        let clause = clause.ok_or(Fault::Unread);
        match self {
            Value::Number(text) => clause?.push(lines::decimal(text).ok_or(Fault::Unread)?),
            Value::Characters(text) => match names::unquoted(text) {
                None => Err(Fault::Unread),
                Some([]) => Ok(()),
                Some(text) => clause?.characters(text),
            },
            Value::Names(text) => {
                names.set(text)?;
                clause?;
                Ok(())
            }
            Value::Named(_, []) => Err(Fault::Unread),
            Value::Named(kind, name) => {
                let start = names.append(name)?;
                clause?.named(kind, start, name.len())
            }
            Value::Kind(kind) => clause?.begin(kind),
            Value::Region(region) => clause?.region(region),
            Value::Answer(answer) => clause?.push(answer as usize),
            Value::Max => clause?.push(usize::MAX),
        }
    }
}
