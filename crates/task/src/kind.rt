// The kinds of a task file's records, by their numbers.
ghost use Rattle.task.specs.Kind.{Decodes};

use records::record::UnknownKind;

// The bounds, an action, a preset line, a case, and the record that closes the file.
#[derive(Clone, Copy, Debug, PartialEq, Eq)]
pub enum Kind {
    Header = 1,
    Action = 2,
    Preset = 3,
    Case = 4,
    Closing = 5,
}

impl TryFrom<u16> for Kind {
    type Error = UnknownKind;

    ghost try_from_gives = { Decodes };

    fn try_from(number: u16) -> Result<Kind, UnknownKind> {
        match number {
            1 => Ok(Kind::Header),
            2 => Ok(Kind::Action),
            3 => Ok(Kind::Preset),
            4 => Ok(Kind::Case),
            5 => Ok(Kind::Closing),
            _ => Err(UnknownKind(number)),
        }
    }
}
