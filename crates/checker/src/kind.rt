// The kinds of a plan's records, by their numbers.
ghost use Rattle.checker.specs.Kind.{Decodes};

use records::record::UnknownKind;

// The record that closes the file, a step that writes its line, and one that repeats it.
#[derive(Clone, Copy, Debug, PartialEq, Eq)]
pub(crate) enum PlanKind {
    Closing = 5,
    Write = 16,
    Repeat = 17,
}

impl TryFrom<u16> for PlanKind {
    type Error = UnknownKind;

    ghost try_from_gives = { Decodes };

    fn try_from(number: u16) -> Result<PlanKind, UnknownKind> {
        match number {
            5 => Ok(PlanKind::Closing),
            16 => Ok(PlanKind::Write),
            17 => Ok(PlanKind::Repeat),
            _ => Err(UnknownKind(number)),
        }
    }
}
