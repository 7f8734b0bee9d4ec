// A no: the first question that is answered so, with its place.
ghost use Rattle.std.specs.Prelude.{◌≡◌, ◌++◌, Some, codes, decimal};
ghost use Rattle.task.specs.Verdict.{number};

use crate::questions::Question;
use std::error::Error;
use std::fmt;

// A question that says no, and its place.
#[derive(Clone, Copy, Debug, PartialEq, Eq)]
pub struct Refusal {
    pub question: Question,
    pub place: usize,
}

// The question's number and its place.
impl fmt::Display for Refusal {
    ghost output = { λ r. Some (decimal (number r.question) ++ codes " " ++ decimal r.place) };

    fn fmt<W: fmt::Write>(&self, f: &mut fmt::Formatter<W>) -> fmt::Result {
        write!(f, "{} {}", self.question.number(), self.place)
    }
}

impl Error for Refusal {}

impl Question {
    // The no of this question at a place.
    pub fn at(self, place: usize) -> Refusal
        ensures { result ≡ record { question = self; place = place } }
    {
        Refusal {
            question: self,
            place,
        }
    }
}
