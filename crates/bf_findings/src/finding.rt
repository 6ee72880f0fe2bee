//! What is found wrong.
use crate::form::Form;
use crate::hint::Hint;
use crate::place::DocumentPlace;
use crate::refusal::Refusal;
use bf_value::Text;
use std::fmt;

/// What is wrong at one place of a graph file's document.
#[derive(Debug, Drop)]
pub struct Fault {
    pub place: DocumentPlace,
    /// What may stand there.
    pub form: Form,
    /// What stands there, as a finding shows it.
    pub stands: Text,
    /// What is told in place of what may stand there, if anything.
    pub hint: Option<Hint>,
}

/// Something that is wrong with a graph file.
#[derive(Debug, Drop)]
pub enum Finding {
    /// The bytes are no JSON in UTF-8; the line and the column where `serde_json` stopped reading.
    NotJson(usize, usize),
    Fault(Fault),
    /// No place by itself shows it, but the file as a whole is refused for this.
    Refused(Refusal),
    /// Something is wrong at other places, too.
    More,
}

impl fmt::Display for Fault {
    ghost use Rattle.std.specs.Prelude.{Some};
    ghost use Rattle.bf_findings.specs.Texts.{fault_text};

    ghost output = { λ fault. Some (fault_text fault) };

    /// Writes the place, what stands there, and a hint or else what may stand there.
    fn fmt<W: fmt::Write>(&self, f: &mut fmt::Formatter<W>) -> fmt::Result {
        write!(f, "{}: {}: ", self.place, self.stands)?;
        match &self.hint {
            Some(hint) => write!(f, "{hint}"),
            None => write!(f, "{}", self.form),
        }
    }
}

impl fmt::Display for Finding {
    ghost use Rattle.std.specs.Prelude.{Some};
    ghost use Rattle.bf_findings.specs.Texts.{finding_text};

    ghost output = { λ finding. Some (finding_text finding) };

    /// Writes the finding on one line, without a line feed.
    fn fmt<W: fmt::Write>(&self, f: &mut fmt::Formatter<W>) -> fmt::Result {
        match self {
            Finding::NotJson(line, column) => {
                write!(f, "bytes: not JSON: line {line}, column {column}")
            }
            Finding::Fault(fault) => write!(f, "{fault}"),
            Finding::Refused(refusal) => write!(f, "{refusal}"),
            Finding::More => write!(f, "and more"),
        }
    }
}
