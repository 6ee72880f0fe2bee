//! What is told of a fault beside what stands there.
ghost use Rattle.std.specs.Prelude.{◌≡◌};
ghost use Rattle.bf_findings.specs.Texts.{field_words};

use bf_cron::Field;
use bf_value::Text;
use std::fmt;

/// What is told of a fault in place of all that may stand there.
#[derive(Debug, Drop)]
pub enum Hint {
    /// A known name that may have been meant.
    Meant(Text),
    /// The zone is `file`, and no zone file is named.
    NoZoneFile,
    /// The first of a schedule's five fields that can't be read.
    BadField(Field),
}

/// Gives the words for what a field of a schedule may be, behind its name.
fn words_of_field(field: Field) -> &'static str
    ensures { result.now ≡ field_words field }
{
    match field {
        Field::Minute => {
            "minute: has to be *, */n, or numbers from 0 to 59, each alone or as a-b or a-b/n, with commas between"
        }
        Field::Hour => {
            "hour: has to be *, */n, or numbers from 0 to 23, each alone or as a-b or a-b/n, with commas between"
        }
        Field::Day => {
            "day of the month: has to be *, */n, or numbers from 1 to 31, each alone or as a-b or a-b/n, with commas between"
        }
        Field::Month => {
            "month: has to be *, */n, or numbers from 1 to 12 or names as jan, each alone or as a-b or a-b/n, with commas between"
        }
        Field::Weekday => {
            "weekday: has to be *, */n, or numbers from 0 to 7 or names as mon, each alone or as a-b or a-b/n, with commas between"
        }
    }
}

impl fmt::Display for Hint {
    ghost use Rattle.std.specs.Prelude.{Some};
    ghost use Rattle.bf_findings.specs.Texts.{hint_text};

    ghost output = { λ hint. Some (hint_text hint) };

    /// Writes the question that suggests a name, such as `did you mean "rule"?`, or what is wrong.
    fn fmt<W: fmt::Write>(&self, f: &mut fmt::Formatter<W>) -> fmt::Result {
        match self {
            Hint::Meant(name) => write!(f, "did you mean \"{name}\"?"),
            Hint::NoZoneFile => write!(f, "--zone-file PATH is missing"),
            Hint::BadField(field) => write!(f, "{}", words_of_field(*field)),
        }
    }
}
