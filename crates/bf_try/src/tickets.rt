//! The right to run one try, and the answer to it.
ghost use Rattle.std.specs.Prelude.{◌≡◌};

use crate::answers::Raw;
use bf_value::JobName;
use bf_xcom::Given;
use std::marker::Model;

/// The right to run one try, with what it is given. It can't be cloned.
#[derive(Debug, Drop)]
pub struct Ticket {
    name: JobName,
    given: Given,
}

impl Model for Ticket {
    ghost use Rattle.bf_try.specs.Asked.{Asked};
    ghost use Rattle.std.specs.Coded.{codes};
    ghost use Rattle.bf_value.specs.contracts.name.JobName;
    ghost use Rattle.bf_xcom.specs.contracts.values.Given;

    ghost Value = { Asked };

    ghost coded = { Prim.hlevel (codes, JobName.the_row.coded, Given.the_row.coded) };

    ghost view = { λ t. record { name = t.name; given = t.given } };
}

/// The answer to one try. It can't be cloned.
#[derive(Debug, Drop)]
pub struct Done {
    name: JobName,
    given: Given,
    raw: Raw,
}

impl Model for Done {
    ghost use Rattle.bf_try.specs.Asked.{Answered};
    ghost use Rattle.std.specs.Coded.{codes};
    ghost use Rattle.bf_value.specs.contracts.name.JobName;
    ghost use Rattle.bf_xcom.specs.contracts.values.Given;
    ghost use Rattle.bf_try.specs.contracts.answers.Raw;

    ghost Value = { Answered };

    ghost coded = { Prim.hlevel (
      codes,
      JobName.the_row.coded,
      Given.the_row.coded,
      Raw.the_row.coded,
    ) };

    ghost view = { λ d. record { name = d.name; given = d.given; raw = d.raw } };
}

impl Ticket {
    /// A ticket for the try of this name. The caller sees to it that no other ticket has the name.
    pub fn issue(name: JobName, given: Given) -> Ticket
        ensures { result ≡ record { name = name; given = given } }
    {
        Ticket { name, given }
    }

    /// The name of the try.
    pub fn name(&self) -> JobName
        ensures { result ≡ self.now.name }
    {
        self.name
    }

    /// What the try is given.
    pub fn given(&self) -> &Given
        ensures { result.now ≡ self.now.given }
    {
        &self.given
    }

    /// Answers the try of the ticket, which is used up by that.
    pub fn answer(self, raw: Raw) -> Done
        ensures { result ≡ record { name = self.name; given = self.given; raw = raw } }
    {
        let Ticket { name, given } = self;
        Done { name, given, raw }
    }
}

impl Done {
    /// The name of the try that is answered.
    pub fn name(&self) -> JobName
        ensures { result ≡ self.now.name }
    {
        self.name
    }

    /// What the try was given.
    pub fn given(&self) -> &Given
        ensures { result.now ≡ self.now.given }
    {
        &self.given
    }

    /// What the try answered, before it is graded.
    pub fn raw(&self) -> &Raw
        ensures { result.now ≡ self.now.raw }
    {
        &self.raw
    }
}
