//! An answer that the service allows.
ghost use Rattle.std.specs.Prelude.{◌≡◌};
ghost use Rattle.bf_lane.specs.Lanes.{IsAllowedBy};

use crate::messages::Answer;
use crate::service::Service;
use std::marker::{Model, PhantomData};

/// An answer of a worker, which its lane's service allows. Contracts see it as the answer.
#[derive(Drop)]
pub struct Reply<K: Service> {
    answer: Answer,
    of: PhantomData<K>,
}

impl<K: Service> Model for Reply<K> {
    ghost use Rattle.bf_lane.specs.declared.messages.Answer.{Answer};
    ghost use Rattle.bf_lane.specs.contracts.messages.Answer;
    ghost use Rattle.std.specs.Coded.{codes};
    ghost use Rattle.bf_lane.specs.Lanes.{IsAllowedBy};

    ghost Value = { Answer };

    ghost coded = { Prim.hlevel (codes, Answer.the_row.coded) };

    ghost view = { λ r. r.answer };

    ghost invariant = { λ r. IsAllowedBy K.answers K.gives_up r.answer };
}

impl<K: Service> Reply<K> {
    /// A reply with this answer, which the lane's service must allow.
    pub(crate) fn new(answer: Answer) -> Reply<K>
        requires { IsAllowedBy K.answers K.gives_up answer }
        ensures { result ≡ answer }
    {
        Reply {
            answer,
            of: PhantomData,
        }
    }

    /// The answer in the reply.
    pub(crate) fn into_answer(self) -> Answer
        ensures same { result ≡ self }
        ensures allowed { IsAllowedBy K.answers K.gives_up result }
    {
        let Reply { answer, of: _ } = self;
        answer
    }
}
