//! Whose answers a lane carries.
use std::marker::Brand;

/// Which answers may come over the lanes, and which tries may be given up. A call that starts workers picks it, so that
/// the promise of its runner goes through queues whose types know no runner.
pub trait Service {
    ghost use Rattle.bf_value.specs.declared.name.JobName.{JobName};
    ghost use Rattle.bf_xcom.specs.declared.values.Given.{Given};
    ghost use Rattle.bf_try.specs.declared.answers.Raw.{Raw};

    ghost answers: { JobName → Given → Raw → Type 0 };

    ghost gives_up: { JobName → Given → Type 0 };
}

/// A `Brand` stands for the service that each call which is generic over it picks for itself; nothing else is known of
/// it.
impl Service for Brand {
    ghost answers = { λ name given raw. ⊥ };

    ghost gives_up = { λ name given. ⊥ };
}
