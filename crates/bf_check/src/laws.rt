//! What holds of the definitions. These functions do nothing: their contracts are the laws.
ghost use Rattle.std.specs.Prelude.{◌≡◌, ◌≢◌, ℕ, List, Option};
ghost use Rattle.bf_read.specs.declared.draft.Draft.{Draft};
ghost use Rattle.bf_check.specs.Refusals.{IsAccepted, IsFaultOf};
ghost use Rattle.bf_check.specs.declared.fault.CheckFault.{CheckFault};
ghost use Rattle.bf_check.specs.declared.fault.CheckFault.TheVariants.{OutOfMemory};

/// A law: a draft has one answer, want of memory aside. One fault is told, and none where it is accepted.
pub fn answer_is_unique()
    ensures fault { (draft : Draft) (file : Option (List ℕ)) (x y : CheckFault)
        → IsFaultOf draft file x → IsFaultOf draft file y → x ≢ OutOfMemory → y ≢ OutOfMemory → x
        ≡ y }
    ensures accepted { (draft : Draft) (file : Option (List ℕ)) (x : CheckFault)
        → IsAccepted draft file → IsFaultOf draft file x → x ≡ OutOfMemory }
{}
