//! What holds of a path while its file is replaced. These functions do nothing: their contracts are the laws.
ghost use Rattle.std.specs.Prelude.{◌≡◌, ◌⊎◌, ℕ, List, Option, Some, take};
ghost use Rattle.bf_file.specs.declared.call.Call.{Call};
ghost use Rattle.bf_file.specs.Replacing.{IsReplacing, IsStored, MayHold, held_after};

/// A law: where the machine fails while a file is replaced, after whichever of the calls, the path holds what it
/// held, or all of the new text.
pub fn a_path_holds_the_old_or_the_new()
    ensures { (text : List ℕ) (calls : List Call) → IsReplacing text calls
        → (held now beside : Option (List ℕ)) (n : ℕ) → MayHold held (take n calls) now beside
        → (now ≡ held) ⊎ (now ≡ Some text) }
{}

/// A law: where a new file was written and synced, and its rename failed, the path holds what it held, and the new file
/// under its own name all of the text, even where the machine fails then.
pub fn a_new_file_that_is_left_holds_the_text()
    ensures { (text : List ℕ) (calls : List Call) → IsStored text calls
        → (held now beside : Option (List ℕ)) → MayHold held calls now beside
        → (now ≡ held) × (beside ≡ Some text) }
{}

/// A law: where the machine goes on, the path holds the new text after the last of the calls.
pub fn a_replaced_path_holds_the_new()
    ensures { (text : List ℕ) (calls : List Call) → IsReplacing text calls
        → (held : Option (List ℕ)) → held_after held calls ≡ Some text }
{}
