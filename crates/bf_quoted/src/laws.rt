//! What holds of all texts that are made safe. These functions do nothing: their contracts are the laws, over the definitions alone.
ghost use Rattle.std.specs.Prelude.{◌≡◌, ℕ, List, Some, IsUtf8};
ghost use Rattle.std.specs.List.{All};
ghost use Rattle.std.specs.Str.{NoCharPasses};
ghost use Rattle.bf_quoted.specs.Lines.{line_of, words_by_shell};
ghost use Rattle.bf_quoted.specs.Seen.{is_unseen_in};
ghost use Rattle.bf_quoted.specs.Shell.{read_by_shell, bare};
ghost use Rattle.bf_quoted.specs.Values.{shown};
ghost use Rattle.bf_quoted.specs.Words.{quoted};

/// A law: a shell reads a quoted word as that word, and ends it where the quoting ends.
pub fn a_shell_reads_the_word()
    ensures { (word : List ℕ) → IsUtf8 word → read_by_shell (quoted word) ≡ bare word }
{}

/// A law: a shell reads a line's words, in order, and no others.
pub fn a_shell_reads_the_words_of_a_line()
    ensures { (words : List (List ℕ)) → All IsUtf8 words
        → words_by_shell (line_of words) ≡ Some words }
{}

/// A law: a terminal shows each character of a quoted word as itself.
pub fn all_of_a_word_is_seen()
    ensures { (word : List ℕ) → NoCharPasses is_unseen_in (quoted word) }
{}

/// A law: a terminal shows each character of a shown value as itself.
pub fn all_of_a_value_is_seen()
    ensures { (json : List ℕ) → NoCharPasses is_unseen_in (shown json) }
{}
