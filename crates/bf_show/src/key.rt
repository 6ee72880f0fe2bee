//! The names of the members of a line.
ghost use Rattle.std.specs.Prelude.{◌≡◌, ◌++◌, OnOk, string_bytes};
ghost use Rattle.bf_show.specs.Pieces.{key_word, key_text};

use bf_value::OutOfMemory;

/// The members of a line's JSON object that come after the first, `run`.
#[derive(Clone, Copy, Debug, PartialEq, Eq)]
pub(crate) enum Key {
    End,
    RunState,
    Task,
    Index,
    State,
    Tries,
    Value,
    Item,
    Pulls,
}

impl Key {
    /// The member's name, as lines of JSON have it.
    fn word(self) -> &'static str
        ensures { result.now ≡ key_word self }
    {
        match self {
            Key::End => "end",
            Key::RunState => "run_state",
            Key::Task => "task",
            Key::Index => "index",
            Key::State => "state",
            Key::Tries => "tries",
            Key::Value => "value",
            Key::Item => "item",
            Key::Pulls => "pulls",
        }
    }
}

/// Adds what stands before the value of a member: a comma, its name in quotes and a colon.
pub(crate) fn push_key(text: &mut String, key: Key) -> Result<(), OutOfMemory>
    ensures { OnOk result (string_bytes text.new ≡ string_bytes text.old ++ key_text key) }
{
    let word = key.word();
    write!(text, ",\"{word}\":")?;
    Ok(())
}
