//! The words of a command.
use bf_moment::Moment;
use bf_plan::{ContextVariable, Word};
use bf_value::{OutOfMemory, Sequence, Text, Values, Xval};
use bf_words::{JobContext, words};
use bf_xcom::{Given, SharedValue};
use jiff::Timestamp;
use std::alloc::Global;
use std::process::Abort;
use std::test::Fail;

/// How many words the command has: a text, each context variable, each of three pulls, and the item.
const COMMAND: usize = 12;

/// What each word of the command must come to.
const WORDS: [&str; COMMAND] = [
    "echo \"",
    "1970-01-01T00:00:00Z",
    "1970-01-01T00:00:00Z",
    "1970-01-01T00:00:00Z",
    "d",
    "t",
    "-1",
    "1",
    "a\"b",
    "",
    "[3,null,true]",
    "null",
];

/// Makes the command, with this text as its first word.
fn command(text: Text) -> [Word; COMMAND] {
    [
        Word::Text(text),
        Word::Context(ContextVariable::LogicalDate),
        Word::Context(ContextVariable::DataIntervalStart),
        Word::Context(ContextVariable::DataIntervalEnd),
        Word::Context(ContextVariable::DagId),
        Word::Context(ContextVariable::TaskId),
        Word::Context(ContextVariable::MapIndex),
        Word::Context(ContextVariable::TryNumber),
        Word::Pull(0),
        Word::Pull(1),
        Word::Pull(2),
        Word::Item,
    ]
}

/// Makes what the try is given: null as its item, and a text, nothing and a list as what it pulls.
fn given(alloc: Global) -> Result<Given, OutOfMemory> {
    let text = Xval::Text(Text::copy_of(alloc, "a\"b")?);
    let list = vec![in alloc; Xval::Int(3), Xval::Nil, Xval::Flag(true)]?;
    let list = Xval::List(Values::new(list));
    let pulled = vec![in alloc;
        SharedValue::new(alloc, Some(text))?,
        SharedValue::new(alloc, None)?,
        SharedValue::new(alloc, Some(list))?,
    ]?;
    Ok(Given {
        item: Some(Xval::Nil),
        pulled: Sequence::from_vec(pulled),
    })
}

/// Makes the words of the command for a try at 1970-01-01T00:00:00Z that is given this.
fn words_given(alloc: Global, given: &Given) -> Result<Vec<String>, OutOfMemory> {
    let context = JobContext {
        data_interval_start: Moment::new(Timestamp::UNIX_EPOCH),
        data_interval_end: Moment::new(Timestamp::UNIX_EPOCH),
        dag_id: "d",
        task_id: "t",
        map_index: -1,
        try_number: 1,
    };
    let command = command(Text::copy_of(alloc, "echo \"")?);
    Ok(words(alloc, &command, &context, given)?)
}

/// Makes the words of the command for a try that is given `given`.
fn words_found(alloc: Global) -> Result<Vec<String>, OutOfMemory> {
    let given = given(alloc)?;
    words_given(alloc, &given)
}

/// Checks that these are the words of `WORDS`.
fn are_the_words(rt: &impl Abort, found: &[String]) {
    assert_eq!(rt; found.len(), WORDS.len());
    for (word, text) in found.iter().zip(&WORDS) {
        assert_eq!(rt; word.as_str(), *text);
    }
}

#[test]
fn each_kind_of_word_has_its_text(rt: HostRuntime) -> Result<(), Fail> {
    let found = words_found(rt.alloc())?;
    are_the_words(&rt, found.as_slice());
    Ok(())
}
