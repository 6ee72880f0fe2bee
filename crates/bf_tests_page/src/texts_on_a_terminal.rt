//! Words of a shell's line, and values.
use bf_quoted::{push_line, push_quoted, push_shown_value};
use bf_value::Text;
use std::test::Fail;

/// Words, and how each stands on a line.
static WORDS: [(&str, &str); 32] = [
    ("a", "a"),
    ("Az09_@+:,./-", "Az09_@+:,./-"),
    ("-x", "-x"),
    ("", "''"),
    ("if", "'if'"),
    ("time", "'time'"),
    ("iff", "iff"),
    ("A=b", "'A=b'"),
    ("a b", "'a b'"),
    ("it's", r"'it'\''s'"),
    ("'", r"''\'''"),
    ("$HOME", "'$HOME'"),
    ("$(id)", "'$(id)'"),
    ("\\", r"'\'"),
    ("~", "'~'"),
    ("*", "'*'"),
    ("!", "'!'"),
    ("é", "'é'"),
    ("a\tb", r"$'a\011b'"),
    ("\n", r"$'\012'"),
    ("it's\n", r"$'it\'s\012'"),
    ("\\\n", r"$'\\\012'"),
    ("é\n", r"$'é\012'"),
    ("\u{7f}", r"$'\177'"),
    ("\u{9b}", r"$'\302\233'"),
    ("\u{ad}", r"$'\302\255'"),
    ("\u{61c}", r"$'\330\234'"),
    ("\u{202e}x", r"$'\342\200\256x'"),
    ("\u{feff}", r"$'\357\273\277'"),
    ("\u{180e}", r"$'\341\240\216'"),
    ("\u{e0041}", r"$'\363\240\201\201'"),
    ("\u{1f600}", "'\u{1f600}'"),
];

/// Compact JSON texts, and what a terminal is given of them.
static VALUES: [(&str, &str); 10] = [
    ("[1,null]", "[1,null]"),
    (r#""a é\u0001""#, r#""a é\u0001""#),
    ("\"a\u{9b}b\"", r#""a\u009bb""#),
    ("\"\u{ad}\"", r#""\u00ad""#),
    ("\"\u{200b}\u{200f}\"", r#""\u200b\u200f""#),
    ("\"\u{202e}x\"", r#""\u202ex""#),
    ("\"\u{fff9}\u{fffb}\u{fffc}\"", "\"\\ufff9\\ufffb\u{fffc}\""),
    (
        "\"\u{34f}\u{115f}\u{180e}\u{3164}\u{fe0f}\"",
        r#""\u034f\u115f\u180e\u3164\ufe0f""#,
    ),
    (
        "\"\u{e0041}\u{e0fff}\u{e1000}\"",
        "\"\\udb40\\udc41\\udb43\\udfff\u{e1000}\"",
    ),
    ("\"\u{a0}\u{3000}\u{1f600}\"", "\"\u{a0}\u{3000}\u{1f600}\""),
];

#[test]
fn words_are_quoted(rt: HostRuntime) -> Result<(), Fail> {
    for &(word, on_a_line) in &WORDS {
        let mut text = String::new(rt.alloc());
        push_quoted(rt.alloc(), &mut text, word)?;
        assert_eq!(rt; text.as_str(), on_a_line);
    }
    Ok(())
}

#[test]
fn values_are_shown(rt: HostRuntime) -> Result<(), Fail> {
    for &(json, shown) in &VALUES {
        let mut text = String::new(rt.alloc());
        push_shown_value(&mut text, json)?;
        assert_eq!(rt; text.as_str(), shown);
    }
    Ok(())
}

#[test]
fn words_stand_on_a_line(rt: HostRuntime) -> Result<(), Fail> {
    let mut words = Vec::new(rt.alloc());
    for word in ["awk", "$2 == \"n/a\"", "", "a\nb", "-"] {
        words.push(Text::copy_of(rt.alloc(), word)?)?;
    }
    let mut text = String::new(rt.alloc());
    push_line(rt.alloc(), &mut text, words.as_slice())?;
    assert_eq!(rt; text.as_str(), r#"awk '$2 == "n/a"' '' $'a\012b' -"#);
    Ok(())
}
