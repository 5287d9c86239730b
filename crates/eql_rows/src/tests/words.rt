//! Words of the command line, names of files, and which of several causes is told.
use crate::tests::row::{Row, Words, ended, found, printed, refused, usage};
use crate::tests::run::check;
use crate::tests::sequences::{ELEVEN, REFERENCE, REFERENCE_LISTS};
use crate::tests::text::Piece::{Bytes, Events};

/// A search with words behind its query and its mapping that make no command.
macro_rules! no_search {
    ($shows:expr => $behind:expr) => {
        usage!($shows, concat!("find --query q --fields f ", $behind))
    };
}

/// Words that make no command.
static NO_COMMANDS: &[Row] = &[
    usage!("no words", ""),
    usage!("help", "--help"),
    usage!("another command", "search --query q --fields f s0"),
    usage!("a command in capitals", "FIND --query q --fields f s0"),
    usage!("no shard", "find --query q --fields f"),
    usage!("no query", "find --fields f s0"),
    no_search!("no lines a time" => "--batch 0 s0"),
    no_search!("4,097 lines a time" => "--batch 4097 s0"),
    no_search!("17 hands" => "--hands=17 s0"),
    no_search!("a sign before a number" => "--hands +1 s0"),
    no_search!("eight digits" => "--hands 00000001 s0"),
    usage!("one option twice", "find --query q --query q --fields f s0"),
    no_search!("an option behind a shard" => "s0 --places"),
    no_search!("an option that there isn't" => "--size 5 s0"),
    no_search!("a flag with a value" => "--places=yes s0"),
    usage!("an option without a value", "find --fields f s0 --query"),
    usage!("an option as a value", "find --query -q --fields f s0"),
    usage!("an empty name", "find --query= --fields f s0"),
    no_search!("an empty word as a shard" => " s0"),
    no_search!("a dash as a name" => "-- -"),
    no_search!("a time without a unit" => "--slack 5 s0"),
    no_search!("a slack of 36,501 days" => "--slack 36501d s0"),
    no_search!("a checkpoint without a slack" => "--checkpoint c --every 5 s0"),
    no_search!("a checkpoint without its rounds" => "--slack 1s --checkpoint c s0"),
    usage!("a check of a shard", "check --query q --fields f s0"),
    usage!("1,000,001 made events", "made 1000001"),
];

/// Words that say the search of the reference's example.
macro_rules! spells {
    ($shows:expr, $line:expr $(, $field:ident: $value:expr)* $(,)?) => {
        found!(
            $shows,
            REFERENCE,
            ELEVEN,
            REFERENCE_LISTS,
            words: Words::Line($line)
            $(, $field: $value)*
        )
    };
}

/// Commands in several forms.
static FORMS: &[Row] = &[
    spells!("options in another order", "find --fields f --query q s0"),
    spells!(
        "values behind a sign of equality",
        "find --query=q --fields=f s0"
    ),
    spells!("options ended", "find --query q --fields f -- s0"),
    spells!(
        "all options, and the greatest numbers",
        "find --hands 16 --batch 4096 --fields f --slack 36500d --tiebreaker event.sequence --query q s0",
    ),
    spells!(
        "zeros before a number",
        "find --query q --fields f --batch 0000001 --hands=0000000 s0",
    ),
    printed!(
        "a check with options in another order",
        "any where true",
        &["any where true"],
        words: Words::Line("check --fields=f --query q"),
    ),
    ended!(
        "a name may begin with a dash where it can't be an option",
        1,
        "no file -s",
        words: Words::Line("find --query q --fields f -- -s"),
    ),
];

/// Searches over events that the program makes itself. They need no file.
static MADE: &[Row] = &[
    printed!(
        "no event",
        "",
        &["events 0", "matches 0", "first none", "last none"],
        words: Words::Line("made 0"),
    ),
    printed!(
        "events before the first match",
        "",
        &["events 200", "matches 0", "first none", "last none"],
        words: Words::Line("made --hands=3 200"),
    ),
    printed!(
        "the first match",
        "",
        &[
            "events 201",
            "matches 1",
            "first 1 [\"u0\"] 0:1 0:26 0:51",
            "last 1 [\"u0\"] 0:1 0:26 0:51",
        ],
        words: Words::Line("made 201"),
    ),
];

/// Searches with a checkpoint, over a disk that holds nothing.
static CHECKPOINTS: &[Row] = &[
    spells!(
        "a checkpoint",
        "find --query q --fields f --slack 0ms --checkpoint c --every 5 s0"
    ),
    spells!(
        "a checkpoint with options in another order",
        "find --every=1 --hands=0 --checkpoint=c --slack=36500d --fields=f --query=q s0",
    ),
    refused!(
        "a checkpoint, and a query that is refused",
        "any",
        "parse: Syntax at 3",
        words: Words::Line("find --query q --fields f --slack 1m --checkpoint c --every 1000000 s0"),
    ),
];

/// Files that aren't there.
static NAMES: &[Row] = &[
    ended!("no query", 1, "no file p", words: Words::Line("find --query p --fields f s0")),
    ended!("no mapping", 1, "no file g", words: Words::Line("find --query q --fields g s0")),
    ended!("no shard", 1, "no file t", words: Words::Line("find --query q --fields f t")),
    ended!(
        "no second shard",
        1,
        "no file t",
        words: Words::Line("find --query q --fields f s0 t u"),
    ),
    ended!("no query to check", 1, "no file p", words: Words::Line("check --query p --fields f")),
    ended!(
        "no mapping to check with",
        1,
        "no file g",
        words: Words::Line("check --query q --fields g"),
    ),
];

/// Names as they are printed. What can't be seen, or changes how the text around it is read, is escaped.
static PRINTED_NAMES: &[Row] = &[
    ended!(
        "control characters in a name are escaped",
        1,
        r"no file a\nb\tc",
        words: Words::Line("find --query a\nb\tc --fields f s0"),
    ),
    ended!(
        "so are those without a letter of their own, up to 9f",
        1,
        r"no file \u{00}\u{1b}\u{7f}\u{80}\u{9f}",
        words: Words::Line("find --query \u{0}\u{1b}\u{7f}\u{80}\u{9f} --fields f s0"),
    ),
    ended!(
        "separators of lines and paragraphs are escaped",
        1,
        r"no file a\u{2028}b\u{2029}c",
        words: Words::Line("find --query q --fields a\u{2028}b\u{2029}c s0"),
    ),
    ended!(
        "marks that turn the direction of writing are escaped",
        1,
        r"no file \u{200e}\u{200f}\u{202a}\u{202e}\u{2066}\u{2069}",
        words: Words::Line("find --query q --fields f \u{200e}\u{200f}\u{202a}\u{202e}\u{2066}\u{2069}"),
    ),
    ended!(
        "all other characters stay",
        1,
        "no file ~\u{a0}caf\u{e9}\u{200d}\u{2027}\u{202f}\u{2065}\u{206a}\u{1f600}\"\\",
        words: Words::Line("find --query ~\u{a0}caf\u{e9}\u{200d}\u{2027}\u{202f}\u{2065}\u{206a}\u{1f600}\"\\ --fields f s0"),
    ),
];

/// Of several causes the first is told: the query file, its tokens, its grammar, the mapping file, the mapping, the check, the
/// shards.
static CAUSES: &[Row] = &[
    ended!(
        "a missing query before a missing mapping",
        1,
        "no file p",
        words: Words::Line("find --query p --fields g t"),
    ),
    refused!(
        "tokens before a missing mapping",
        "'",
        "lex: SingleQuote at 0",
        words: Words::Line("find --query q --fields g t"),
    ),
    refused!(
        "grammar before a missing mapping",
        "x",
        "parse: Syntax at 1",
        words: Words::Line("find --query q --fields g t"),
    ),
    refused!("grammar before the mapping", "x", "parse: Syntax at 1", fields: &[Bytes(b"x")]),
    ended!(
        "a missing mapping before the check",
        1,
        "no file g",
        query: "any where x == 1",
        words: Words::Line("find --query q --fields g t"),
    ),
    refused!(
        "the mapping before the check",
        "any where x == 1",
        "mapping: MapSyntax",
        fields: &[Bytes(b"x")],
    ),
    refused!(
        "the check before a missing shard",
        "any where x == 1",
        "check: UnknownField x",
        words: Words::Line("find --query q --fields f t"),
    ),
    ended!(
        "a missing shard before what is found in others",
        1,
        "no file t",
        shard: &[Events("1 a")],
        words: Words::Line("find --query q --fields f s0 t"),
    ),
];

#[test]
fn words_make_a_command_or_none(rt: HostRuntime) {
    check(&rt, rt.alloc(), &[NO_COMMANDS, FORMS, MADE, CHECKPOINTS]);
}

#[test]
fn files_are_missing(rt: HostRuntime) {
    check(&rt, rt.alloc(), &[NAMES, PRINTED_NAMES, CAUSES]);
}
