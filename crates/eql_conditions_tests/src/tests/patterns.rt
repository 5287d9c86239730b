//! Tests against patterns and lists, with and without folding.
use crate::tests::answer::{Asked, each_answers};
use std::test::Fail;

/// Conditions, and what each gives.
static CONDITIONS: &str = r#"
// `:` and `like~` fold, `like` doesn't. A pattern fits a whole text; one of several is enough.
nt : "*" => null
?x like "*" => null
null like~ "*" => null
nt like ("a", "*") => null
t : "cmd.*" => true
t like "cmd.*" => false
t like "Cmd.*" => true
t like~ "*.EXE" => true
t : ("x", "c?d.exe") => true
t like ("cmd", "?md.exe") => true
t like~ ("x", "*y") => false
t : "cmd" => false
"" : "*" => true
"" : "?" => false
"" like "" => true
"a" like "" => false
"a*c" like "a*c" => true
"abbc" like "a*c" => true
"abbc" like "a?c" => false
"*" like "?" => true
"a.c" like "a.c" => true
"abc" like "a.c" => false

// `in` asks for an equal literal, and `in~` folds; a null is in no list and out of none.
nl in (1, 2) => null
nl not in (1) => null
nt in ("a") => null
nt in~ ("a") => null
nt not in~ ("a") => null
nb in (true) => null
ni in ("10.0.0.1") => null
i in ("10.0.0.1") => false
ni not in ("10.0.0.1") => null
?x in (1) => null
?x in (1, "a") => null
null in (1) => null
null not in~ ("a") => null
l in (1, 5) => true
l not in (1, 5) => false
l in (1) => false
l not in (1) => true
l - 10 in (-5) => true
t in ("cmd.exe") => false
t in~ ("cmd.exe") => true
t not in~ ("CMD.EXE") => false
t not in ("CMD.EXE") => true
t in ("cmd.exe", "Cmd.exe") => true
t in~ ("cmd.*") => false
t in ("*") => false
i in ("10.0.0.1", "10.9.8.7") => true
i not in ("10.9.8.7") => false
b in (false) => false
b not in (false) => true
(nl in (1)) in (true) => null
not (l in (1)) => true

// Folding goes character by character, by the simple case folding of Unicode.
"ÉCLAIR" : "éclair" => true
"ÉCLAIR" like "éclair" => false
"ÉCLAIR" in~ ("a", "éclair") => true
"ÉCLAIR" in ("a", "éclair") => false
"ÉCLAIR" not in~ ("éclair") => false
// capital sigma and the small one at the end of words
"ΑΣ" like~ "ας" => true
"ΑΣ" like "ας" => false
"ΑΣ" in~ ("ας") => true
"ПРИВЕТ" : "прив*" => true
"ПРИВЕТ" : ("x", "?ривет") => true
"ŒUVRE" in~ ("œuvre") => true
// the titlecase digraph folds as the capital one does
"\u{1c4}" : "\u{1c5}" => true
// the Kelvin sign and the long s fold to ASCII letters
"\u{212a}" : "k" => true
"\u{17f}" in~ ("S") => true
"ẞ" : "ß" => true
"ß" : "SS" => false
"straße" in~ ("STRASSE") => false
// a ligature is one character, and a capital I with a dot folds to itself
"\u{fb01}" : "fi" => false
"\u{130}" : "i" => false
"e\u{301}" : "é" => false
"É" == "é" => false
"#;

#[test]
fn patterns_give_these_values(rt: HostRuntime) -> Result<(), Fail> {
    each_answers(&rt, rt.alloc(), Asked::Value, CONDITIONS)
}
