//! What functions give (EQL function reference).
use crate::tests::answer::{Asked, each_answers};
use std::test::Fail;

/// Conditions, and what each gives.
static CONDITIONS: &str = r#"
// Functions that ask for a place or a length. Places count characters from 0.
length("café") == 4 => true
length("") == 0 => true
indexOf("abcabc", "c", 3) == 5 => true
indexOf("abcabc", "c") == 2 => true
indexOf("abc", "x") == null => true
indexOf("abc", "", 3) == 3 => true
indexOf("abc", "", 4) == null => true
indexOf("abc", "a", -1) == 0 => true
indexOf~("abC", "Bc") == 1 => true
indexOf("abC", "Bc") == null => true
indexOf("éa", "a") == 1 => true

// Functions that give a part of a text, or join texts.
substring("start regsvr32.exe", 6) == "regsvr32.exe" => true
substring("start regsvr32.exe", -4) == ".exe" => true
substring("start regsvr32.exe", -4, -1) == ".ex" => true
substring("abc", 5) == "" => true
substring("abc", -5) == "abc" => true
substring("abc", 0, -5) == "" => true
substring("abc", 1, 9) == "bc" => true
substring("abc", 1, 2) == "b" => true
substring("abc", 2, 1) == "" => true
substring("café", 3) == "é" => true
between("system event log", "system ", " log") == "event" => true
between("a-b-c-d", "a", "-") == "" => true
between("a-b-c-d", "a", "x") == "" => true
between("a-b-c-d", "x", "-") == "" => true
between("a-b-c-d", "a", "-", true) == "-b-c" => true
between("a-b-c-d", "a", "-", false) == "" => true
between~("A-b-c-d", "a-", "-C") == "b" => true
between("A-b-c-d", "a-", "-C") == "" => true
concat("a", 1, true) == "a1true" => true
concat("a", null) == null => true
concat(i, "/", l, "/", t, "/", -3) == "10.9.8.7/5/Cmd.exe/-3" => true
string(-9223372036854775807 - 1) == "-9223372036854775808" => true
string(false) == "false" => true
string(i) == "10.9.8.7" => true

// Functions that test a text or an address.
startsWith("cmd.exe", "cmd") => true
startsWith("cmd.exe", "CMD") => false
startsWith~("cmd.exe", "CMD") => true
endsWith~("CMD.EXE", ".exe") => true
endsWith("CMD.EXE", ".exe") => false
stringContains("cmd.exe", "d.e") => true
stringContains("CMD.EXE", "d.e") => false
stringContains~("CMD.EXE", "d.e") => true
stringContains("a", "") => false
stringContains("", "") => false
stringContains~("", "") => false
stringContains(t, "") => false
startsWith("", "") and endsWith("a", "") => true
startsWith("a", "") => true
endsWith("a", "") => true
startsWith("cmd", "cmd.exe") => false
cidrMatch("10.9.8.7", "10.0.0.0/8") => true
cidrMatch("11.0.0.1", "10.0.0.0/8", "0.0.0.0/0") => true
cidrMatch("11.0.0.1", "10.0.0.0/8") => false
cidrMatch(i, "10.9.8.8/32", "10.9.8.6/32") => false
cidrMatch(i, "10.9.8.6/31") => true
cidrMatch(i, "10.9.8.4/31") => false
cidrMatch(i, "172.16.0.0/12", "192.168.0.0/16", "10.0.0.0/8") => true
cidrMatch(i, "172.16.0.0/12", "192.168.0.0/16", "11.0.0.0/8") => false
cidrMatch(concat("10.9.", 8, ".", 7), "10.9.8.0/24") => true
cidrMatch(concat(t, ""), "10.9.8.0/24") == null => true
cidrMatch(ni, "10.0.0.0/8") == null => true
cidrMatch(i, "10.0.0.0/8", null) == null => true

// Functions that give a number.
number("-12") == -12 => true
number("1x") == null => true
number("0x1F") == 31 => true
number("0x") == null => true
number("") == null => true
number("-") == null => true
number("+1") == null => true
number("007") == 7 => true
number("-0x1F") == null => true
number("9223372036854775807") == 9223372036854775807 => true
number("9223372036854775808") == null => true
number("-9223372036854775808") == -9223372036854775807 - 1 => true
number("-9223372036854775809") == null => true
add(2, 3) == 5 => true
subtract(2, 3) == -1 => true
multiply(-2, 3) == -6 => true
divide(-7, 2) == -4 => true
modulo(-7, 2) == 1 => true

// Calls in one another.
substring(t, -4) : ".EXE" => true
length(concat(t, "é")) == 8 => true
number(substring("pid=12", 4)) + l == 17 => true
concat(substring(nt, 0), "a") == null and length(nt) == null => true
startsWith(concat(t, nt), "C") => null

// Calls with a null argument, in each place, or with a text that writes no address, are null.
add(nl, 1) == null => true
add(1, ?x) == null => true
subtract(nl, 1) == null => true
subtract(1, null) == null => true
multiply(nl, 0) == null => true
multiply(0, nl) == null => true
divide(nl, 1) == null => true
divide(1, nl) == null => true
divide(1, 0) == null => true
modulo(?x, 1) == null => true
modulo(1, nl) == null => true
modulo(1, 0) == null => true
length(nt) == null => true
length(?x) == null => true
length(null) == null => true
indexOf(nt, "a") == null => true
indexOf("a", nt) == null => true
indexOf(nt, "a", 0) == null => true
indexOf("a", ?x, 0) == null => true
indexOf("a", "a", nl) == null => true
indexOf~("a", "a", null) == null => true
startsWith(nt, "") == null => true
startsWith~("a", nt) == null => true
endsWith("a", ?x) == null => true
endsWith~(nt, "") == null => true
stringContains(null, "") == null => true
stringContains~("a", nt) == null => true
concat(nt) == null => true
concat(nb, "a") == null => true
concat("a", nl, "b") == null => true
concat("a", ni) == null => true
concat(?x, "a") == null => true
substring(nt, 0) == null => true
substring("a", nl) == null => true
substring(nt, 0, 1) == null => true
substring("a", ?x, 1) == null => true
substring("a", 0, nl) == null => true
between(nt, "a", "b") == null => true
between("a", nt, "b") == null => true
between("a", "b", ?x) == null => true
between~("a", "b", "c", nb) == null => true
string(nb) == null => true
string(nl) == null => true
string(nt) == null => true
string(ni) == null => true
string(null) == null => true
number(nt) == null => true
number(?x) == null => true
cidrMatch(ni, "10.0.0.0/8") == null => true
cidrMatch("10.0.0", "10.0.0.0/8") == null => true
cidrMatch(i, null, "10.0.0.0/8") == null => true
cidrMatch(i, "10.0.0.0/8", ?x) == null => true
cidrMatch(ni, "10.0.0.0/8") => null
startsWith(nt, "") => null
"#;

#[test]
fn calls_give_these_values(rt: HostRuntime) -> Result<(), Fail> {
    each_answers(&rt, rt.alloc(), Asked::Value, CONDITIONS)
}
