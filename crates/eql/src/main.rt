//! The program `eql`: the files and streams of this process, handed to the library, whose status it ends with.
#![tactic(auto)]

use eql_cli::{NoGate, eql_main};
use eql_outside::{FileShelf, KeptStdout, StdSink};
use std::env;
use std::io::ErrorKind;
use std::process::ExitCode;

/// The status for want of memory, where it comes before the library is called.
const OUT_OF_MEMORY: u8 = 8;

/// The words after the program's name. A word that isn't UTF-8 makes no command, so the list is empty then.
fn words_of(rt: &HostRuntime) -> Option<Vec<String>> {
    let alloc = rt.alloc();
    let mut words = Vec::new(alloc);
    match env::args(rt) {
        Ok(args) => {
            for word in args.skip(1) {
                words.push(word).ok()?;
            }
            Some(words)
        }
        Err(error) => if error.kind() == ErrorKind::InvalidData {
            Some(words)
        } else {
            None
        },
    }
}

fn main(rt: HostRuntime) -> ExitCode {
    let Some(words) = words_of(&rt) else {
        return ExitCode::from(OUT_OF_MEMORY);
    };
    let Ok(files) = rt.clone() else {
        return ExitCode::from(OUT_OF_MEMORY);
    };
    let Ok(own) = rt.clone() else {
        return ExitCode::from(OUT_OF_MEMORY);
    };
    let mut shelf = FileShelf::new(rt.alloc(), files);
    let out = StdSink::new(KeptStdout::new(rt.stdout(), own));
    let err = StdSink::new(rt.stderr());
    let ended = eql_main(&rt, rt.alloc(), &words, &mut shelf, out, err, &NoGate);
    ExitCode::from(ended.status)
}
