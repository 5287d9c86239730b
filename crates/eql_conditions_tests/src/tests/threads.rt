//! Code and stacks may go to other threads.
use eql_code::{Code, Stack};
use std::marker::Send;
use std::test::Fail;

fn crosses_threads<S: Send + Drop>() {}

#[test]
fn code_and_stacks_cross_threads(_rt: HostRuntime) -> Result<(), Fail> {
    crosses_threads::<Code>();
    crosses_threads::<Stack>();
    Ok(())
}
