//! What is written and flushed before a script is read on.

use crate::compare::same;
use crate::flushed::{Flushed, Turns};
use crate::replays::expected::{LINES, expect_end};
use piper_script::replay::replay;
use std::cell::Cell;
use std::test::Fail;

#[test]
fn a_line_is_flushed_before_the_next_is_read(rt: HostRuntime) -> Result<(), Fail> {
    let flushed = Cell::new(0);
    let mut input = Turns::new(rt.alloc(), &LINES, &flushed);
    let mut output = Flushed::new(&flushed);
    let ended = replay(rt.alloc(), &[], &mut input, &mut output);
    same(&rt, input.noted(), &[0, 3, 5, 5, 11, 13]);
    expect_end(&rt, ended, 0, "");
    Ok(())
}
