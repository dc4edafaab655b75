//! What an echo has printed and flushed before it reads on.

use crate::compare::same;
use crate::flushed::{Flushed, Line, Turns};
use piper_duplex::{Ended, echo};
use std::cell::Cell;

const LINES: [Line<'static>; 3] = [("a\n", "a\n"), ("bb\n", "bb\n"), ("c", "c")];

#[test]
fn a_line_that_came_back_is_flushed_before_the_next_is_read(rt: HostRuntime) {
    let flushed = Cell::new(0);
    let mut input = Turns::new(rt.alloc(), &LINES, &flushed);
    let mut output = Flushed::new(&flushed);
    let ended = echo(&rt, rt.alloc(), &[], &mut input, &mut output);
    same(&rt, input.noted(), &[0, 2, 5, 5]);
    same(&rt, flushed.get(), 6);
    same(&rt, ended, Ended::DONE);
}
