//! Lines of many bytes, and bytes that are no text.

use crate::replays::expected::expect_script;
use std::alloc::Global;
use std::test::Fail;

/// The line `beginning`, then `piece` again and again, `count` times, then `end`.
fn repeated(
    alloc: Global,
    beginning: &[u8],
    piece: &[u8],
    count: usize,
    end: &[u8],
) -> Result<Vec<u8>, Fail> {
    let mut script = Vec::from_slice(alloc, beginning)?;
    for _ in 0..count {
        script.extend_from_slice(piece)?;
    }
    script.extend_from_slice(end)?;
    Ok(script)
}

#[test]
fn long_lines(rt: HostRuntime) -> Result<(), Fail> {
    let rows: [(&[u8], &[u8], usize, &[u8], &[u8], u8); 8] = [
        // 65,536 bytes, and one more.
        (b"pipe 8\n", b"x", 65_536, b"\n", b"ok\nline 2: Syntax\n", 1),
        (b"pipe 8\n", b"x", 65_537, b"\n", b"ok\nline 2: Limit\n", 1),
        (b"pipe 8\n", b"x", 65_536, b"", b"ok\nline 2: Syntax\n", 1),
        (b"pipe 8\n", b"x", 65_537, b"", b"ok\nline 2: Limit\n", 1),
        // The same, of a comment.
        (b"#", b"x", 65_535, b"\npipe 8\n", b"ok\n", 0),
        (b"#", b"x", 65_536, b"\npipe 8\n", b"line 1: Limit\n", 1),
        // A command of 65,536 bytes, and one of one byte more.
        (
            b"pipe 8\nfill ",
            b"1,",
            32_765,
            b"1\nlen r\n",
            b"ok\n8\n8\n",
            0,
        ),
        (
            b"pipe 8\nfill ",
            b"1,",
            32_765,
            b"10\nlen r\n",
            b"ok\nline 2: Limit\n",
            1,
        ),
    ];
    for (beginning, piece, count, end, printed, status) in rows {
        let script = repeated(rt.alloc(), beginning, piece, count, end)?;
        expect_script(&rt, "", &script, printed, status)?;
    }
    Ok(())
}

#[test]
fn a_line_of_a_script_of_steps_that_is_too_long(rt: HostRuntime) -> Result<(), Fail> {
    let script = repeated(rt.alloc(), b"pipe 4\n", b"x", 65_537, b"\n")?;
    expect_script(&rt, "run", &script, b"line 2: Limit\n", 1)
}

#[test]
fn the_longest_list_is_printed(rt: HostRuntime) -> Result<(), Fail> {
    let printed = repeated(
        rt.alloc(),
        b"ok\n1048576\n1048576 200",
        b",200",
        1_048_575,
        b"\n",
    )?;
    let script = b"pipe 1048576\nfill 200*1048576\ndrain 1048576\n";
    expect_script(&rt, "", script, &printed, 0)
}

#[test]
fn bytes_that_are_no_text(rt: HostRuntime) -> Result<(), Fail> {
    expect_script(&rt, "", b"pipe 8\nfill \xff\n", b"ok\nline 2: Syntax\n", 1)?;
    expect_script(&rt, "", b"#\xff\n", b"", 0)
}
