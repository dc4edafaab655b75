//! What `{:?}` prints of the handles.
use crate::compare::same_of as same;
use piper::pipe;

#[test]
fn what_is_printed_is_the_state_of_a_handle_and_no_byte(rt: HostRuntime) {
    let (mut reader, mut writer) = pipe(rt.alloc(), 8).expect(&rt, "a pipe");
    same(&rt, &"taken", writer.try_fill(b"abc"), 3);
    reader.try_drain(&mut [0; 2]);
    let printed = format!(in rt.alloc(); "{reader:?}, {writer:?}").expect(&rt, "memory");
    let wanted =
        "Reader { capacity: 8, known: 1, closed: false }, Writer { capacity: 8, room: 5, closed: false }";
    same(&rt, &"printed", printed.as_str(), wanted);
    drop(writer);
    let printed = format!(in rt.alloc(); "{:?}", &reader).expect(&rt, "memory");
    let wanted = "Reader { capacity: 8, known: 1, closed: true }";
    same(&rt, &"printed", printed.as_str(), wanted);
}
