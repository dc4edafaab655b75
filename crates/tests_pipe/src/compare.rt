//! What a test saw, compared with what it wants. A call of these costs the prover less than the
//! branches of a macro at each place would.
use futures::task::Poll;
use std::fmt::Debug;
use std::process::Abort;

/// Fails unless what was seen is what is wanted.
pub(crate) fn same<T: Debug + Drop + PartialEq>(rt: &impl Abort, seen: T, wanted: T) {
    assert!(rt; seen == wanted, "{seen:?} in place of {wanted:?}");
}

/// The same, of what has a name.
pub(crate) fn same_of<T: Debug + Drop + PartialEq>(
    rt: &impl Abort,
    what: &impl Debug,
    seen: T,
    wanted: T,
) {
    assert!(rt; seen == wanted, "{what:?}: {seen:?} in place of {wanted:?}");
}

/// Fails unless the bytes are those that are wanted.
pub(crate) fn same_bytes(rt: &impl Abort, seen: &[u8], wanted: &[u8]) {
    assert!(rt; seen == wanted, "{seen:?} in place of {wanted:?}");
}

/// Fails unless this is so.
pub(crate) fn confirm(rt: &impl Abort, is_so: bool) {
    assert!(rt; is_so);
}

/// Fails unless the poll was ready with this value.
pub(crate) fn ready<T, E>(rt: &impl Abort, seen: Poll<Result<T, E>>, wanted: T)
where
    T: Debug + Drop + PartialEq,
    E: Drop,
{
    match seen {
        Poll::Ready(Ok(answer)) => same(rt, answer, wanted),
        _ => assert!(rt; false, "no answer in place of {wanted:?}"),
    }
}
