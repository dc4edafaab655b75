//! What a test saw, compared with what it wants. A call of these costs the prover less than the
//! branches of a macro at each place would.
use std::fmt::Debug;
use std::process::Abort;

/// Fails unless what was seen is what is wanted.
pub(crate) fn same<T: Debug + Drop + PartialEq>(rt: &impl Abort, seen: T, wanted: T) {
    assert!(rt; seen == wanted, "{seen:?} in place of {wanted:?}");
}

/// Fails unless the bytes are those that are wanted.
pub(crate) fn same_bytes(rt: &impl Abort, seen: &[u8], wanted: &[u8]) {
    assert!(rt; seen == wanted, "{seen:?} in place of {wanted:?}");
}

/// Fails unless this is so.
pub(crate) fn confirm(rt: &impl Abort, is_so: bool) {
    assert!(rt; is_so);
}

/// Fails unless the bytes begin and end with these.
pub(crate) fn begins_and_ends(rt: &impl Abort, seen: &[u8], first: &[u8], last: &[u8]) {
    let is_so = seen.starts_with(first) && seen.ends_with(last);
    assert!(rt; is_so, "{seen:?} in place of {first:?} .. {last:?}");
}
