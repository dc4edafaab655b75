//! What `{:?}` prints of a future: the ends that it owns, how many bytes came, and no byte.
use std::fmt::{self, Debug, Formatter};

/// Of a future that gathers bytes.
pub(crate) fn gathering<E: Debug, W: fmt::Write>(
    f: &mut Formatter<W>,
    name: &str,
    state: &Option<(E, Vec<u8>)>,
) -> fmt::Result {
    match state {
        Some((end, bytes)) => f.debug_tuple(name).field(end).field(&bytes.len()).finish(),
        None => f.write_str(name),
    }
}

/// Of a future that owns an end, and what it moves to or from.
pub(crate) fn moving<E: Debug, T, W: fmt::Write>(
    f: &mut Formatter<W>,
    name: &str,
    state: &Option<(E, T)>,
) -> fmt::Result {
    match state {
        Some((end, _)) => f.debug_tuple(name).field(end).finish(),
        None => f.write_str(name),
    }
}
