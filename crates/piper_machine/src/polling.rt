//! What a polling call is handed.

/// The outcomes of a polling call that lie outside the pipe: its draw, and whether memory is
/// granted.
#[derive(Clone, Copy)]
pub struct Luck {
    /// The number drawn, below 100: a copying call yields exactly at 0.
    pub draw: u32,
    /// Whether a waker can be cloned to be registered.
    pub register_granted: bool,
    /// Whether a waker can be cloned to be woken by a yield.
    pub yield_granted: bool,
}

/// The context of a polling call. The try forms have none.
#[derive(Clone, Copy)]
pub struct Context {
    /// The name of the caller's waker.
    pub waker: u32,
    pub luck: Luck,
}
