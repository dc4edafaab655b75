//! Tests of the pipe, of the ring below it and of the machine, and the examples. Tests are crates of
//! their own, so that what they test is proved once.
#![tactic(auto)]

#[cfg(test)]
mod compare;
#[cfg(test)]
mod examples;
#[cfg(test)]
mod machine;
#[cfg(test)]
mod marks;
#[cfg(test)]
mod polls;
#[cfg(test)]
mod printed;
#[cfg(test)]
mod racing;
#[cfg(test)]
mod ring;
