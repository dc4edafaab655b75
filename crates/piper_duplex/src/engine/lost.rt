//! Want of memory, with what it is known by: a call was refused it; or the other thread, which
//! gives up only for want of it, has ended before all came back.
ghost use Rattle.std.specs.Prelude.{◌≡◌, IfErr, IfOk, Ok, codes, true};
ghost use Rattle.piper_duplex.specs.Failures.{FailsWith, IsLost, LacksMemory};

use crate::engine::session::Ended;
use futures::task::Context;
use piper::PipeError;
use piper::io::{AsyncBufRead, AsyncWrite};

/// Hands on what was asked for, or that it was refused. Only memory is asked for so, and what a
/// thread needs to wait.
pub(crate) fn wanted<T, E: Drop>(asked: Result<T, E>) -> Result<T, Ended>
    ensures granted { IfOk asked (λ granted. result ≡ Ok granted) }
    ensures refused { IfErr result LacksMemory }
{
    match asked {
        Ok(granted) => Ok(granted),
        Err(_) => Err(lost()),
    }
}

/// The writer failed so, with this context.
pub(crate) fn write_refused<W>(_writer: &W, _cx: &Context<'_>, _error: PipeError) -> Ended
where
    W: AsyncWrite,
    requires { W.fails _writer.now _cx.now _error }
    ensures { LacksMemory result }
{
    lost()
}

/// The reader failed so, with this context.
pub(crate) fn read_refused<A>(_reader: &A, _cx: &Context<'_>, _error: PipeError) -> Ended
where
    A: AsyncBufRead,
    requires { A.fails _reader.now _cx.now _error }
    ensures { LacksMemory result }
{
    lost()
}

/// The writer saw its pipe closed: nobody reads what is sent.
pub(crate) fn unread<W: AsyncWrite>(_writer: &W) -> Ended
    requires { W.saw _writer.now ≡ true }
    ensures { LacksMemory result }
{
    lost()
}

/// The reader has reported the end: nothing more comes back.
pub(crate) fn unanswered<A: AsyncBufRead>(_reader: &A) -> Ended
    requires { A.ended _reader.now }
    ensures { LacksMemory result }
{
    lost()
}

// Only the calls above make it, each with its reason.
fn lost() -> Ended
    ensures text { FailsWith (codes "memory") result }
    ensures lost { IsLost result }
{
    Ended::OUT_OF_MEMORY
}
