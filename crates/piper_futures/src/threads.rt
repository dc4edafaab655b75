//! Threads that read for a pipe, or write for one: a call of std that blocks may not be made in a
//! task.
ghost use Rattle.std.specs.Prelude.{◌≡◌, IfOk, IfErr, length, true};
ghost use Rattle.piper.specs.OfReader.{taken};
ghost use Rattle.piper.specs.OfWriter.{saw, sent};
ghost use Rattle.piper_protocol.specs.Reported.{HasFailed};
ghost use Rattle.piper_futures.specs.Threads.{FilledAndClosed, DrainedOrClosed, HadSeen, HasFailedWith, WaitHasFailed};

use crate::drain::drain_into;
use crate::failed::Failed;
use crate::fill::fill_from;
use futures::Future;
use futures::executor::block_on;
use piper::io::Copied;
use piper::{LastReadMark, PipeError, Reader, WriteMark, Writer};
use piper_protocol::reported::reported;
use std::alloc::AllocGlobal;
use std::io::{Read, Write};
use std::marker::{Send, Sync};
use std::random::RandomSource;
use std::snapshot::Snapshot;
use std::sync::Wait;
use std::thread::{Promise, PromisedHandle, Threads};
use std::{io, thread};

/// What a fill left whose thread dropped the writer.
#[derive(Drop)]
pub struct Filled<S> {
    /// The source, with what the fill left of it.
    pub source: S,
    /// All that was ever published, and that the pipe is closed.
    pub mark: WriteMark,
}

/// What a drain left that failed, and whose thread dropped the reader.
#[derive(Drop)]
pub struct Drained<D> {
    /// The writer of std.
    pub dest: D,
    /// How much was ever consumed, and that the pipe is closed.
    pub mark: LastReadMark,
}

/// What the thread of [`spawn_fill`] promises of its result.
#[derive(Drop)]
pub struct Fills<S> {
    writer: Snapshot<Writer>,
    source: Snapshot<S>,
}

impl<S: Read> Promise<Result<(Filled<S>, Copied), Failed<Option<Filled<S>>>>> for Fills<S> {
    ghost kept_by = { λ promise filled.
        FilledAndClosed S.remaining promise.writer.value promise.source.value filled };
}

/// What the thread of [`spawn_drain`] promises of its result.
#[derive(Drop)]
pub struct Drains<D> {
    reader: Snapshot<Reader>,
    dest: Snapshot<D>,
}

impl<D: Write> Promise<Result<(Reader, D), Failed<Option<Drained<D>>>>> for Drains<D> {
    ghost kept_by = { λ promise drained.
        DrainedOrClosed D.contents promise.reader.value promise.dest.value drained };
}

/// Starts a thread that moves all that `source` gives into the pipe, as `fill_from` does, and then
/// drops the writer, which closes the pipe.
///
/// The pipe also ends if the fill fails (not proved if the thread's own wait does): only `join` tells
/// whether all of the source was moved.
///
/// Returns: a handle whose `join` gives the source with the writer's last mark, and why it ended;
/// or the failure of `fill_from`; or, with `None` left, the error of the thread's own wait.
/// Errors: no thread can be made. The writer and `source` are dropped.
pub fn spawn_fill<H, S>(
    rt: &H,
    writer: Writer,
    source: S,
) -> io::Result<PromisedHandle<Result<(Filled<S>, Copied), Failed<Option<Filled<S>>>>, Fills<S>>>
where
    H: Threads + Wait + RandomSource + AllocGlobal + Clone + Drop + Send + Sync + 'static,
    S: Read + Drop + Send + 'static,
    ensures promised { IfOk result (λ handle. (handle.promise.writer.value ≡ writer)
        × (handle.promise.source.value ≡ source)) }
    ensures failed { IfErr result HasFailed }
{
    let theirs = reported(rt.clone().map_err(io::Error::from))?;
    let promise = Fills {
        writer: Snapshot::of(&writer),
        source: Snapshot::of(&source),
    };
    let spawned = thread::spawn_with(rt, promise, move || fill_and_close(&theirs, writer, source));
    reported(spawned.map_err(io::Error::from))
}

/// Starts a thread that moves all bytes of the pipe into `dest`, as `drain_into` does. If that
/// fails the thread drops the reader, which closes the pipe.
///
/// Returns: a handle whose `join` gives the reader and `dest`; or the failure of `drain_into`; or,
/// with `None` left, the error of the thread's own wait.
/// Errors: no thread can be made. The reader and `dest` are dropped.
pub fn spawn_drain<H, D>(
    rt: &H,
    reader: Reader,
    dest: D,
) -> io::Result<PromisedHandle<Result<(Reader, D), Failed<Option<Drained<D>>>>, Drains<D>>>
where
    H: Threads + Wait + RandomSource + AllocGlobal + Clone + Drop + Send + Sync + 'static,
    D: Write + Drop + Send + 'static,
    ensures promised { IfOk result (λ handle. (handle.promise.reader.value ≡ reader)
        × (handle.promise.dest.value ≡ dest)) }
    ensures failed { IfErr result HasFailed }
{
    let theirs = reported(rt.clone().map_err(io::Error::from))?;
    let promise = Drains {
        reader: Snapshot::of(&reader),
        dest: Snapshot::of(&dest),
    };
    let spawned = thread::spawn_with(rt, promise, move || drain_or_close(&theirs, reader, dest));
    reported(spawned.map_err(io::Error::from))
}

/// Polls the future on this thread, which sleeps until it is woken. Only what fails here is known
/// to be the thread's own wait, and only an error that comes out here to be the future's.
fn wait_for<H, F, T, L>(rt: &H, future: F) -> io::Result<Result<T, Failed<L>>>
where
    H: Wait + RandomSource + AllocGlobal,
    F: Future<Output = Result<T, Failed<L>>>,
    requires { F.can_poll future }
    ensures gives { IfOk result (F.gives future) }
    ensures error { IfOk result (λ r. IfErr r (λ failed. HasFailedWith future failed.error)) }
    ensures failed { IfErr result WaitHasFailed }
{
    block_on(rt, future)
}

/// Moves all that `source` gives into the pipe, and drops the writer.
fn fill_and_close<H, S>(
    rt: &H,
    writer: Writer,
    source: S,
) -> Result<(Filled<S>, Copied), Failed<Option<Filled<S>>>>
where
    H: Wait + RandomSource + AllocGlobal,
    S: Read + Drop,
    ensures { FilledAndClosed S.remaining writer source result }
{
    match wait_for(rt, fill_from(writer, source)) {
        Ok(Ok((writer, source, copied))) => Ok((closed_by_writer(writer, source), copied)),
        Ok(Err(failed)) => {
            let Failed { left, error } = failed;
            let (writer, source) = left;
            let left = Some(closed_by_writer(writer, source));
            Err(Failed { left, error })
        }
        Err(error) => Err(Failed {
            left: None,
            error: PipeError::Io(error),
        }),
    }
}

fn closed_by_writer<S>(writer: Writer, source: S) -> Filled<S>
    ensures source { result.source ≡ source }
    ensures bytes { result.mark.bytes ≡ sent writer }
    ensures shut { result.mark.shut ≡ true }
    ensures seen { HadSeen result.mark (saw writer) }
{
    let mark = writer.finish().mark;
    Filled { source, mark }
}

/// Moves all bytes of the pipe into `dest`, or drops the reader.
fn drain_or_close<H, D>(
    rt: &H,
    reader: Reader,
    dest: D,
) -> Result<(Reader, D), Failed<Option<Drained<D>>>>
where
    H: Wait + RandomSource + AllocGlobal,
    D: Write + Drop,
    ensures { DrainedOrClosed D.contents reader dest result }
{
    match wait_for(rt, drain_into(reader, dest)) {
        Ok(Ok(ends)) => Ok(ends),
        Ok(Err(failed)) => {
            let Failed { left, error } = failed;
            let (reader, dest) = left;
            let left = Some(closed_by_reader(reader, dest));
            Err(Failed { left, error })
        }
        Err(error) => Err(Failed {
            left: None,
            error: PipeError::Io(error),
        }),
    }
}

fn closed_by_reader<D>(reader: Reader, dest: D) -> Drained<D>
    ensures dest { result.dest ≡ dest }
    ensures count { result.mark.consumed.count ≡ length (taken reader) }
{
    let mark = reader.finish().mark;
    Drained { dest, mark }
}
