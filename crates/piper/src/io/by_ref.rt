//! A `&mut` to a reader or a writer is one itself, so that what takes one can be lent it.
use super::{AsyncBufRead, AsyncRead, AsyncWrite};
use crate::error::PipeResult;
use futures::task::{Context, Poll};

impl<R: AsyncRead> AsyncRead for &mut R {
    ghost taken = { λ r. R.taken r.now };

    ghost saw = { λ r. R.saw r.now };

    ghost knows_end = { λ r. R.knows_end r.now };

    ghost ended = { λ r. R.ended r.now };

    ghost needs = { λ r. R.needs r.now };

    ghost waits = { λ r. R.waits r.now };

    ghost fails = { λ r. R.fails r.now };

    ghost woken = { λ r. R.woken r.now };

    ghost says = { λ old new. R.says old.now new.now };

    fn poll_read(&mut self, cx: &mut Context<'_>, dest: &mut [u8]) -> Poll<PipeResult<usize>> {
        (**self).poll_read(cx, dest)
    }
}

impl<R: AsyncBufRead> AsyncBufRead for &mut R {
    ghost known = { λ r. R.known r.now };

    ghost piece = { λ r. R.piece r.now };

    ghost taken = { λ r. R.taken r.now };

    ghost saw = { λ r. R.saw r.now };

    ghost knows_end = { λ r. R.knows_end r.now };

    ghost ended = { λ r. R.ended r.now };

    ghost needs = { λ r. R.needs r.now };

    ghost waits = { λ r. R.waits r.now };

    ghost fails = { λ r. R.fails r.now };

    ghost woken = { λ r. R.woken r.now };

    ghost lends = { λ old new. R.lends old.now new.now };

    ghost consumes = { λ old new. R.consumes old.now new.now };

    fn poll_fill_buf(&mut self, cx: &mut Context<'_>) -> Poll<PipeResult<&[u8]>> {
        (**self).poll_fill_buf(cx)
    }

    fn consume(&mut self, amt: usize) {
        (**self).consume(amt);
    }
}

impl<W: AsyncWrite> AsyncWrite for &mut W {
    ghost sent = { λ w. W.sent w.now };

    ghost saw = { λ w. W.saw w.now };

    ghost needs = { λ w. W.needs w.now };

    ghost waits = { λ w. W.waits w.now };

    ghost fails = { λ w. W.fails w.now };

    ghost woken = { λ w. W.woken w.now };

    ghost flushed = { λ w. W.flushed w.now };

    ghost says = { λ old new. W.says old.now new.now };

    ghost flushes = { λ old new. W.flushes old.now new.now };

    ghost closes = { λ old new. W.closes old.now new.now };

    fn poll_write(&mut self, cx: &mut Context<'_>, source: &[u8]) -> Poll<PipeResult<usize>> {
        (**self).poll_write(cx, source)
    }

    fn poll_flush(&mut self, cx: &mut Context<'_>) -> Poll<PipeResult<()>> {
        (**self).poll_flush(cx)
    }

    fn poll_close(&mut self, cx: &mut Context<'_>) -> Poll<PipeResult<()>> {
        (**self).poll_close(cx)
    }
}
