//! A server of HTTP over a duplex stream in place of a socket, so that a service is tried with no
//! network. What a client sends is written out: one of `hyper` would take the prover twice as long as
//! the server, and makes the same calls of its end.

use crate::compare::begins_and_ends;
use bytes::{Bytes, BytesMut};
use futures::executor::block_on;
use futures::future;
use futures::future::Ready;
use http_body_util::Full;
use hyper::body::Incoming;
use hyper::server::conn::http1::Builder;
use hyper::service::Service;
use hyper::{Request, Response, StatusCode};
use piper_duplex::duplex;
use piper_tokio::CompatEnd;
use std::alloc::{AllocGlobal, Global};
use std::convert::Infallible;
use std::hash::RandomState;
use std::marker::{Send, Sync};
use std::process::Abort;
use std::random::RandomSource;
use std::sync::Wait;
use std::thread::Threads;
use std::{io, thread};
use tokio::io::{AsyncRead, AsyncWrite, read_to_end, write_all};

/// The service that is tried: two pages, and 404 for all other paths.
///
/// It knows nothing of the stream that its requests come by.
#[derive(Clone, Copy)]
struct Pages(Global);

impl<I: Drop> Service<Request<Incoming<I>>> for Pages {
    type Response = Response<Full<Bytes>>;

    type Error = Infallible;

    type Future = Ready<Result<Response<Full<Bytes>>, Infallible>>;

    fn call(&self, request: Request<Incoming<I>>) -> Self::Future {
        let (status, page) = match request.uri().path() {
            "/" => (StatusCode::OK, b"the first page".as_slice()),
            "/next" => (StatusCode::OK, b"the next page".as_slice()),
            _ => (StatusCode::NOT_FOUND, b"no such page".as_slice()),
        };
        let mut response = Response::new(self.0, Full::new(Bytes::from_static(page)));
        *response.status_mut() = status;
        future::ok(response)
    }
}

/// Serves until the client is done.
///
/// It takes any reader and writer of `tokio`, so the same function serves a socket.
fn serve<R, I>(rt: &R, io: I) -> io::Result<()>
where
    R: Wait + RandomSource + AllocGlobal,
    I: AsyncRead + AsyncWrite,
{
    let http = Builder::new(rt.alloc(), RandomState::new(rt)?);
    let served = block_on(rt, http.serve_connection(io, Pages(rt.alloc())))?;
    served.map_err(|_| io::Error::other("the server failed"))
}

/// Sends a request, and returns all that comes back.
fn ask<R, I>(rt: &R, io: I, request: &'static [u8]) -> io::Result<BytesMut>
where
    R: Wait + RandomSource + AllocGlobal,
    I: AsyncRead + AsyncWrite,
{
    let (io, _sent) = block_on(rt, write_all(io, request))??;
    let (_io, answer) = block_on(rt, read_to_end(io, BytesMut::new(rt.alloc())))??;
    Ok(answer)
}

/// The service answers the request by what begins and ends so.
fn answers<R>(rt: &R, request: &'static [u8], status: &[u8], page: &[u8])
where
    R: Abort + Wait + Threads + RandomSource + AllocGlobal + Clone + Drop + Send + Sync + 'static,
{
    // Each request has a stream of its own, as it would have a connection of its own to a server.
    let (near, far) = duplex(rt.alloc(), 64, 64).expect(rt, "memory");
    let (near, far) = (CompatEnd::new(near), CompatEnd::new(far));
    let theirs = rt.clone().expect(rt, "memory");
    // The service owns its end: where it returns, the end is dropped, which closes both pipes and
    // wakes a client that waits.
    let child = thread::spawn(rt, move || serve(&theirs, far)).expect(rt, "a thread");
    let answer = ask(rt, near, request).expect(rt, "an answer");
    begins_and_ends(rt, answer.as_slice(), status, page);
    child.join(rt).expect(rt, "serves");
}

#[test]
fn a_service_answers_each_path(rt: HostRuntime) {
    let answered = [
        (
            b"GET / HTTP/1.1\r\nhost: pages\r\nconnection: close\r\n\r\n".as_slice(),
            b"HTTP/1.1 200 OK\r\n".as_slice(),
            b"\r\n\r\nthe first page".as_slice(),
        ),
        (
            b"GET /next HTTP/1.1\r\nhost: pages\r\nconnection: close\r\n\r\n",
            b"HTTP/1.1 200 OK\r\n",
            b"\r\n\r\nthe next page",
        ),
        (
            b"GET /lost HTTP/1.1\r\nhost: pages\r\nconnection: close\r\n\r\n",
            b"HTTP/1.1 404 Not Found\r\n",
            b"\r\n\r\nno such page",
        ),
    ];
    for (request, status, page) in answered {
        answers(&rt, request, status, page);
    }
}
