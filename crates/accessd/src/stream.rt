//! Standard output or standard error, of which the system is asked whether it takes a line at once.
use mio::unix::SourceFd;
use mio::{Events, Interest, Poll, Token};
use std::alloc::{AllocError, Global};
use std::os::fd::RawFd;
use std::time::Duration;

/// A standard stream. A reader that does not read fills it; then a write waits for as long as that lasts.
#[derive(Drop)]
pub struct Stream {
    descriptor: RawFd,
    /// What tells whether it takes more; none for a file, which always does.
    poll: Option<Poll>,
    events: Events<Global>,
}

/// What watches a descriptor, if the system watches such a one.
fn watching(rt: &HostRuntime, descriptor: RawFd) -> Option<Poll> {
    let poll = Poll::new(rt).ok()?;
    let mut source = SourceFd(&descriptor);
    match poll
        .registry()
        .register(&mut source, Token(0), Interest::WRITABLE)
    {
        Ok(()) => Some(poll),
        Err(_) => None,
    }
}

impl Stream {
    /// The stream with this descriptor. All its memory is taken here.
    pub fn new(rt: &HostRuntime, descriptor: RawFd) -> Result<Stream, AllocError> {
        Ok(Stream {
            descriptor,
            poll: watching(rt, descriptor),
            events: Events::with_capacity(rt.alloc(), 1)?,
        })
    }

    /// Whether the system takes a line now. A pipe or a socket that takes any takes some thousand bytes.
    pub fn takes_a_line(&mut self) -> bool {
        let Some(poll) = &mut self.poll else {
            return true;
        };
        let mut source = SourceFd(&self.descriptor);
        // once more, so that the system tells again what it has told before
        let asked = poll
            .registry()
            .reregister(&mut source, Token(0), Interest::WRITABLE);
        if asked.is_err() {
            return true;
        }
        match poll.poll(&mut self.events, Some(Duration::ZERO)) {
            Ok(()) => !self.events.is_empty(),
            Err(_) => false,
        }
    }
}
