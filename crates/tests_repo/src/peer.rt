// A dial into the server of a repository at hand.
ghost use Rattle.std.specs.Prelude.{None};

use fsl_date::Moment;
use fsl_disk::MemoryDisk;
use fsl_login::Users;
use fsl_outside::{Dial, Failed, Link, MemoryLink, MemorySource, NoGate, SetClock, Source};
use fsl_repo::Repo;
use fsl_serve::session_alone;
use fsl_turn::{Solo, SoloPass};
use std::alloc::Global;
use std::mem;
use std::sync::Wait;

/// A dial whose connections the server of a repository answers, each at its first read. What comes and goes is untold. No call
/// of it fails: where memory lacks, a request is lost or a reply is empty, and the sync goes wrong. It is closed and never let
/// go, so that no part of a repository is let go here.
pub(crate) struct PeerDial<'a, R> {
    rt: &'a R,
    alloc: Global,
    turns: Solo<Repo<MemoryDisk>>,
    pass: SoloPass<Repo<MemoryDisk>>,
    /// So much of the request was written.
    request: Vec<u8>,
    /// The reply that is being read.
    reply: Option<MemorySource>,
}

impl<'a, R> PeerDial<'a, R> {
    /// A dial into this repository's server.
    pub(crate) fn new(rt: &'a R, alloc: Global, repo: Repo<MemoryDisk>) -> PeerDial<'a, R> {
        let (turns, pass) = Solo::make(repo);
        PeerDial {
            rt,
            alloc,
            turns,
            pass,
            request: Vec::new(alloc),
            reply: None,
        }
    }

    /// The repository.
    pub(crate) fn repo(&mut self) -> &mut Repo<MemoryDisk> {
        &mut self.pass.machine
    }

    /// Closes the repository.
    pub(crate) fn close(self) {
        let PeerDial {
            rt: _,
            alloc: _,
            turns: _,
            pass,
            request,
            reply,
        } = self;
        drop(request);
        drop(reply);
        let SoloPass { machine, told: _ } = pass;
        drop(machine.close());
    }
}

/// Lets a repository's server answer a request, for users of whom everybody may pull and push.
fn answer<R: Wait>(
    rt: &R,
    alloc: Global,
    turns: &Solo<Repo<MemoryDisk>>,
    pass: &mut SoloPass<Repo<MemoryDisk>>,
    link: &mut MemoryLink,
) {
    if let Ok(users) = Users::read(alloc, b"nobody oi -\n") {
        let project = pass.machine.config().project;
        session_alone(
            rt,
            alloc,
            turns,
            pass,
            &users,
            project,
            link,
            &mut NoGate,
            &mut SetClock::new(Moment::new(0).unwrap()),
            0,
        );
        drop(users);
    }
}

impl<'a, R: Wait> PeerDial<'a, R> {
    /// Lets the server answer the request that was written.
    fn hear(&mut self) {
        let request = mem::replace(&mut self.request, Vec::new(self.alloc));
        let mut link = MemoryLink::new(self.alloc, request, Vec::new(self.alloc));
        answer(self.rt, self.alloc, &self.turns, &mut self.pass, &mut link);
        if let Ok(bytes) = link.sent().to_vec(self.alloc) {
            self.reply = Some(MemorySource::new(bytes, Vec::new(self.alloc)));
        }
    }
}

impl<'a, R: Wait> Link for PeerDial<'a, R> {
    ghost state = { λ _. record { present = None; standing = record { earlier = None; accept_faults = 0; closings = 0 }; faults = 0 } };

    fn faults(&self) -> u64 {
        0
    }

    fn read(&mut self, into: &mut [u8]) -> Result<usize, Failed> {
        if self.reply.is_none() {
            self.hear();
        }
        match &mut self.reply {
            Some(reply) => Ok(reply.read(into).unwrap_or(0)),
            None => Ok(0),
        }
    }

    fn write(&mut self, piece: &[u8]) -> Result<usize, Failed> {
        if self.request.extend_from_slice(piece).is_err() {
            self.request.clear();
        }
        Ok(piece.len())
    }
}

impl<'a, R: Wait> Dial for PeerDial<'a, R> {
    fn connect(&mut self) -> Result<(), Failed> {
        self.request = Vec::new(self.alloc);
        self.reply = None;
        Ok(())
    }
}
