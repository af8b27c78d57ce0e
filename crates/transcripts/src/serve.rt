//! Steps that serve a repository.
ghost use Rattle.std.specs.Prelude.{◌≡◌, IfOk, map, string_bytes, vec_len};
ghost use Rattle.fossil.specs.Served.{AreStaffed};

use crate::compare::{compare, compare_status};
use crate::faults::{Device, Faults};
use crate::files::{Files, copies};
use crate::line::Part;
use crate::staffing::is_for_one;
use crate::stop::Trouble;
use crate::takings::Takings;
use fossil::{Served, serve};
use fsl_date::Moment;
use fsl_outside::{MemoryDoor, MemorySink, MemorySource, NoGate, SetClock};
use fsl_serve::Crew;
use fsl_text::Text;
use std::alloc::{AllocError, Global};
use std::sync::Wait;
use std::thread::Threads;

/// A server with one worker: what its connections bring, which calls fail, and what has to come.
#[derive(Drop)]
pub struct Serve {
    alloc: Global,
    words: Vec<String>,
    moment: Moment,
    connections: Vec<Text>,
    answers: Takings,
    printed: Text,
    faults: Faults,
    part: Part,
}

impl Serve {
    /// A server at a moment, without connection, that has to print nothing.
    pub fn new(alloc: Global, words: Vec<String>, moment: Moment) -> Serve {
        Serve {
            alloc,
            words,
            moment,
            connections: Vec::new(alloc),
            answers: Takings::new(alloc),
            printed: Text::empty(alloc),
            faults: Faults::none(alloc),
            part: Part::Printed,
        }
    }

    /// Begins a part, to which the next data belong.
    pub fn begin(&mut self, part: Part) -> Result<(), Trouble> {
        match part {
            Part::Connection => self.connections.push(Text::empty(self.alloc))?,
            Part::Answer => self.answers.begin(false)?,
            Part::Front => self.answers.begin(true)?,
            Part::Printed => {}
            Part::Reply | Part::Request => return Err(Trouble::Unknown),
        }
        self.part = part;
        Ok(())
    }

    /// Lets the call of this number fail.
    pub fn fail(&mut self, device: Device, call: u64) -> Result<(), Trouble> {
        match device {
            Device::Input | Device::Peer => Err(Trouble::Unknown),
            device => Ok(self.faults.add(device, call)?),
        }
    }

    /// Adds to what the last connection brings.
    pub fn give(&mut self, bytes: &[u8]) -> Result<(), Trouble> {
        match (self.part, self.connections.last_mut()) {
            (Part::Connection, Some(connection)) => Ok(connection.append(bytes)?),
            _ => Err(Trouble::Unknown),
        }
    }

    /// Adds to what has to come.
    pub fn want(&mut self, bytes: &[u8]) -> Result<(), Trouble> {
        match self.part {
            Part::Printed => Ok(self.printed.append(bytes)?),
            Part::Answer | Part::Front => self.answers.want(bytes),
            Part::Connection | Part::Reply | Part::Request => Err(Trouble::Unknown),
        }
    }

    /// Serves over the files, and compares what the connections took, what was printed, and the status.
    pub fn end<R: Threads + Wait + Sync>(
        self,
        rt: &R,
        files: &mut Files,
        wanted: u64,
    ) -> Result<(), Trouble> {
        let ended = self.end_printing(rt, files, wanted);
        drop(self);
        ended
    }

    /// The same, with an output of its own, which is let go at the one end.
    fn end_printing<R: Threads + Wait + Sync>(
        &self,
        rt: &R,
        files: &mut Files,
        wanted: u64,
    ) -> Result<(), Trouble> {
        let fails = self.faults.output.to_vec(self.alloc)?;
        let mut out = MemorySink::new(self.alloc, fails);
        let ended = self.end_into(rt, files, &mut out, wanted);
        drop(out);
        ended
    }

    /// The same, with this output.
    fn end_into<R: Threads + Wait + Sync>(
        &self,
        rt: &R,
        files: &mut Files,
        out: &mut MemorySink,
        wanted: u64,
    ) -> Result<(), Trouble> {
        let status = self.start(rt, files, out)?;
        compare(self.alloc, self.printed.bytes(), out.taken())?;
        compare_status(self.alloc, wanted, status)
    }

    /// Serves over the file that the first word names, to the users of the one that the fourth names, compares what the connections took,
    /// and gives the status.
    fn start<R: Threads + Wait + Sync>(
        &self,
        rt: &R,
        files: &mut Files,
        out: &mut MemorySink,
    ) -> Result<u8, Trouble> {
        if !is_for_one(self.alloc, self.words.as_slice())? {
            return Err(Trouble::Unknown);
        }
        let mut users = self.users(files)?;
        let status = self.start_for(rt, files, &mut users, out);
        drop(users);
        status
    }

    /// The same, to these users, where the words ask for one worker at most. What the serve gives back is put away before the one end.
    fn start_for<R: Threads + Wait + Sync>(
        &self,
        rt: &R,
        files: &mut Files,
        users: &mut MemorySource,
        out: &mut MemorySink,
    ) -> Result<u8, Trouble>
        requires { AreStaffed (map string_bytes self.now.words.items) 1 }
    {
        let crews = self.crews()?;
        let words = self.words.as_slice();
        let (disk, is_there) = files.open(self.file(), false, self.faults.disk);
        let Served {
            status,
            state,
            crews,
        } = serve(rt, self.alloc, words, users, disk, crews, out);
        let kept = files.put_back(self.file(), state.into_disk(), is_there);
        let compared = self.compare_answers(&crews);
        drop(crews);
        compared?;
        kept?;
        Ok(status)
    }

    /// The name of the repository's file, which is the first word.
    fn file(&self) -> &str {
        match self.words.first() {
            Some(name) => name.as_str(),
            None => "",
        }
    }

    /// Compares what the connections took.
    fn compare_answers(&self, crews: &[Crew<MemoryDoor, NoGate, SetClock>]) -> Result<(), Trouble> {
        match crews.first() {
            Some(crew) => self.answers.compare(&crew.door),
            None => Ok(()),
        }
    }

    /// The users file. The first read fails of one that isn't there.
    fn users(&self, files: &Files) -> Result<MemorySource, AllocError> {
        let name = match self.words.get(3) {
            Some(name) => name.as_str(),
            None => "",
        };
        match files.bytes(name) {
            Some(bytes) => self.users_of(bytes),
            None => self.no_users(),
        }
    }

    /// A users file of these bytes.
    fn users_of(&self, bytes: &[u8]) -> Result<MemorySource, AllocError> {
        let bytes = bytes.to_vec(self.alloc)?;
        let fails = self.faults.users.to_vec(self.alloc)?;
        Ok(MemorySource::new(bytes, fails))
    }

    /// A users file that isn't there.
    fn no_users(&self) -> Result<MemorySource, AllocError> {
        let fails = vec![in self.alloc; 1u64]?;
        Ok(MemorySource::new(Vec::new(self.alloc), fails))
    }

    /// One crew, whose door has the connections, and whose clock stands at the moment.
    fn crews(&self) -> Result<Vec<Crew<MemoryDoor, NoGate, SetClock>>, AllocError>
        ensures { IfOk result (λ crews. vec_len crews ≡ 1) }
    {
        let door = self.door()?;
        let mut crews = Vec::new(self.alloc);
        let clock = SetClock::new(self.moment);
        crews.push(Crew {
            door,
            gate: NoGate,
            clock,
        })?;
        Ok(crews)
    }

    /// The door.
    fn door(&self) -> Result<MemoryDoor, AllocError> {
        let link = self.faults.link.to_vec(self.alloc)?;
        let accept = self.faults.accept.to_vec(self.alloc)?;
        let connections = copies(self.alloc, &self.connections)?;
        Ok(MemoryDoor::new(self.alloc, connections, link, accept))
    }
}
