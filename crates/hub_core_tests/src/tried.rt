//! A hub that is tried, and what it has answered.
ghost use Rattle.std.specs.Prelude.{◌≡◌, ◌<◌};
ghost use Rattle.session_frames.specs.Frames.{IsFaultless};

use super::judges::Counting;
use condition_links::Steps;
use flat_form::Items;
use hub_core::Hub;
use matcher_eval::Judge;
use sd_io::{MemSink, MemSource};
use session_frames::{Frame, FrameError, FrameReader, Reply, write_reply};
use std::alloc::{AllocError, Global};
use std::marker::Brand;
use std::sync::ledger::{Blank, Ledger};

/// More bytes than a row has, and than the replies that it compares at once.
const AMPLE: usize = 65536;

/// A hub, and its replies. After want of memory it is of no use.
#[derive(Drop)]
pub struct Tried<J: Judge> {
    hub: Hub<J>,
    replies: MemSink,
    /// How many bytes of the replies were compared.
    compared: usize,
    /// How often the judges of the hubs before this one were asked.
    asked_before: u64,
}

impl<J: Judge> Tried<J> {
    /// A hub under a judge.
    pub fn new(alloc: Global, judge: J) -> Result<Tried<J>, AllocError> {
        Ok(Tried {
            replies: MemSink::new(alloc, AMPLE, Vec::new(alloc))?,
            hub: Hub::new(alloc, judge),
            compared: 0,
            asked_before: 0,
        })
    }

    /// Gives the hub the frames of a session. Answers whether it was read to its end.
    pub fn take(&mut self, alloc: Global, bytes: Vec<u8>) -> Result<bool, AllocError> {
        let most = bytes.len();
        let mut source = MemSource::new(bytes, AMPLE, Vec::new(alloc));
        let mut reader = FrameReader::new(alloc);
        self.take_all(&mut source, &mut reader, most)
    }

    /// Gives the hub the frames of a source, one more than so many at most.
    fn take_all(
        &mut self,
        source: &mut MemSource,
        reader: &mut FrameReader,
        most: usize,
    ) -> Result<bool, AllocError> {
        for _ in 0..=most {
            match reader.read(source) {
                Ok(Some(frame)) => self.give::<Brand>(Blank::new(1), frame)?,
                Ok(None) => return Ok(true),
                Err(FrameError::Memory) => return Err(AllocError),
                Err(_) => return Ok(false),
            }
        }
        Ok(false)
    }

    /// Gives the hub a frame, whose questions are on a counter of their own.
    fn give<L: Ledger>(&mut self, blank: Blank, frame: Frame) -> Result<(), AllocError>
        requires name { blank.name ≡ L.name }
        requires parts { blank.parts ≡ L.parts }
        requires some { 0 < blank.parts }
        requires faultless { IsFaultless frame }
    {
        let mut asks: Steps<L> = Steps::new(blank);
        let reply = self.hub.serve(frame, &mut asks)?;
        self.note(reply);
        Ok(())
    }

    /// Keeps a reply, if there is one.
    fn note(&mut self, reply: Option<Reply>) {
        if let Some(reply) = reply {
            let _ = write_reply(&reply, &mut self.replies);
        }
    }

    /// Gives the hub the frames of a session, with room for the replies to them alone.
    pub fn take_anew(&mut self, alloc: Global, bytes: &Vec<u8>) -> Result<(), AllocError> {
        self.forget(alloc)?;
        let _ = self.take(alloc, bytes.clone()?)?;
        Ok(())
    }

    /// Forgets the replies so far, so that there is room for more.
    fn forget(&mut self, alloc: Global) -> Result<(), AllocError> {
        self.replies = MemSink::new(alloc, AMPLE, Vec::new(alloc))?;
        self.compared = 0;
        Ok(())
    }

    /// The replies since they were asked for last.
    pub fn new_replies(&mut self) -> &[u8] {
        let from = self.compared;
        let all = self.replies.bytes();
        self.compared = all.len();
        all.get(from..).unwrap_or(&[])
    }
}

impl<J: Counting> Tried<J> {
    /// How often the judge was asked, with those of the hubs before this one.
    pub fn asked(&self) -> u64 {
        self.asked_before.saturating_add(self.hub.judge().asked())
    }

    /// The items of the hub.
    pub fn items(&self, alloc: Global) -> Result<Items, AllocError> {
        self.hub.flatten(alloc)
    }

    /// Catches the hub up by the last frame.
    pub fn settle(&mut self) -> Result<(), AllocError> {
        self.hub.settle()
    }

    /// Puts another hub in the place of this one.
    pub fn put(&mut self, hub: Hub<J>) {
        self.asked_before = self.asked();
        self.hub = hub;
    }
}
