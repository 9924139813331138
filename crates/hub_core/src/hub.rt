//! The hub of all clients, one frame at a time.
ghost use Rattle.std.specs.Prelude.{◌≡◌, ℤ, List, [], IfOk, OnOk};
ghost use Rattle.session_frames.specs.declared.frame.Frame.TheVariants.{Log, Install, Remove, Report};
ghost use Rattle.session_frames.specs.Faultless.{IsFaultlessLog};
ghost use Rattle.session_frames.specs.declared.frame.Frame.{Frame};
ghost use Rattle.session_frames.specs.Frames.{IsFaultless};
ghost use Rattle.hub_meaning.specs.SessionLog.{own};
ghost use Rattle.hub_meaning.specs.ClientIsolation.{EqualOwnFramesEqualReplies};

mod saved;

use crate::books::{Books, note_failed};
use crate::configs::{Offer, read_config};
use crate::lives::Lives;
use crate::log_clock::LogClock;
use crate::logging::{Coming, Rooms};
use crate::places::Places;
use atom_record::{Bytes, LogFrame};
use client_engine::{LiveId, ReportRequest};
use condition_links::Steps;
use matcher_eval::Judge;
use session_frames::{Frame, Reply, ReplyBody};
use std::alloc::{AllocError, Global};
use std::mem;
use std::sync::ledger::Ledger;

/// All clients with their live configurations, the clock, the books of the log, and the judge. It keeps no frame.
#[derive(Drop)]
pub struct Hub<J: Judge> {
    alloc: Global,
    judge: J,
    clock: LogClock,
    books: Books,
    lives: Lives,
    rooms: Rooms,
    /// The last pull, as one that failed.
    failed: LogFrame,
}

impl<J: Judge> Hub<J> {
    ghost use Rattle.hub_core.specs.HubStands.{judge_of, AsksJudge, HubStandsFor, InTime, TakesInTime, IsAnswered, ServesCommand, UnheardStay};
    ghost use Rattle.hub_core.specs.Alone.{RunsAsAlone};
    ghost use Rattle.hub_core.specs.BookStands.{frame_left};
    ghost use Rattle.hub_core.specs.LiveQuestions.{AsksInTime};

    /// A hub that has seen no frame. It takes no memory yet.
    pub fn new(alloc: Global, judge: J) -> Hub<J>
        ensures stands { HubStandsFor J.says result [] }
        ensures judge { judge_of result ≡ judge }
    {
        Hub {
            alloc,
            judge,
            clock: LogClock {
                time: 0,
                is_pull: false,
            },
            books: Books::new(alloc),
            lives: Lives::new(alloc),
            rooms: Rooms {
                truths: Vec::new(alloc),
                places: Places::new(alloc),
            },
            failed: LogFrame::Tick { at: 0 },
        }
    }

    /// The judge that it asks.
    pub fn judge(&self) -> &J
        ensures { result.now ≡ judge_of self.now }
    {
        &self.judge
    }

    /// Takes in a frame; a command is answered. After want of memory the hub is gone.
    #[tactic(auto, using(hub_meaning::proofs::ClientIsolationLemmas::equal_own_frames))]
    pub fn step<L: Ledger>(
        mut self,
        frame: Frame,
        asks: &mut Steps<L>,
    ) -> Result<(Hub<J>, Option<Reply>), AllocError>
        requires faultless { IsFaultless frame }

        // The answer is what the frames so far mean, whatever they are, and the hub stands for them with this one.
        ensures serves { InTime J.says self frame (λ frames.
            IfOk result (λ r. IsAnswered J.says r.0 frames frame r.1)) }

        // The judge is asked at atoms alone, once for each different simple matcher of the atom's id in all live ones.
        ensures asked { IfOk result (λ r. AsksJudge J.ticks frame self r.0) }

        // Conditions are asked at atoms alone, and only what the atom touches is asked again: once for each metric of
        // all live ones that it touches, and of a duration at most twice and once for each inner key that was there
        // before.
        ensures questions { AsksInTime J.says self frame asks.old asks.new }

        // A configuration that doesn't hear a frame of the log is left as it was.
        ensures asleep { IfOk result (λ r. UnheardStay frame self r.0) }

        // What other clients do is no matter: equal own frames of a client have equal replies.
        ensures isolated { EqualOwnFramesEqualReplies J.says }
    {
        let reply = self.serve(frame, asks)?;
        Ok((self, reply))
    }

    /// The law between this hub and a client's private run, which is a hub of the log and that client's commands alone:
    /// what the client has in both is the same, up to a renaming of slots. It does nothing when it runs.
    pub fn runs_as_alone(&self, alone: &Hub<J>)
        ensures { (client : ℤ) (frames : List Frame) → HubStandsFor J.says self.now frames
            → HubStandsFor J.says alone.now (own client frames) → RunsAsAlone client self.now alone.now }
    {}

    /// Takes in a frame of the log: the book of states takes it, then it comes to each configuration that hears it,
    /// as it is shown, and what it pulled is recorded last. The frame is lent: an atom and a tick stay as they are,
    /// and a pull's atoms are taken out, so that it is left as one that failed. After want of memory the hub is of no
    /// use.
    pub fn log<L: Ledger>(
        &mut self,
        frame: &mut LogFrame,
        asks: &mut Steps<L>,
    ) -> Result<(), AllocError>
        requires faultless { IsFaultlessLog frame.old }
        ensures stands { TakesInTime J.says self.old (Log frame.old) self.new result }
        ensures asked { OnOk result (AsksJudge J.ticks (Log frame.old) self.old self.new) }
        ensures questions { AsksInTime J.says self.old (Log frame.old) asks.old asks.new }
        ensures asleep { OnOk result (UnheardStay (Log frame.old) self.old self.new) }
        ensures lent { OnOk result (frame.new ≡ frame_left frame.old) }
    {
        let before = self.clock;
        self.clock = before.after(frame);
        note_failed(&mut self.failed, frame);
        self.books.tell(frame)?;
        let coming = Coming {
            frame: self.books.shown(frame, &self.failed),
            states: &self.books.states,
            before,
        };
        self.lives
            .log(&mut self.judge, &coming, &mut self.rooms, asks)?;
        self.books.record(frame)
    }

    /// The same as a step, where the hub stands: nothing of it is moved. After want of memory it is of no use.
    #[tactic(auto, using(matcher_table::proofs::EvaluationLaws::rises_by_none))]
    pub fn serve<L: Ledger>(
        &mut self,
        frame: Frame,
        asks: &mut Steps<L>,
    ) -> Result<Option<Reply>, AllocError>
        requires faultless { IsFaultless frame }
        ensures serves { InTime J.says self.old frame (λ frames.
            IfOk result (IsAnswered J.says self.new frames frame)) }
        ensures asked { OnOk result (AsksJudge J.ticks frame self.old self.new) }
        ensures questions { AsksInTime J.says self.old frame asks.old asks.new }

        // A configuration that doesn't hear a frame is left as it was.
        ensures asleep { OnOk result (UnheardStay frame self.old self.new) }
    {
        match frame {
            Frame::Log(mut frame) => {
                self.log(&mut frame, asks)?;
                Ok(None)
            }
            Frame::Install { uid, id, config } => {
                let body = self.install(LiveId { uid, id }, config)?;
                Ok(Some(Reply { uid, id, body }))
            }
            Frame::Remove { uid, id } => {
                let body = self.remove(LiveId { uid, id })?;
                Ok(Some(Reply { uid, id, body }))
            }
            Frame::Report {
                uid,
                id,
                include_current,
            } => {
                let body = self.report(LiveId { uid, id }, include_current)?;
                Ok(Some(Reply { uid, id, body }))
            }
        }
    }

    // Installs what the bytes of a configuration say. The bytes stay with what is live.
    fn install(&mut self, name: LiveId, config: Bytes) -> Result<ReplyBody, AllocError>
        ensures serves { ServesCommand J.says self.old name (Install name.uid name.id config)
            self.new result }
        ensures judge { OnOk result (judge_of self.new ≡ judge_of self.old) }
    {
        let read = read_config(self.alloc, config.as_slice())?;
        let offer = Offer { name, config, read };
        let now = self.clock;
        let lives = mem::replace(&mut self.lives, Lives::new(self.alloc));
        let (lives, body) = lives.install(self.alloc, now, &self.books, offer)?;
        self.lives = lives;
        Ok(body)
    }

    // Removes a configuration.
    fn remove(&mut self, name: LiveId) -> Result<ReplyBody, AllocError>
        ensures serves { ServesCommand J.says self.old name (Remove name.uid name.id)
            self.new result }
        ensures judge { OnOk result (judge_of self.new ≡ judge_of self.old) }
    {
        let now = self.clock;
        let lives = mem::replace(&mut self.lives, Lives::new(self.alloc));
        let (lives, body) = lives.remove(self.alloc, now, &self.books.states, name)?;
        self.lives = lives;
        Ok(body)
    }

    // Reports a configuration.
    fn report(&mut self, name: LiveId, include_current: bool) -> Result<ReplyBody, AllocError>
        ensures serves { ServesCommand J.says self.old name
            (Report name.uid name.id include_current) self.new result }
        ensures judge { OnOk result (judge_of self.new ≡ judge_of self.old) }
    {
        let request = ReportRequest {
            name,
            include_current,
            at: self.clock.time,
        };
        let now = self.clock;
        let lives = mem::replace(&mut self.lives, Lives::new(self.alloc));
        let (lives, body) = lives.report(self.alloc, request, now, &self.books.states)?;
        self.lives = lives;
        Ok(body)
    }
}
