//! A session under way: its frames are read and served one after the other. What reads and serves is the same for each
//! word, and has no output: who answers does so outside of it.
ghost use Rattle.std.specs.Prelude.{◌≡◌, []};
ghost use Rattle.session_frames.specs.declared.frame.Frame.TheVariants.{Log};
ghost use Rattle.session_frames.specs.Faultless.{IsFaultlessLog};
ghost use Rattle.session_frames.specs.LogRooms.{frame_in};
ghost use Rattle.matcher_eval.specs.AtomTests.{matcher_holds};
ghost use Rattle.hub_core.specs.HubStands.{HubStandsFor, TakesInTime};
ghost use Rattle.hub_core.specs.HubSaving.{saved_of};
ghost use Rattle.statsd_cli.specs.Run.{ending_by};
ghost use Rattle.statsd_cli.specs.Serving.{step_ending, HasReadNothing, LogsOn, StepsOn};

use crate::Ending;
use condition_links::Steps;
use hub_core::Hub;
use matcher_eval::FieldJudge;
use sd_io::Source;
use session_frames::{FrameError, FrameReader, LogKind, LogRoom, Reply};
use std::alloc::{AllocError, Global};
use std::sync::ledger::Ledger;

/// A session under way: the reader of its frames, the room of those that are lent, and the hub that serves them.
#[derive(Drop)]
pub(crate) struct Serving {
    reader: FrameReader,
    room: LogRoom,
    hub: Hub<FieldJudge>,
}

/// What came of serving on.
#[derive(Drop)]
pub(crate) enum Step {
    /// One frame more was served, after those of the log that stood before it; this is its reply, if it has one.
    Served(Option<Reply>),
    /// No frame more was served: the session ends so.
    Ended(Ending),
}

impl Step {
    /// How the session ends, if it does. A reply is let go.
    pub(crate) fn ending(self) -> Option<Ending>
        ensures { result ≡ step_ending self }
    {
        match self {
            Step::Served(_) => None,
            Step::Ended(ending) => Some(ending),
        }
    }
}

impl Serving {
    /// A session of which nothing was read, with a hub that has seen no frame.
    pub(crate) fn new(alloc: Global) -> Serving
        ensures fresh { HasReadNothing result }
        ensures clock { result.reader.place.clock ≡ 0 }
        ensures stands { HubStandsFor matcher_holds result.hub [] }
    {
        Serving {
            reader: FrameReader::new(alloc),
            room: LogRoom::new(alloc),
            hub: Hub::new(alloc, FieldJudge::new()),
        }
    }

    /// A session of which nothing was read, that goes on from all that this hub has seen.
    pub(crate) fn resumed(alloc: Global, hub: Hub<FieldJudge>) -> Serving
        ensures fresh { HasReadNothing result }
        ensures clock { result.reader.place.clock ≡ (saved_of hub).time }
        ensures hub { result.hub ≡ hub }
    {
        Serving {
            reader: FrameReader::resumed(alloc, hub.clock()),
            room: LogRoom::new(alloc),
            hub,
        }
    }

    /// The hub of what was served.
    pub(crate) fn into_hub(self) -> Hub<FieldJudge>
        ensures { result ≡ self.hub }
    {
        self.hub
    }

    /// The frames of the log that stand whole in what the input holds are served where they stand, and then one frame
    /// more, whatever it is.
    pub(crate) fn step<S: Source, L: Ledger>(&mut self, asks: &mut Steps<L>, input: &mut S) -> Step
        ensures { StepsOn (S.state input.old) (S.state input.new) self.old self.new result }
    {
        match self.log_on(asks, input) {
            Ok(()) => self.serve_next(asks, input),
            Err(_) => Step::Ended(Ending::NoMemory),
        }
    }

    /// Frames of the log are lent to the hub where the last one stood, as long as they stand whole in what the input
    /// holds. They have no reply.
    #[inline(never)]
    fn log_on<S: Source, L: Ledger>(
        &mut self,
        asks: &mut Steps<L>,
        input: &mut S,
    ) -> Result<(), AllocError>
        ensures { LogsOn (S.state input.old) (S.state input.new) self.old self.new result }
    {
        'logs: loop {
            let Some(kind) = self.reader.take_log(input, &mut self.room) else {
                return Ok(());
            };
            log(&mut self.hub, &mut self.room, kind, asks)?;
        }
    }

    /// One frame more, whatever it is.
    fn serve_next<S: Source, L: Ledger>(&mut self, asks: &mut Steps<L>, input: &mut S) -> Step
        ensures { StepsOn (S.state input.old) (S.state input.new) self.old self.new result }
    {
        let read = match self.reader.read(input) {
            Ok(read) => read,
            Err(e) => return Step::Ended(ending_without(e)),
        };
        let Some(frame) = read else {
            return Step::Ended(Ending::Done);
        };
        match self.hub.serve(frame, asks) {
            Ok(reply) => Step::Served(reply),
            Err(_) => Step::Ended(Ending::NoMemory),
        }
    }
}

/// The hub takes in the frame of this kind.
#[inline(always)]
fn log<L: Ledger>(
    hub: &mut Hub<FieldJudge>,
    room: &mut LogRoom,
    kind: LogKind,
    asks: &mut Steps<L>,
) -> Result<(), AllocError>
    requires faultless { IsFaultlessLog (frame_in kind room.old) }
    ensures stands { TakesInTime matcher_holds hub.old
        (Log (frame_in kind room.old)) hub.new result }
{
    match kind {
        LogKind::Tick => hub.log(&mut room.tick, asks),
        LogKind::Atom => hub.log(&mut room.atom, asks),
    }
}

/// Why a session ends where the reader gave no frame.
fn ending_without(e: FrameError) -> Ending
    ensures { result ≡ ending_by e }
{
    match e {
        FrameError::Session { at, fault } => Ending::BadSession { at, fault },
        FrameError::Read => Ending::ReadFault,
        FrameError::Memory => Ending::NoMemory,
    }
}
