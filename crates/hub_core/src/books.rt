//! The two books of the log: the states that it gave, and what pulls gave.
ghost use Rattle.std.specs.Prelude.{◌≡◌, [], List, OnOk};
ghost use Rattle.atom_record.specs.declared.log.LogFrame.{LogFrame};
ghost use Rattle.session_frames.specs.Faultless.{IsFaultlessLog};
ghost use Rattle.state_slicer.specs.StateBooks.{StateBookStandsFor};
ghost use Rattle.pull_book.specs.PullBooks.{PullBookStandsFor};
ghost use Rattle.metric_meaning.specs.ShownFrames.{shown_as};
ghost use Rattle.hub_core.specs.BookStands.{GrowsBy, IsAsFailed, frame_left};

use atom_record::{LogFrame, PullOutcome};
use pull_book::PullBook;
use state_slicer::StateBook;
use std::alloc::{AllocError, Global};
use std::mem;

/// The two books of the log.
#[derive(Drop)]
pub struct Books {
    pub states: StateBook,
    pub pulls: PullBook,
}

impl Books {
    ghost use Rattle.client_engine.specs.declared.live_id.LiveId.{LiveId};
    ghost use Rattle.hub_core.specs.declared.live_instance.LiveInstance.{LiveInstance};
    ghost use Rattle.hub_core.specs.BookStands.{BooksStandFor};
    ghost use Rattle.hub_core.specs.Sleeping.{heard_id_of};
    ghost use Rattle.hub_core.specs.SlotLogs.{asked_by_all};

    /// Books of no frame. They take no memory yet.
    pub fn new(alloc: Global) -> Books
        ensures { BooksStandFor result [] }
    {
        Books {
            states: StateBook::new(alloc),
            pulls: PullBook::new(alloc),
        }
    }

    /// The frame as it is shown: a pull that isn't kept is shown as the one that failed.
    pub fn shown<'a>(&self, frame: &'a LogFrame, failed: &'a LogFrame) -> &'a LogFrame
        requires faultless { IsFaultlessLog frame.now }
        requires failed { IsAsFailed frame.now failed.now }
        ensures shown { (log : List LogFrame) → PullBookStandsFor self.now.pulls log
            → result.now ≡ shown_as log frame.now }
        ensures faultless { IsFaultlessLog result.now }
        ensures asked { (rows : List (LiveId × LiveInstance))
            → asked_by_all result.now rows ≡ asked_by_all frame.now rows }
        ensures heard { heard_id_of result.now ≡ heard_id_of frame.now }
    {
        match frame {
            LogFrame::Tick { .. } => frame,
            LogFrame::AtomAt { .. } => frame,
            LogFrame::Pull { id, .. } => { if self.pulls.keeps(*id) { frame } else { failed } }
        }
    }

    /// Takes the state that a frame tells, if it tells one.
    pub fn tell(&mut self, frame: &LogFrame) -> Result<(), AllocError>
        ensures states { OnOk result (GrowsBy StateBookStandsFor self.old.states frame.now
            self.new.states) }
        ensures pulls { self.new.pulls ≡ self.old.pulls }
    {
        match frame {
            LogFrame::Tick { .. } => Ok(()),
            LogFrame::AtomAt { atom, .. } => self.states.apply(atom),
            LogFrame::Pull { .. } => Ok(()),
        }
    }

    /// Takes what a frame pulled out of it, if it is a pull, which is left as one that failed. An atom and a tick stay.
    pub fn record(&mut self, frame: &mut LogFrame) -> Result<(), AllocError>
        requires faultless { IsFaultlessLog frame.old }
        ensures pulls { OnOk result (GrowsBy PullBookStandsFor self.old.pulls frame.old
            self.new.pulls) }
        ensures states { self.new.states ≡ self.old.states }
        ensures lent { frame.new ≡ frame_left frame.old }
    {
        match frame {
            LogFrame::Tick { .. } => Ok(()),
            LogFrame::AtomAt { .. } => Ok(()),
            LogFrame::Pull { id, outcome, .. } => {
                let pulled = mem::replace(outcome, PullOutcome::Failed);
                self.pulls.set(*id, pulled)
            }
        }
    }
}

/// Notes a frame as a pull that failed, if it is a pull.
pub fn note_failed(failed: &mut LogFrame, frame: &LogFrame)
    ensures { IsAsFailed frame.now failed.new }
{
    if let LogFrame::Pull { at, id, .. } = frame {
        *failed = LogFrame::Pull {
            at: *at,
            id: *id,
            outcome: PullOutcome::Failed,
        };
    }
}
