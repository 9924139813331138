//! What an instance is put together of, when it is installed and when it is built again.
ghost use Rattle.std.specs.Prelude.{◌≡◌, length, All, IfOk};
ghost use Rattle.client_engine.specs.Finding.{MayAsk};
ghost use Rattle.client_engine.specs.Tracks.{AllAskWithin};
ghost use Rattle.client_engine.specs.Woken.{AllDue};

use super::Instance;
use crate::listeners::Listeners;
use crate::tracks::Tracks;
use config_links::{LAlert, LMatcher, LState};
use known_conditions::Conditions;
use sd_base::Seq;
use std::alloc::{AllocError, Global};

/// All of an instance but what is made of its configuration alone.
#[derive(Drop)]
pub struct Parts {
    pub matchers: Seq<LMatcher>,
    pub conditions: Conditions,
    pub states: Seq<LState>,
    pub tracks: Tracks,
    pub alerts: Seq<LAlert>,
    pub base: u64,
    pub last: u64,
}

impl Parts {
    ghost use Rattle.client_engine.specs.SavedParts.{running_of};

    /// The instance of these parts, whose metrics listen.
    pub fn listening(self, alloc: Global) -> Result<Instance, AllocError>
        requires askable { All MayAsk self.matchers }
        requires within { AllAskWithin self.conditions self.tracks.list.items }
        requires due { AllDue self.tracks.due self.tracks.list.items }
        requires marks { length self.tracks.marks.items ≡ length self.tracks.list.items }
        ensures { IfOk result (λ it. it ≡ running_of self) }
    {
        let listeners = Listeners::new(alloc, self.tracks.list.as_slice(), &self.conditions)?;
        let Parts {
            matchers,
            conditions,
            states,
            tracks,
            alerts,
            base,
            last,
        } = self;
        Ok(Instance {
            alloc,
            matchers,
            conditions,
            states,
            tracks,
            alerts,
            listeners,
            base,
            last,
        })
    }
}
