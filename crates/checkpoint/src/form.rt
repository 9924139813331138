//! From a hub to its saved form, and back.
ghost use Rattle.std.specs.Prelude.{◌≡◌, ◌≤◌, List, length, IfOk};
ghost use Rattle.session_frames.specs.declared.frame.Frame.{Frame};
ghost use Rattle.saved_weight.specs.Weigh.{weigh};
ghost use Rattle.hub_core.specs.HubStands.{judge_of, HubStandsFor};
ghost use Rattle.hub_core.specs.HubSaving.{saved_of};
ghost use Rattle.checkpoint.specs.Forms.{saved_bytes, StandsForAllSaved};
ghost use Rattle.checkpoint.specs.Saves.{Saves, Resumes, UnlessShort};

use crate::{ResumeError, SaveError};
use atom_record::Bytes;
use flat_form::{decode_items, encode_items, fit_items, spelled_len};
use hub_core::Hub;
use matcher_eval::Judge;
use std::alloc::{AllocError, Global};

/// The most bytes of a saved form.
pub const MOST_SAVED: u64 = 1 << 31;

/// The saved form of a hub, which is caught up by the last frame before it. Its length is found before it is spelled: a
/// form that is too long takes no room. After want of memory the hub is of no use.
#[tactic(auto, using(crate::proofs::SavedLengthLemmas::saved_within))]
pub fn save<J: Judge>(alloc: Global, hub: &mut Hub<J>) -> Result<Bytes, SaveError>
    ensures saves { Saves hub.new result }

    // Whatever the hub stood for, it stands for still.
    ensures stands { (frames : List Frame) → HubStandsFor J.says hub.old frames
        → UnlessShort result (HubStandsFor J.says hub.new frames) }

    // Its saved form, also one that is too long, has no more bytes than what the frames weigh that it stood for.
    ensures weight { (frames : List Frame) → HubStandsFor J.says hub.old frames
        → UnlessShort result (length (saved_bytes (saved_of hub.new)) ≤ weigh J.says frames) }
{
    hub.settle()?;
    let items = hub.flatten(alloc)?;
    fit_items(&items);
    let size = spelled_len(&items);
    if size > MOST_SAVED {
        return Err(SaveError::TooLong(size));
    }
    Ok(encode_items(alloc, items)?)
}

/// The hub of a saved form.
pub fn resume<J: Judge>(alloc: Global, judge: J, bytes: Bytes) -> Result<Hub<J>, ResumeError>
    ensures resumes { Resumes bytes result }

    // Whatever session the bytes are saved of, the hub stands for it.
    ensures stands { IfOk result (StandsForAllSaved J.says bytes) }
    ensures judge { IfOk result (λ hub. judge_of hub ≡ judge) }
{
    let items = decode_items(alloc, bytes)?;
    Ok(Hub::build(alloc, judge, &items)?)
}
