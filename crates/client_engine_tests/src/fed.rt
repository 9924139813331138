//! An instance that is fed, and the book of states beside it.
ghost use Rattle.std.specs.Prelude.{◌≡◌, ◌<◌, [], ◌∷◌, IfOk};
ghost use Rattle.report_writer.specs.Writable.{IsWritableReport};
ghost use Rattle.session_frames.specs.Faultless.{IsFaultlessLog};

use super::saved::{again, items_of, linked_of};
use atom_record::{Atom, LogFrame, PullOutcome, parse_atom};
use client_engine::{Instance, LiveId, LogView, ReportRequest};
use condition_links::Steps;
use flat_form::Items;
use pull_book::PullBook;
use report_writer::{ReportTree, write};
use sd_base::Seq;
use state_slicer::StateBook;
use std::alloc::{AllocError, Global};
use std::marker::Brand;
use std::mem;
use std::sync::ledger::{Blank, Ledger};

/// Frames of the log come before this.
const LATE: u64 = 1 << 63;

/// The latest install of a row.
const MOST_BASE: u64 = 1_000;

/// An instance and the states that the log gave. There is none before its install, nor where it couldn't be built
/// again, and after want of memory it is of no use.
#[derive(Drop)]
pub struct Fed {
    alloc: Global,
    config: Vec<u8>,
    instance: Option<Instance>,
    states: StateBook,
    /// How often the instance is still saved and built again.
    saves: u64,
    /// The bytes of the reports.
    reports: Vec<u8>,
}

impl Fed {
    pub fn new(alloc: Global, saves: u64) -> Fed {
        Fed {
            alloc,
            config: Vec::new(alloc),
            instance: None,
            states: StateBook::new(alloc),
            saves,
            reports: Vec::new(alloc),
        }
    }

    /// Installs a configuration at a time. Answers whether it has no fault.
    pub fn install(&mut self, config: &[u8], base: Option<u64>) -> Result<bool, AllocError> {
        self.config.extend_from_slice(config)?;
        self.instance = match base {
            Some(base) => installed(self.alloc, config, base, &self.states)?,
            None => None,
        };
        Ok(self.instance.is_some())
    }

    /// The book of states takes the atom of a payload. Answers whether it did, as with the others.
    pub fn tell(&mut self, payload: &[u8]) -> Result<bool, AllocError> {
        let Ok(atom) = parse_atom(self.alloc, payload) else {
            return Ok(false);
        };
        self.states.apply(&atom)?;
        Ok(true)
    }

    /// The instance takes the atom of a payload, with the truth of each matcher.
    pub fn atom(&mut self, at: u64, payload: &[u8], matched: &[bool]) -> Result<bool, AllocError> {
        let Ok(atom) = parse_atom(self.alloc, payload) else {
            return Ok(false);
        };
        if at >= LATE {
            return Ok(false);
        }
        let frame = LogFrame::AtomAt { at, atom };
        log(&mut self.instance, &self.states, &frame, matched)
    }

    pub fn tick(&mut self, at: u64) -> Result<bool, AllocError> {
        if at >= LATE {
            return Ok(false);
        }
        log(
            &mut self.instance,
            &self.states,
            &LogFrame::Tick { at },
            &[],
        )
    }

    /// Takes a pull that failed.
    pub fn failed_pull(&mut self, at: u64) -> Result<bool, AllocError> {
        if at >= LATE {
            return Ok(false);
        }
        let frame = LogFrame::Pull {
            at,
            id: 10_001,
            outcome: PullOutcome::Failed,
        };
        log(&mut self.instance, &self.states, &frame, &[])
    }

    /// Takes a pull that gave two atoms of one id.
    pub fn pull(&mut self, at: u64, one: &[u8], other: &[u8]) -> Result<bool, AllocError> {
        let Ok(one) = parse_atom(self.alloc, one) else {
            return Ok(false);
        };
        let Ok(other) = parse_atom(self.alloc, other) else {
            return Ok(false);
        };
        let id = one.id;
        if at >= LATE || other.id != id {
            return Ok(false);
        }
        let outcome = PullOutcome::Atoms(both(self.alloc, one, other)?);
        let frame = LogFrame::Pull { at, id, outcome };
        log(&mut self.instance, &self.states, &frame, &[])
    }

    /// One frame stands for all that went by since the last, of which nothing touched the instance.
    pub fn catch_up(&mut self, at: u64, is_pull: bool) -> Result<bool, AllocError> {
        if at >= LATE {
            return Ok(false);
        }
        let Some(instance) = &mut self.instance else {
            return Ok(false);
        };
        instance.catch_up(at, is_pull)?;
        Ok(true)
    }

    /// A report, which cuts the open part or leaves it.
    pub fn report(&mut self, at: u64, is_cut: bool) -> Result<Option<ReportTree>, AllocError> {
        if at >= LATE {
            return Ok(None);
        }
        let Some(instance) = &mut self.instance else {
            return Ok(None);
        };
        let request = ReportRequest {
            name: LiveId { uid: 10, id: 7 },
            include_current: is_cut,
            at,
        };
        let tree = instance.show(request, &self.states)?;
        put_report(self.alloc, &mut self.reports, &tree)?;
        Ok(Some(tree))
    }

    /// The bytes of the reports so far, which are let go.
    pub fn take_reports(&mut self) -> Vec<u8> {
        mem::replace(&mut self.reports, Vec::new(self.alloc))
    }

    /// Saves the instance and builds it again, where that is still to be done.
    pub fn renew(&mut self) {
        if self.saves == 0 {
            return;
        }
        self.saves -= 1;
        self.instance = again(self.alloc, self.config.as_slice(), &self.instance);
    }

    /// The items of the instance, if there is one.
    pub fn items(&self) -> Result<Option<Items>, AllocError> {
        let Some(instance) = &self.instance else {
            return Ok(None);
        };
        Ok(Some(items_of(self.alloc, instance)?))
    }
}

/// Puts the bytes of a report after others.
fn put_report(alloc: Global, reports: &mut Vec<u8>, tree: &ReportTree) -> Result<(), AllocError>
    requires { IsWritableReport tree.now }
{
    let bytes = write(alloc, tree)?;
    reports.extend_from_slice(bytes.as_slice())
}

/// Both atoms of a pull.
fn both(alloc: Global, one: Atom, other: Atom) -> Result<Seq<Atom>, AllocError>
    ensures { IfOk result (λ atoms. atoms ≡ one ∷ other ∷ []) }
{
    let mut atoms = Seq::new(alloc);
    atoms.push(one)?;
    atoms.push(other)?;
    Ok(atoms)
}

/// The instance of a configuration that is installed at a time when the log gave these states, if it has no fault.
fn installed(
    alloc: Global,
    config: &[u8],
    base: u64,
    states: &StateBook,
) -> Result<Option<Instance>, AllocError> {
    if base > MOST_BASE {
        return Ok(None);
    }
    let Some(linked) = linked_of(alloc, config) else {
        return Ok(None);
    };
    let pulls = PullBook::new(alloc);
    Ok(Some(Instance::new(alloc, linked, base, &pulls, states)?))
}

/// Gives an instance a frame. Answers whether there is one.
fn log(
    instance: &mut Option<Instance>,
    states: &StateBook,
    frame: &LogFrame,
    matched: &[bool],
) -> Result<bool, AllocError>
    requires { IsFaultlessLog frame.now }
{
    let Some(instance) = instance else {
        return Ok(false);
    };
    let view = LogView { matched, states };
    feed::<Brand>(Blank::new(1), instance, frame, &view)?;
    Ok(true)
}

/// Gives an instance a frame, whose questions are on a counter of their own.
fn feed<L: Ledger>(
    blank: Blank,
    instance: &mut Instance,
    frame: &LogFrame,
    view: &LogView<'_>,
) -> Result<(), AllocError>
    requires name { blank.name ≡ L.name }
    requires parts { blank.parts ≡ L.parts }
    requires some { 0 < blank.parts }
    requires faultless { IsFaultlessLog frame.now }
{
    let mut asks: Steps<L> = Steps::new(blank);
    instance.apply(frame, view, &mut asks)
}
