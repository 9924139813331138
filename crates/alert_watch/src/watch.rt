//! The alert of one metric of counts.
ghost use Rattle.std.specs.Prelude.{◌≡◌, ◌<◌, ◌≤◌, nat_lt, ◌&&◌, [], ◌∷◌, ◌++◌, length, IfOk, OnOk, OnErr};
ghost use Rattle.bucket_meaning.specs.Limits.{time_limit};
ghost use Rattle.config_types.specs.AlertSpecs.{IsAlertSpec};
ghost use Rattle.alert_watch.specs.Windows.{KeyArrived, PartsEnded, AlarmsTold, most_alarms};
ghost use Rattle.alert_watch.specs.Watches.{WatchStandsFor, TakesNotice, TellsAlarms};
ghost use Rattle.alert_watch.specs.WindowParts.{Turns};
ghost use Rattle.alert_watch.specs.WatchSteps.{CanCount, CountsIn, RingsWith, is_over_at};

use crate::window::{KeyCounts, count_one, empty_tables, finds_room, sum_of, turn};
use crate::{Alarm, Alarms, MAX_ALARMS};
use atom_record::MetricKey;
use config_types::AlertSpec;
use sd_base::{Duplicate, Seq};
use std::alloc::{AllocError, Global};
use std::marker::Model;
use std::mem;

/// The alert of one metric of counts: a table for each part of its window, its last alarm, and those not told yet.
#[derive(Drop)]
pub struct AlertWatch {
    pub(crate) spec: AlertSpec,
    /// Of the open part, and then of those before it, the latest first.
    pub(crate) tables: Vec<KeyCounts>,
    /// When the last alarm came.
    pub(crate) last: Option<u64>,
    /// The alarms that the next report lists.
    pub(crate) listed: Vec<Alarm>,
    /// How many came after those.
    pub(crate) not_kept: u64,
    pub(crate) alloc: Global,
}

impl Model for AlertWatch {
    ghost use Rattle.alert_watch.specs.Watches.{WatchContents, IsWatch};

    ghost Value = { WatchContents };

    ghost view = { λ it. record {
      spec = it.spec;
      tables = it.tables.items;
      last = it.last;
      listed = it.listed.items;
      not_kept = it.not_kept;
    } };

    ghost invariant = { λ it. IsWatch (record {
      spec = it.spec;
      tables = it.tables.items;
      last = it.last;
      listed = it.listed.items;
      not_kept = it.not_kept;
    }) };
}

impl AlertWatch {
    /// A watch of this alert, which was told nothing.
    pub fn new(alloc: Global, spec: AlertSpec) -> Result<AlertWatch, AllocError>
        requires { IsAlertSpec spec }
        ensures spec { IfOk result (λ watch. watch.spec ≡ spec) }
        ensures stands { IfOk result (λ watch. WatchStandsFor watch []) }
    {
        let tables = empty_tables(alloc, spec.bound as usize, spec.parts)?;
        Ok(AlertWatch {
            spec,
            tables,
            last: None,
            listed: Vec::new(alloc),
            not_kept: 0,
            alloc,
        })
    }

    /// A key arrived at the metric. Where it finds no room in its part, nothing changes. It is copied for a new row and
    /// for an alarm that is listed alone.
    pub fn arrive(&mut self, at: u64, key: &MetricKey) -> Result<(), AllocError>
        requires in_time { at < time_limit }
        ensures spec { self.new.spec ≡ self.old.spec }
        ensures stands { OnOk result (TakesNotice self.old self.new (KeyArrived at key.now)) }
        ensures err { OnErr result (self.new ≡ self.old) }
    {
        if !finds_room(&self.tables[0], key) {
            return Ok(());
        }
        let sum = sum_of(self.tables.as_slice(), key).saturating_add(1);
        if self.rings(at, sum) {
            self.ring(at, sum, key)
        } else {
            count_one(&mut self.tables[0], key)
        }
    }

    /// So many parts ended: the open one, and others in which nothing arrived. It takes no memory, and no longer than
    /// the window is.
    pub fn close(&mut self, parts: u64)
        requires { 1 ≤ parts }
        ensures spec { self.new.spec ≡ self.old.spec }
        ensures stands { TakesNotice self.old self.new (PartsEnded parts) }
    {
        let turns = parts.min(u64::from(self.spec.parts));
        turn_all(self.tables.as_mut_slice(), turns);
    }

    /// The alarms that a report tells. None of them is told again; the window and the refractory time go on.
    pub fn take(&mut self) -> Alarms
        ensures spec { self.new.spec ≡ self.old.spec }
        ensures stands { TakesNotice self.old self.new AlarmsTold }
        ensures alarms { TellsAlarms self.old result }
    {
        let listed = mem::replace(&mut self.listed, Vec::new(self.alloc));
        Alarms {
            listed: Seq::from_vec(listed),
            not_kept: mem::replace(&mut self.not_kept, 0),
        }
    }

    /// The alarms that the next report lists. They stay.
    pub fn listed(&self) -> &[Alarm]
        ensures { result.now ≡ self.now.listed }
    {
        self.listed.as_slice()
    }

    /// How many alarms came after those.
    pub fn not_kept(&self) -> u64
        ensures { result ≡ self.now.not_kept }
    {
        self.not_kept
    }

    /// The alert that it is a watch of.
    pub fn alert(&self) -> AlertSpec
        ensures value { result ≡ self.now.spec }
        ensures sound { IsAlertSpec self.now.spec }
    {
        self.spec
    }

    // Whether an arrival with this sum is an alarm.
    fn rings(&self, at: u64, sum: u64) -> bool
        requires { at < time_limit }
        ensures { result ≡ (nat_lt self.now.spec.threshold sum && is_over_at self.now at) }
    {
        let is_over = match self.last {
            None => true,
            Some(last) => last.saturating_add(self.spec.refractory) <= at,
        };
        self.spec.threshold < sum && is_over
    }

    // Counts an arrival that is an alarm.
    fn ring(&mut self, at: u64, sum: u64, key: &MetricKey) -> Result<(), AllocError>
        requires room { CanCount self.old key.now }
        ensures counted { OnOk result (RingsWith self.old self.new at sum key.now) }
        ensures err { OnErr result (self.new ≡ self.old) }
    {
        if self.listed.len() >= MAX_ALARMS {
            count_one(&mut self.tables[0], key)?;
            self.not_kept = self.not_kept.saturating_add(1);
            self.last = Some(at);
            return Ok(());
        }
        let copy = key.duplicate(self.alloc)?;
        self.list(Alarm { at, sum, key: copy }, key)?;
        self.last = Some(at);
        Ok(())
    }

    // Lists an alarm and counts its arrival, or does neither.
    fn list(&mut self, alarm: Alarm, key: &MetricKey) -> Result<(), AllocError>
        requires room { CanCount self.old key.now }
        requires few { length self.old.listed < most_alarms }
        ensures counted { OnOk result (CountsIn self.old
            (record self.new { listed = self.old.listed }) key.now) }
        ensures listed { OnOk result (self.new.listed ≡ self.old.listed ++ alarm ∷ []) }
        ensures err { OnErr result (self.new ≡ self.old) }
    {
        self.listed.push(alarm)?;
        let counted = count_one(&mut self.tables[0], key);
        if counted.is_err() {
            let _alarm = self.listed.pop();
        }
        counted
    }
}

// So many parts ended.
fn turn_all(tables: &mut [KeyCounts], turns: u64)
    requires { 0 < length tables.old }
    ensures len { length tables.new ≡ length tables.old }
    ensures turned { Turns tables.old tables.new turns }
{
    for _turn in 0..turns {
        turn(tables);
    }
}
