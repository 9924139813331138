//! A report's bytes as the one tree that is spelled so.
ghost use Rattle.std.specs.Prelude.{◌≡◌, ◌<◌, ◌^◌, ℕ, List, length, IfOk, Result};
ghost use Rattle.report_show.specs.Reading as reading;
ghost use Rattle.report_show.specs.Reading.{contents_in};
ghost use Rattle.report_show.specs.Show.{ReadsTree};

use crate::fields::{low_half, next_bytes, next_number, number_in, read_all};
use crate::numbers;
use crate::shape::is_shaped_report;
use crate::show_error::ShowError;
use proto_wire::Records;
use report_writer::{ReportTree, write};
use std::alloc::{AllocError, Global};

// The greatest length of a report.
const MAX_BYTES: usize = 16_777_216;

// The tree of a message that says whose report it is, and of one that says the rest.
fn tree_from(alloc: Global, key: &[u8], config: &[u8]) -> Result<ReportTree, AllocError>
    requires key { length key.now < 2 ^ 32 }
    requires config { length config.now < 2 ^ 32 }
    ensures { IfOk result (λ tree.
        tree ≡ reading.tree_said (contents_in key.now) (contents_in config.now)) }
{
    let mut whose = Records::new(key, 0, 0);
    let uid = low_half(next_number(&mut whose)).cast_signed();
    let id = next_number(&mut whose).cast_signed();
    let metrics = read_all(alloc, config, numbers::REPORT_METRIC)?;
    let predicate_drops = read_all(alloc, config, numbers::REPORT_PREDICATE_DROPS)?;
    let state_drops = read_all(alloc, config, numbers::REPORT_STATE_DROPS)?;
    let alarms = read_all(alloc, config, numbers::REPORT_ALARMS)?;
    let alarms_not_kept = read_all(alloc, config, numbers::REPORT_ALARMS_NOT_KEPT)?;
    Ok(ReportTree {
        uid,
        id,
        last: number_in(config, numbers::REPORT_LAST),
        now: number_in(config, numbers::REPORT_NOW),
        metrics,
        predicate_drops,
        state_drops,
        state_atoms_dropped: number_in(config, numbers::REPORT_DROPPED_STATE_ATOMS),
        alarms,
        alarms_not_kept,
    })
}

// The tree that any bytes have.
#[tactic(auto, unfolding(crate::specs::Reading::read_report))]
fn any_tree(alloc: Global, bytes: &[u8]) -> Result<ReportTree, AllocError>
    requires { length bytes.now < 2 ^ 32 }
    ensures { IfOk result (λ tree. tree ≡ reading.read_report bytes.now) }
{
    let mut records = Records::new(bytes, 0, 0);
    let (_, key) = next_bytes(&mut records);
    let (_, config) = next_bytes(&mut records);
    tree_from(alloc, key, config)
}

/// The well-formed tree that is spelled by these bytes.
pub fn read_tree(alloc: Global, bytes: &[u8]) -> Result<ReportTree, ShowError>
    requires { length bytes.now < 2 ^ 32 }
    ensures { ReadsTree bytes.now result }
{
    if bytes.len() > MAX_BYTES {
        return Err(ShowError::TooLong(bytes.len() as u32));
    }
    let tree = any_tree(alloc, bytes)?;
    if !is_shaped_report(&tree) {
        return Err(ShowError::NotReport);
    }
    let again = write(alloc, &tree)?;
    if again.as_slice() == bytes {
        Ok(tree)
    } else {
        Err(ShowError::NotReport)
    }
}
