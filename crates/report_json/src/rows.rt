//! Rows of metrics with numbers, as JSON.

use crate::shown::{Shown, array_of, write_member};
use crate::text::Text;
use report_writer::{NumBucket, NumTree};
use serde_json::{Value, json};
use std::alloc::{AllocError, Global};

impl Shown for NumBucket {
    ghost use Rattle.report_json.specs.ReportJson.{bucket_json};

    ghost shown = { bucket_json };

    fn json(&self, alloc: Global) -> Result<Value, AllocError> {
        json!(in alloc; [self.start, self.end, self.value])
    }

    fn write(&self, out: &mut Text) -> Result<(), AllocError> {
        out.open_array()?;
        out.add_whole(self.start)?;
        out.add_whole(self.end)?;
        out.add_integer(self.value)?;
        out.close_array()
    }
}

impl Shown for NumTree {
    ghost use Rattle.report_json.specs.ReportJson.{row_json};

    ghost shown = { row_json };

    fn json(&self, alloc: Global) -> Result<Value, AllocError> {
        let buckets = array_of(alloc, self.buckets.as_slice())?;
        let key = array_of(alloc, self.leaves.as_slice())?;
        let slices = array_of(alloc, self.slices.as_slice())?;
        let overflow = self.overflow;
        json!(in alloc; {"buckets": buckets, "key": key, "overflow": overflow, "slices": slices})
    }

    fn write(&self, out: &mut Text) -> Result<(), AllocError> {
        out.open_object()?;
        write_member(out, "buckets", self.buckets.as_slice())?;
        write_member(out, "key", self.leaves.as_slice())?;
        out.add_key("overflow")?;
        out.add_truth(self.overflow)?;
        write_member(out, "slices", self.slices.as_slice())?;
        out.close_object()
    }
}
