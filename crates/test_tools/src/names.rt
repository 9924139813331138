//! The fields of messages by name. The names are shorter than those of `proto/`; each line has the message's name
//! there.
use super::numbers::bits;
use std::alloc::{AllocError, Global};

/// A line for each message: its name, and its fields with their numbers. What follows after a `:` is the message that a
/// field holds.
const MESSAGES: &str = "\
    fields field=1 position=2 child=3:fields\n\
    config id=1 event=2:event count=3:count value=4:value gauge=5:gauge duration=6:duration \
        matcher=7:matcher predicate=8:predicate no_report=13 state=21:state\n\
    matcher id=1 simple=2:simple combination=3:combination\n\
    combination operation=1 of=2\n\
    simple atom=1 test=2:test\n\
    test field=1 position=2 eq_bool=3 eq_string=4 eq_int=5 lt_int=6 gt_int=7 lte_int=10 gte_int=11 \
        tuple=12:tuple eq_any=13:texts neq_any=14:texts\n\
    tuple test=1:test\n\
    texts text=1\n\
    predicate id=1 simple=2:spans combination=3:combination\n\
    spans start=1 stop=2 count_nesting=3 stop_all=4 initial_value=5 dims=6:fields bound=1001\n\
    link condition=1 in_what=2:fields in_condition=3:fields\n\
    state_link state_atom=1 in_what=2:fields in_state=3:fields\n\
    state id=1 atom=2 map=3:map\n\
    map group=1:group\n\
    group id=1 value=2\n\
    filter include_all=1 fields=2:fields\n\
    event id=1 what=2 condition=3 link=4:link\n\
    count id=1 what=2 condition=3 dims=4:fields bucket=5 link=6:link slice_by_state=8 \
        state_link=9:state_link bound=1001 overflow=1002\n\
    value id=1 what=2 value_field=3:fields condition=4 dims=5:fields bucket=6 link=7:link \
        aggregation_type=8 absolute_on_reset=11 use_diff=12 value_direction=13 skip_zero_diff=14 \
        zero_default_base=15 slice_by_state=18 state_link=19:state_link bound=1001\n\
    gauge id=1 what=2 filter=3:filter condition=4 dims=5:fields bucket=6 link=7:link \
        sampling_type=9 samples=11 trigger=12 bound=1001\n\
    duration id=1 what=2 condition=3 link=4:link aggregation_type=5 dims=6:fields bucket=7 \
        slice_by_state=9 state_link=10:state_link bound=1001\n\
    reports key=1:key report=2:report\n\
    key uid=1 id=2\n\
    report metric=1:metric last=3 current=4 predicate_drops=1001:predicate_drops \
        state_drops=1002:state_drops dropped_state_atoms=1003\n\
    predicate_drops id=1 drops=2\n\
    state_drops atom=1 drops=2\n\
    metric id=1 events=4:events counts=5:counts durations=6:durations values=7:values \
        gauges=8:gauges base=9 size=10 dropped=1001 not_kept=1002 missing=1003\n\
    events data=1:logged\n\
    logged at=1 atom=2:atom\n\
    counts data=1:slice\n\
    durations data=1:slice\n\
    values data=1:slice\n\
    gauges data=1:sampled\n\
    slice bucket=3:bucket leaf=4:leaf in_state=6:in_state overflow=1001\n\
    sampled bucket=3:samples leaf=4:leaf in_state=6:in_state\n\
    bucket from=1 to=2 is=3\n\
    samples from=1 to=2 atom=3:atom\n\
    leaf text=2 int=3 long=4 bool=5 float=6 place=1001 raw=1002\n\
    in_state atom=1 group=2 value=3\n";

/// A line for each field that holds one of some names, and their numbers.
const NAMED: &str = "\
    operation AND=1 OR=2 NOT=3 NAND=4 NOR=5\n\
    position FIRST=1 LAST=2 ANY=3 ALL=4\n\
    bucket ONE_MINUTE=1 FIVE_MINUTES=2 TEN_MINUTES=3 THIRTY_MINUTES=4 ONE_HOUR=5 THREE_HOURS=6 \
        SIX_HOURS=7 TWELVE_HOURS=8 ONE_DAY=9 CTS=1000\n\
    initial_value UNKNOWN=0 FALSE=1\n\
    aggregation_type SUM=1 MIN=2 MAX=3 MAX_SPARSE=2\n\
    value_direction INCREASING=1 DECREASING=2 ANY=3\n\
    sampling_type RANDOM_ONE_SAMPLE=1 CONDITION_CHANGE_TO_TRUE=3 FIRST_N_SAMPLES=4\n";

/// A field of a message: its number, and the message that it holds, or none.
#[derive(Clone, Copy)]
pub struct Field {
    pub number: u64,
    pub inner: &'static str,
}

/// A field under its names.
#[derive(Clone, Copy)]
struct Named {
    message: &'static str,
    name: &'static str,
    field: Field,
}

/// The fields of all messages.
#[derive(Drop)]
pub struct Names {
    fields: Vec<Named>,
}

impl Names {
    pub fn new(alloc: Global) -> Result<Names, AllocError> {
        let mut fields = Vec::new(alloc);
        for line in MESSAGES.lines() {
            push_fields(&mut fields, line)?;
        }
        for line in NAMED.lines() {
            push_fields(&mut fields, line)?;
        }
        Ok(Names { fields })
    }

    /// The field of this name in a message, or the number of a name that a field of this name holds.
    pub fn field(&self, message: &str, name: &str) -> Option<Field> {
        for named in &self.fields {
            if named.message == message && named.name == name {
                return Some(named.field);
            }
        }
        None
    }
}

/// Puts the fields of a line after others.
fn push_fields(fields: &mut Vec<Named>, line: &'static str) -> Result<(), AllocError> {
    let Some((message, words)) = line.split_once(' ') else {
        return Ok(());
    };
    for word in words.split_whitespace() {
        if let Some((name, field)) = field_of(word) {
            fields.push(Named {
                message,
                name,
                field,
            })?;
        }
    }
    Ok(())
}

/// The name of a field, and the field.
fn field_of(word: &'static str) -> Option<(&'static str, Field)> {
    let (name, rest) = word.split_once('=')?;
    let (digits, inner) = rest.split_once(':').unwrap_or((rest, ""));
    let number = bits(digits)?;
    Some((name, Field { number, inner }))
}
