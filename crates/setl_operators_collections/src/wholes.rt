//! The operators on whole sets, tuples and maps.

ghost use Rattle.setl_value.specs.code.Body.{Members};
ghost use Rattle.setl_value.specs.Datum.{set_of};
ghost use Rattle.setl_value.specs.code.DatumOf.{datum};
ghost use Rattle.setl_operators_table.specs.Collections.{size, least_member, domain, range};
ghost use Rattle.setl_operators_table.specs.code.Answers.{Tells};

use setl_map::MapFault;
use setl_operators_table::answers::{free, set};
use setl_operators_table::{Answer, OpFault};
use setl_value::{SetBody, Value};
use std::alloc::Global;

/// `# v`: the number of members, components or bytes.
#[tactic(auto, using(crate::proofs::Rows::members_back, crate::proofs::Rows::parts_back))]
pub fn size(v: &Value) -> Result<Answer, OpFault>
    ensures { Tells result (size (datum v.now)) }
{
    match v {
        Value::Set(s) => free(Value::Int(s.len() as i128)),
        Value::Tuple(t) => free(Value::Int(t.len() as i128)),
        Value::Text(t) => free(Value::Int(t.bytes().len() as i128)),
        _ => Err(OpFault::Kind),
    }
}

/// `arb v`: the least member of a set, or `om` of the empty set.
pub fn arb(v: &Value) -> Result<Answer, OpFault>
    ensures { Tells result (least_member (datum v.now)) }
{
    match v {
        Value::Set(s) => least(s),
        _ => Err(OpFault::Kind),
    }
}

// The least member of a set, which is the first in rising order.
fn least(s: &SetBody) -> Result<Answer, OpFault>
    ensures { Tells result (least_member (set_of (Members s.now))) }
{
    if s.len() == 0 {
        return Ok(Answer {
            value: None,
            charged: 0,
        });
    }
    free(s.at(0).copy()?)
}

/// `domain v`: the set of the first parts of a map.
pub fn domain(alloc: Global, v: &Value) -> Result<Answer, OpFault>
    ensures { Tells result (domain (datum v.now)) }
{
    match v {
        Value::Set(f) => domain_of(alloc, f),
        _ => Err(OpFault::Kind),
    }
}

fn domain_of(alloc: Global, f: &SetBody) -> Result<Answer, OpFault>
    ensures { Tells result (domain (set_of (Members f.now))) }
{
    match setl_map::domain(alloc, f) {
        Ok(s) => set(s),
        Err(MapFault::Kind) => Err(OpFault::Kind),
        Err(_) => Err(OpFault::NoMemory),
    }
}

/// `range v`: the set of the images of a map.
pub fn range(alloc: Global, v: &Value) -> Result<Answer, OpFault>
    ensures { Tells result (range (datum v.now)) }
{
    match v {
        Value::Set(f) => range_of(alloc, f),
        _ => Err(OpFault::Kind),
    }
}

fn range_of(alloc: Global, f: &SetBody) -> Result<Answer, OpFault>
    ensures { Tells result (range (set_of (Members f.now))) }
{
    match setl_map::range(alloc, f) {
        Ok(s) => set(s),
        Err(MapFault::Kind) => Err(OpFault::Kind),
        Err(_) => Err(OpFault::NoMemory),
    }
}
