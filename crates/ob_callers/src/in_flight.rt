//! Bytes in flight on two connections, each with words of its own, to which `docs/calls.md` points.

use ob_lanes::lanes;
use ob_types::{Refusal, WaterMark};
use std::alloc::Global;
use std::sync::Wait;

/// Has bytes of one connection in flight while another one ends, and then ends the first. Whether both ended.
pub fn two_connections<R: Wait>(rt: &R, alloc: Global) -> Result<bool, Refusal> {
    let marks = WaterMark::new(32768, 65536)?;
    let (words, lane) = lanes(alloc, marks, 100, 0)?;
    let (others, other) = lanes(alloc, marks, 100, 0)?;
    let Ok((charged, _change)) = lane.charge(rt, &words, 60) else {
        return Ok(false);
    };
    let other_has_ended = other.finish(others).is_ok();
    let (lane, _change) = charged.discharge(rt, &words);
    Ok(other_has_ended && lane.finish(words).is_ok())
}
