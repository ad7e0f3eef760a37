//! JSON that was written, as text.

use fast_check_cases::Said;
use json::Writer;
use std::alloc::AllocError;

/// Says what was written, if all of it was.
pub fn say_written(out: Writer, done: Result<(), AllocError>, said: &mut Said) {
    said.note(done);
    match String::from_utf8(out.into_inner()) {
        Ok(text) => said.say(text.as_str()),
        Err(_) => said.lack(),
    }
}
