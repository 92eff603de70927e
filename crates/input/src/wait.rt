// What is done after a read that failed.
use std::io::{Error, ErrorKind};
use std::thread;
use std::time::{Clock, Duration};

// Whether the read is to be tried again: at once where a signal interrupted it, after a pause where there is nothing to read yet.
pub fn tries_again(rt: &impl Clock, error: &Error) -> bool {
    match error.kind() {
        ErrorKind::WouldBlock => {
            pause(rt);
            true
        }
        kind => kind == ErrorKind::Interrupted,
    }
}

// Sleeps for a millisecond.
fn pause(rt: &impl Clock) {
    thread::sleep(rt, Duration::from_millis(1));
}
