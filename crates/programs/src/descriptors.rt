// The three standard descriptors. One that is closed would be taken by the next file that is
// opened, and then hold what was never meant for it.
use std::fs::{File, OpenOptions};
use std::os::fd::{AsRawFd, IntoRawFd};

// The last of the three.
const STANDARD_ERROR: i32 = 2;

// Opens what is closed of the three, so that a read of it, or a write to it, fails.
pub fn guard(rt: &HostRuntime) {
    if let Ok(file) = OpenOptions::new().append(true).open(rt, "/dev/null") {
        keep(file, 0);
    }
    for _ in 0..3 {
        let Ok(file) = File::open(rt, "/dev/null") else {
            return;
        };
        if !keep(file, STANDARD_ERROR) {
            return;
        }
    }
}

// Leaves a file open for good where its descriptor is at most this one; is it?
fn keep(file: File, most: i32) -> bool {
    if most < file.as_raw_fd() {
        return false;
    }
    file.into_raw_fd();
    true
}
