// The descriptors 0, 1 and 2.
use std::fs::File;
use std::io;
use std::os::fd::{AsRawFd, IntoRawFd};

// Where one of them is closed, the null device is opened onto it, so that no file that is opened later gets its number.
pub(crate) fn hold(rt: &HostRuntime) -> io::Result<()> {
    for _ in 0..3 {
        let device = File::open(rt, "/dev/null")?;
        if device.as_raw_fd() > 2 {
            return Ok(());
        }
        let _ = device.into_raw_fd();
    }
    Ok(())
}
