// The descriptors 0, 1 and 2.
use std::fs::File;
use std::io;
use std::os::fd::{AsRawFd, IntoRawFd};

// Where one of them is closed, the null device is opened onto it. A file that is opened later would get its number, and
// what is written to the stream would go into that file. It is opened to be read alone: so there is nothing to be read
// from standard input, and a write to the other two fails, as it does where they are full.
pub(crate) fn hold(rt: &HostRuntime) -> io::Result<()> {
    for _ in 0..3 {
        let device = File::open(rt, "/dev/null")?;
        if device.as_raw_fd() > 2 {
            return Ok(());
        }
        // Each new file gets the lowest number that is free. It stays open to the end.
        let _ = device.into_raw_fd();
    }
    Ok(())
}
