//! The real host on a file of its own, and descriptors of the system.

use mx_host::{Host, HostFault, Mode, OpenFault};
use mx_real::{RealHost, stand_in};
use std::fs::File;
use std::os::fd::AsRawFd;

/// Reads at most 8 bytes of slot 256, and compares.
fn reads<H: Host>(host: &mut H, want: &[u8]) -> bool {
    let mut into = [0; 8];
    match host.read_slot(256, &mut into) {
        Ok(count) => &into[..count] == want,
        Err(_) => false,
    }
}

#[test]
fn a_file_is_written_read_back_and_sought_in(rt: HostRuntime) {
    let Some(mut host) = RealHost::new(rt) else {
        return;
    };
    let name = b"real-host-test.bin";
    assert_eq!(rt;
        host.open_file(256, b"no-such-file", Mode::BinaryRead),
        Err(OpenFault::Absent)
    );
    assert_eq!(rt; host.open_file(257, name, Mode::BinaryWrite), Ok(()));
    assert_eq!(rt; host.write_slot(257, b"abcdef"), Ok(()));
    assert_eq!(rt; host.tell_slot(257), Ok(6));
    assert_eq!(rt; host.close_slot(257), Ok(()));
    assert_eq!(rt; host.close_slot(257), Err(HostFault::Misused));
    assert_eq!(rt; host.open_file(256, name, Mode::BinaryRead), Ok(()));
    assert!(rt; reads(&mut host, b"abcdef"));
    // -1 is the end, -3 the two bytes before it; past the end there is no place
    assert_eq!(rt; host.seek_slot(256, -3), Ok(()));
    assert!(rt; reads(&mut host, b"ef"));
    assert_eq!(rt; host.seek_slot(256, 1), Ok(()));
    assert!(rt; reads(&mut host, b"bcdef"));
    assert_eq!(rt; host.seek_slot(256, 7), Err(HostFault::Misused));
    assert_eq!(rt; host.seek_slot(256, -8), Err(HostFault::Misused));
    assert_eq!(rt; host.write_slot(256, b"x"), Err(HostFault::Misused));
}

/// The lowest free descriptor of the system.
fn free_descriptor(rt: &HostRuntime) -> i32 {
    match File::open(rt, "/dev/null") {
        Ok(file) => file.as_raw_fd(),
        Err(_) => -1,
    }
}

#[test]
fn a_free_descriptor_is_filled_and_an_open_one_is_left(rt: HostRuntime) {
    let free = free_descriptor(&rt);
    assert!(rt; free > 2);
    for open in 0..3 {
        assert!(rt; stand_in(&rt, open).is_none());
    }
    // kept until the end, as the program keeps it
    let kept = stand_in(&rt, free);
    assert!(rt; kept.is_some());
    assert!(rt; stand_in(&rt, free).is_none());
    assert!(rt; free < free_descriptor(&rt));
}
