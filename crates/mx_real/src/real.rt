//! The real host: the files and streams of the system. It tells nothing of their contents.

ghost use Rattle.std.specs.Prelude.{None, ◌≡◌, ◌≤◌, ◌<◌, IfSome, map, vec_len};
ghost use Rattle.mx_host.specs.HostModel.{Rose, start_slots};
ghost use Rattle.mx_real.specs.Streams.{stream_of};

use crate::opening::open;
use crate::start::streams_at_start;
use crate::streams::{Stream, read, seek, tell, write};
use mx_host::{Host, HostFault, Mode, OpenFault};
use std::fs::File;

/// The files and streams of the system, by slots, with a count of the calls that failed.
#[derive(Drop)]
pub struct RealHost {
    runtime: HostRuntime,
    slots: Vec<Stream<File>>,
    faults: u64,
    ghost slots_ok: { vec_len slots ≡ 261 },
}

impl RealHost {
    /// The slots as a program starts with them; nothing where there is no memory.
    pub fn new(runtime: HostRuntime) -> Option<RealHost>
        ensures { IfSome result (λ host. host.slots.items ≡ map stream_of start_slots) }
    {
        let slots = streams_at_start(runtime.alloc())?;
        Some(RealHost {
            runtime,
            slots,
            faults: 0,
        })
    }

    /// Counts a call that failed.
    fn fault(&mut self)
        ensures rose { Rose self.old.faults self.new.faults }
        ensures never_falls { self.old.faults ≤ self.new.faults }
    {
        self.faults = self.faults.saturating_add(1);
    }
}

#[tactic(auto, unfolding(mx_host::specs::HostModel::tells))]
impl Host for RealHost {
    ghost told = { λ _. None };

    ghost faults = { λ h. h.faults };

    fn open_file(&mut self, slot: u16, name: &[u8], mode: Mode) -> Result<(), OpenFault> {
        match open(&self.runtime, name, mode) {
            Ok(opened) => {
                self.slots[slot as usize] = opened;
                Ok(())
            }
            Err(fault) => {
                self.fault();
                if fault == OpenFault::Absent {
                    self.slots[slot as usize] = Stream::Closed;
                }
                Err(fault)
            }
        }
    }

    fn close_slot(&mut self, slot: u16) -> Result<(), HostFault> {
        if let Stream::Closed = self.slots[slot as usize] {
            self.fault();
            return Err(HostFault::Misused);
        }
        self.slots[slot as usize] = Stream::Closed;
        Ok(())
    }

    fn read_slot(&mut self, slot: u16, into: &mut [u8]) -> Result<usize, HostFault> {
        match read(
            &mut self.runtime.stdin(),
            &mut self.slots[slot as usize],
            into,
        ) {
            Ok(count) => Ok(count),
            Err(e) => {
                self.fault();
                Err(e)
            }
        }
    }

    fn write_slot(&mut self, slot: u16, from: &[u8]) -> Result<(), HostFault> {
        match write(
            &mut self.runtime.stdout(),
            &mut self.runtime.stderr(),
            &mut self.slots[slot as usize],
            from,
        ) {
            Ok(()) => Ok(()),
            Err(e) => {
                self.fault();
                Err(e)
            }
        }
    }

    fn seek_slot(&mut self, slot: u16, to: i64) -> Result<(), HostFault> {
        match seek(&mut self.slots[slot as usize], to) {
            Ok(()) => Ok(()),
            Err(e) => {
                self.fault();
                Err(e)
            }
        }
    }

    fn tell_slot(&mut self, slot: u16) -> Result<u64, HostFault> {
        match tell(&mut self.slots[slot as usize]) {
            Ok(place) => Ok(place),
            Err(e) => {
                self.fault();
                Err(e)
            }
        }
    }
}
