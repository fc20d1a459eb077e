//! The calls of a host in memory.

ghost use Rattle.std.specs.Prelude.{Some};
ghost use Rattle.mx_host.specs.HostModel.{fault_count};

use super::MemHost;
use super::files::{place_sought, slot_at_start};
use crate::faults::{HostFault, OpenFault};
use crate::host::Host;
use crate::slots::{Lead, Mode, Slot};

#[tactic(auto, unfolding(crate::specs::HostModel::tells, crate::specs::HostModel::contents, crate::specs::HostAnswer::open_answer, crate::specs::HostAnswer::close_answer, crate::specs::HostAnswer::read_answer, crate::specs::HostAnswer::write_answer, crate::specs::HostAnswer::seek_answer, crate::specs::HostAnswer::tell_answer))]
impl Host for MemHost {
    ghost told = { λ h. Some h };

    ghost faults = { λ h. fault_count h.calls h.failing };

    fn open_file(&mut self, slot: u16, name: &[u8], mode: Mode) -> Result<(), OpenFault> {
        if self.count_call() {
            return Err(OpenFault::Failed);
        }
        match self.find(name) {
            None => {
                if mode.is_read_only() {
                    self.set_slot(slot, Slot::Closed);
                    return Err(OpenFault::Absent);
                }
                self.make(slot, name, mode)
            }
            Some(at) => {
                if mode.is_read_only() {
                    self.set_slot(slot, slot_at_start(at, mode));
                } else {
                    self.empty(at);
                    self.set_slot(slot, slot_at_start(at, mode));
                }
                Ok(())
            }
        }
    }

    fn close_slot(&mut self, slot: u16) -> Result<(), HostFault> {
        if self.count_call() {
            return Err(HostFault::Failed);
        }
        if self.slot(slot) == Slot::Closed {
            return Err(HostFault::Misused);
        }
        self.set_slot(slot, Slot::Closed);
        Ok(())
    }

    fn read_slot(&mut self, slot: u16, into: &mut [u8]) -> Result<usize, HostFault> {
        if self.count_call() {
            return Err(HostFault::Failed);
        }
        match self.slot(slot) {
            Slot::Closed => Err(HostFault::Misused),
            Slot::Open { lead, mode, place } => {
                if mode.is_write_only() {
                    return Err(HostFault::Misused);
                }
                match lead {
                    Lead::Input => Ok(self.take_input(into)),
                    Lead::File(at) => {
                        let got = self.read_file(at, place, into);
                        self.set_slot(
                            slot,
                            Slot::Open {
                                lead,
                                mode,
                                place: place + got,
                            },
                        );
                        Ok(got)
                    }
                    Lead::Output | Lead::Errors => Err(HostFault::Misused),
                }
            }
        }
    }

    fn write_slot(&mut self, slot: u16, from: &[u8]) -> Result<(), HostFault> {
        if self.count_call() {
            return Err(HostFault::Failed);
        }
        match self.slot(slot) {
            Slot::Closed => Err(HostFault::Misused),
            Slot::Open { lead, mode, place } => {
                if mode.is_read_only() {
                    return Err(HostFault::Misused);
                }
                match lead {
                    Lead::Input => Err(HostFault::Misused),
                    Lead::Output => self.add_output(from),
                    Lead::Errors => self.add_errors(from),
                    Lead::File(at) => self.write_file(slot, at, mode, place, from),
                }
            }
        }
    }

    fn seek_slot(&mut self, slot: u16, to: i64) -> Result<(), HostFault> {
        if self.count_call() {
            return Err(HostFault::Failed);
        }
        match self.slot(slot) {
            Slot::Closed => Err(HostFault::Misused),
            Slot::Open {
                lead,
                mode,
                place: _,
            } => {
                if !mode.is_binary() {
                    return Err(HostFault::Misused);
                }
                match lead {
                    Lead::Input | Lead::Output | Lead::Errors => Err(HostFault::Misused),
                    Lead::File(at) => match place_sought(self.file_length(at), to) {
                        Some(place) => {
                            self.set_slot(slot, Slot::Open { lead, mode, place });
                            Ok(())
                        }
                        None => Err(HostFault::Misused),
                    },
                }
            }
        }
    }

    fn tell_slot(&mut self, slot: u16) -> Result<u64, HostFault> {
        if self.count_call() {
            return Err(HostFault::Failed);
        }
        match self.slot(slot) {
            Slot::Closed => Err(HostFault::Misused),
            Slot::Open { lead, mode, place } => {
                if !mode.is_binary() {
                    return Err(HostFault::Misused);
                }
                match lead {
                    Lead::Input | Lead::Output | Lead::Errors => Err(HostFault::Misused),
                    Lead::File(_) => Ok(place as u64),
                }
            }
        }
    }
}
