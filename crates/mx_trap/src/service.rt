//! The services of file traps, by the fields of the tetra.

ghost use Rattle.std.specs.Prelude.{◌≡◌};
ghost use Rattle.mx_trap.specs.Services as spec;

use crate::answer::TrapStop;

/// A service that a file trap asks for.
#[derive(Clone, Copy)]
pub enum Service {
    Halt,
    Fopen,
    Fclose,
    Fread,
    Fgets,
    Fwrite,
    Fputs,
    Fseek,
    Ftell,
}

/// The service that the tetra of a TRAP names.
#[tactic(auto, unfolding(crate::specs::Services::service_of))]
pub fn service_of(word: u32) -> Result<Service, TrapStop>
    ensures { result ≡ spec.service_of word }
{
    if (word >> 16) % 256 != 0 {
        return Err(TrapStop::UnknownTrap);
    }
    service_by_number(((word >> 8) % 256) as u8, (word % 256) as u8)
}

/// The service of this number Y, for the handle Z.
fn service_by_number(y: u8, z: u8) -> Result<Service, TrapStop>
    ensures { result ≡ spec.service_numbered y z }
{
    match y {
        0 if z == 0 => Ok(Service::Halt),
        0 => Err(TrapStop::UnknownTrap),
        1 => Ok(Service::Fopen),
        2 => Ok(Service::Fclose),
        3 => Ok(Service::Fread),
        4 => Ok(Service::Fgets),
        6 => Ok(Service::Fwrite),
        7 => Ok(Service::Fputs),
        9 => Ok(Service::Fseek),
        10 => Ok(Service::Ftell),
        5 | 8 => Err(TrapStop::WideTrap),
        _ => Err(TrapStop::UnknownTrap),
    }
}
