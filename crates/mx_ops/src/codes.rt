//! The codes of the special registers (MMIXware, the part on MMIX, "Special registers").

/// Bootstrap register: what $255 had when a trip came.
pub const RB: u8 = 0;

/// Dividend register.
pub const RD: u8 = 1;

/// Epsilon register.
pub const RE: u8 = 2;

/// Himult register: the high half of a product.
pub const RH: u8 = 3;

/// Return-jump register.
pub const RJ: u8 = 4;

/// Multiplex mask register.
pub const RM: u8 = 5;

/// Remainder register.
pub const RR: u8 = 6;

/// Bootstrap register of traps.
pub const RBB: u8 = 7;

/// Cycle counter.
pub const RC: u8 = 8;

/// Serial number.
pub const RN: u8 = 9;

/// Register stack offset.
pub const RO: u8 = 10;

/// Register stack pointer.
pub const RS: u8 = 11;

/// Interval counter.
pub const RI: u8 = 12;

/// Trap address register.
pub const RT: u8 = 13;

/// Dynamic trap address register.
pub const RTT: u8 = 14;

/// Interrupt mask register.
pub const RK: u8 = 15;

/// Interrupt request register.
pub const RQ: u8 = 16;

/// Usage counter.
pub const RU: u8 = 17;

/// Virtual translation register.
pub const RV: u8 = 18;

/// Global threshold register.
pub const RG: u8 = 19;

/// Local threshold register.
pub const RL: u8 = 20;

/// Arithmetic status register.
pub const RA: u8 = 21;

/// Failure location register.
pub const RF: u8 = 22;

/// Prediction register.
pub const RP: u8 = 23;

/// Where-interrupted register of trips.
pub const RW: u8 = 24;

/// Execution register of trips.
pub const RX: u8 = 25;

/// Y operand register of trips.
pub const RY: u8 = 26;

/// Z operand register of trips.
pub const RZ: u8 = 27;

/// Where-interrupted register of traps.
pub const RWW: u8 = 28;

/// Execution register of traps.
pub const RXX: u8 = 29;

/// Y operand register of traps.
pub const RYY: u8 = 30;

/// Z operand register of traps.
pub const RZZ: u8 = 31;
