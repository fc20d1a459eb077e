//! Branches and conditional sets: where each condition holds, and where not.

use crate::row::{Due, GOES_ON, Given, NEXT, PLAIN, check_goes_on, due_value};
use std::alloc::Global;
use std::test::Fail;

/// Where a condition holds: of -2^63, of -1, of 0, of 1 and of 2.
type Holds = [bool; 5];

const IS_NEGATIVE: Holds = [true, true, false, false, false];

const IS_ZERO: Holds = [false, false, true, false, false];

const IS_POSITIVE: Holds = [false, false, false, true, true];

const IS_ODD: Holds = [false, true, false, true, false];

const IS_NOT_NEGATIVE: Holds = [false, false, true, true, true];

const IS_NOT_ZERO: Holds = [true, true, false, true, true];

const IS_NOT_POSITIVE: Holds = [true, true, true, false, false];

const IS_EVEN: Holds = [true, false, true, false, true];

static VALUES: [u64; 5] = [0x8000_0000_0000_0000, 0xffff_ffff_ffff_ffff, 0, 1, 2];

/// 4 * #203 bytes forward; and 4 * 65,536 bytes less.
const FORWARD: u64 = 0x1000_0810;

const BACKWARD: u64 = 0x0ffc_0810;

/// The tetra, where it goes, and where the condition holds of $9.
static BRANCHES: [(u32, u64, Holds); 32] = [
    // BN, BZ, BP, BOD
    (0x4009_0203, FORWARD, IS_NEGATIVE),
    (0x4109_0203, BACKWARD, IS_NEGATIVE),
    (0x4209_0203, FORWARD, IS_ZERO),
    (0x4309_0203, BACKWARD, IS_ZERO),
    (0x4409_0203, FORWARD, IS_POSITIVE),
    (0x4509_0203, BACKWARD, IS_POSITIVE),
    (0x4609_0203, FORWARD, IS_ODD),
    (0x4709_0203, BACKWARD, IS_ODD),
    // BNN, BNZ, BNP, BEV
    (0x4809_0203, FORWARD, IS_NOT_NEGATIVE),
    (0x4909_0203, BACKWARD, IS_NOT_NEGATIVE),
    (0x4a09_0203, FORWARD, IS_NOT_ZERO),
    (0x4b09_0203, BACKWARD, IS_NOT_ZERO),
    (0x4c09_0203, FORWARD, IS_NOT_POSITIVE),
    (0x4d09_0203, BACKWARD, IS_NOT_POSITIVE),
    (0x4e09_0203, FORWARD, IS_EVEN),
    (0x4f09_0203, BACKWARD, IS_EVEN),
    // PBN, PBZ, PBP, PBOD
    (0x5009_0203, FORWARD, IS_NEGATIVE),
    (0x5109_0203, BACKWARD, IS_NEGATIVE),
    (0x5209_0203, FORWARD, IS_ZERO),
    (0x5309_0203, BACKWARD, IS_ZERO),
    (0x5409_0203, FORWARD, IS_POSITIVE),
    (0x5509_0203, BACKWARD, IS_POSITIVE),
    (0x5609_0203, FORWARD, IS_ODD),
    (0x5709_0203, BACKWARD, IS_ODD),
    // PBNN, PBNZ, PBNP, PBEV
    (0x5809_0203, FORWARD, IS_NOT_NEGATIVE),
    (0x5909_0203, BACKWARD, IS_NOT_NEGATIVE),
    (0x5a09_0203, FORWARD, IS_NOT_ZERO),
    (0x5b09_0203, BACKWARD, IS_NOT_ZERO),
    (0x5c09_0203, FORWARD, IS_NOT_POSITIVE),
    (0x5d09_0203, BACKWARD, IS_NOT_POSITIVE),
    (0x5e09_0203, FORWARD, IS_EVEN),
    (0x5f09_0203, BACKWARD, IS_EVEN),
];

/// What $9 and $3 have before a conditional set.
const OLD: u64 = 0x1234;

const THIRD: u64 = 0x5678;

/// The tetra, what $9 gets where the condition holds of $2, what it has otherwise, and where it holds.
static SETS: [(u32, u64, u64, Holds); 32] = [
    // CSN, CSZ, CSP, CSOD
    (0x6009_0203, THIRD, OLD, IS_NEGATIVE),
    (0x6109_0203, 3, OLD, IS_NEGATIVE),
    (0x6209_0203, THIRD, OLD, IS_ZERO),
    (0x6309_0203, 3, OLD, IS_ZERO),
    (0x6409_0203, THIRD, OLD, IS_POSITIVE),
    (0x6509_0203, 3, OLD, IS_POSITIVE),
    (0x6609_0203, THIRD, OLD, IS_ODD),
    (0x6709_0203, 3, OLD, IS_ODD),
    // CSNN, CSNZ, CSNP, CSEV
    (0x6809_0203, THIRD, OLD, IS_NOT_NEGATIVE),
    (0x6909_0203, 3, OLD, IS_NOT_NEGATIVE),
    (0x6a09_0203, THIRD, OLD, IS_NOT_ZERO),
    (0x6b09_0203, 3, OLD, IS_NOT_ZERO),
    (0x6c09_0203, THIRD, OLD, IS_NOT_POSITIVE),
    (0x6d09_0203, 3, OLD, IS_NOT_POSITIVE),
    (0x6e09_0203, THIRD, OLD, IS_EVEN),
    (0x6f09_0203, 3, OLD, IS_EVEN),
    // ZSN, ZSZ, ZSP, ZSOD
    (0x7009_0203, THIRD, 0, IS_NEGATIVE),
    (0x7109_0203, 3, 0, IS_NEGATIVE),
    (0x7209_0203, THIRD, 0, IS_ZERO),
    (0x7309_0203, 3, 0, IS_ZERO),
    (0x7409_0203, THIRD, 0, IS_POSITIVE),
    (0x7509_0203, 3, 0, IS_POSITIVE),
    (0x7609_0203, THIRD, 0, IS_ODD),
    (0x7709_0203, 3, 0, IS_ODD),
    // ZSNN, ZSNZ, ZSNP, ZSEV
    (0x7809_0203, THIRD, 0, IS_NOT_NEGATIVE),
    (0x7909_0203, 3, 0, IS_NOT_NEGATIVE),
    (0x7a09_0203, THIRD, 0, IS_NOT_ZERO),
    (0x7b09_0203, 3, 0, IS_NOT_ZERO),
    (0x7c09_0203, THIRD, 0, IS_NOT_POSITIVE),
    (0x7d09_0203, 3, 0, IS_NOT_POSITIVE),
    (0x7e09_0203, THIRD, 0, IS_EVEN),
    (0x7f09_0203, 3, 0, IS_EVEN),
];

/// Checks that a branch goes to its address where it should, and on otherwise.
fn branches(alloc: Global, word: u32, to: u64, holds: &Holds) -> Result<(), Fail> {
    for k in 0..5 {
        let x = VALUES[k];
        let next = if holds[k] { to } else { NEXT };
        let due = Due {
            next,
            register: (9, x),
            ..GOES_ON
        };
        check_goes_on(alloc, &Given { word, x, ..PLAIN }, &due)?;
    }
    Ok(())
}

/// Checks that $9 gets a value where it should, and the other one otherwise.
fn chooses(alloc: Global, word: u32, set: u64, other: u64, holds: &Holds) -> Result<(), Fail> {
    for k in 0..5 {
        let given = Given {
            word,
            x: OLD,
            y: VALUES[k],
            z: THIRD,
            ..PLAIN
        };
        let value = if holds[k] { set } else { other };
        check_goes_on(alloc, &given, &due_value(value))?;
    }
    Ok(())
}

#[test]
fn conditions_of_branches(rt: HostRuntime) -> Result<(), Fail> {
    for (word, to, holds) in &BRANCHES {
        branches(rt.alloc(), *word, *to, holds)?;
    }
    Ok(())
}

#[test]
fn conditions_of_sets(rt: HostRuntime) -> Result<(), Fail> {
    for (word, set, other, holds) in &SETS {
        chooses(rt.alloc(), *word, *set, *other, holds)?;
    }
    Ok(())
}
