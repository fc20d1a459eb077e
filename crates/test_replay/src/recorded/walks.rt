//! Records that are applied one after another, back and forth.

ghost use Rattle.std.specs.Prelude.{IfSome};
ghost use Rattle.mx_record.specs.Recording.{IsReady};

use crate::programs::{DEEP, ECHOES, FRAMES, SUMS, TRIPS, program};
use crate::recorded::pictures::Picture;
use mx_record::{Record, Recorder};
use mx_run::End;
use std::alloc::Global;

/// Makes the next turn, and adds its record, which leads to the picture of the machine. Nothing where it does not.
fn walk_on(recorder: &mut Recorder, picture: &mut Picture, records: &mut Vec<Record>) -> Option<()>
    requires { IsReady recorder.old }
    ensures { IfSome result (λ _. IsReady recorder.new) }
{
    let End::Spent = recorder.end() else {
        return Some(());
    };
    let (record, _trace) = recorder.next().ok()?;
    picture.apply(&record).ok()?;
    if !picture.is_of(recorder.machine()) {
        return None;
    }
    records.push(record).ok()?;
    Some(())
}

/// Makes up to 1,000 turns.
fn walk_along(
    recorder: &mut Recorder,
    picture: &mut Picture,
    records: &mut Vec<Record>,
) -> Option<()>
    requires { IsReady recorder.old }
{
    for _ in 0..1000u32 {
        walk_on(recorder, picture, records)?;
    }
    Some(())
}

/// Whether records lead back to the picture in which everything is 0.
fn leads_back(picture: &mut Picture, records: &[Record], start: &Record) -> Option<bool> {
    for record in records.iter().rev() {
        picture.apply(record).ok()?;
    }
    picture.apply(start).ok()?;
    Some(picture.is_zero())
}

/// How many turns a run has that begins so; nothing where a record does not lead to the picture of the machine, or the records do not
/// lead back.
fn walk_from(alloc: Global, recorder: &mut Recorder, start: &Record) -> Option<usize>
    requires { IsReady recorder.old }
{
    let mut picture = Picture::new(alloc);
    let mut records = Vec::new(alloc);
    picture.apply(start).ok()?;
    if !picture.is_of(recorder.machine()) {
        return None;
    }
    walk_along(recorder, &mut picture, &mut records)?;
    if leads_back(&mut picture, records.as_slice(), start)? {
        Some(records.len())
    } else {
        None
    }
}

/// The same of the run of a source with the input `abc`.
fn walk(alloc: Global, source: &str) -> Option<usize> {
    let program = program(alloc, source, "abc")?;
    match Recorder::begin(alloc, program) {
        Ok((mut recorder, start)) => walk_from(alloc, &mut recorder, &start),
        Err(_) => None,
    }
}

/// The number of the first program whose run is not told by its records, and how many turns it has.
fn find_recording_mismatch(alloc: Global) -> Option<(usize, Option<usize>)> {
    let runs = [
        (ECHOES, 21),
        (SUMS, 22),
        (DEEP, 565),
        (FRAMES, 18),
        (TRIPS, 15),
    ];
    for (number, (source, turns)) in runs.iter().enumerate() {
        let made = walk(alloc, source);
        if made != Some(*turns) {
            return Some((number, made));
        }
    }
    None
}

#[test]
fn records_lead_along_the_run_and_back(rt: HostRuntime) {
    let wrong = find_recording_mismatch(rt.alloc());
    assert_eq!(rt; wrong, None);
}
