//! How often each instruction was carried out.

ghost use Rattle.std.specs.Prelude.{◌≡◌, ◌++◌, ◌<◌, IfOk, OnOk, replicate};
ghost use Rattle.mx_watch.specs.Profiles as spec;
ghost use Rattle.mx_watch.specs.Profiles.{profiling};

use crate::numbers::add_count;
use crate::{Watcher, Wish};
use mx_core::Trace;
use mx_ops::name;
use mx_text::byte_hex;
use mx_word::{Bytes, NoMemory};
use std::alloc::Global;

/// A watcher that counts for each code how many steps fetched an instruction of it. It is never full.
#[derive(Drop)]
pub struct Profile {
    counts: [u64; 256],
    alloc: Global,
}

impl Profile {
    /// A profile of no steps.
    ///
    /// Errors: out of memory.
    pub fn new(alloc: Global) -> Result<Profile, NoMemory>
        ensures { IfOk result (λ p. ⟦<Profile as Watcher>⟧.meaning p ≡ profiling (replicate 256 0)) }
    {
        Ok(Profile {
            counts: [0; 256],
            alloc,
        })
    }
}

impl Watcher for Profile {
    ghost meaning = { λ p. profiling p.counts };

    fn tell(&mut self, t: &Trace) -> Result<Wish, NoMemory> {
        count_one(&mut self.counts, (t.word >> 24) as u8);
        Ok(Wish::More)
    }

    #[tactic(auto, unfolding(crate::specs::Profiles::counts_after))]
    fn summary(&self) -> Result<Bytes, NoMemory> {
        let mut text = Bytes::new(self.alloc);
        add_lines(&mut text, &self.counts)?;
        Ok(text)
    }
}

/// Counts a step of a code.
fn count_one(counts: &mut [u64; 256], code: u8)
    ensures { counts.new ≡ spec.one_more counts.old code }
{
    counts[usize::from(code)] = counts[usize::from(code)].saturating_add(1);
}

/// Adds the lines of all codes.
#[tactic(auto, using(crate::proofs::Profiled::lines))]
fn add_lines(text: &mut Bytes, counts: &[u64; 256]) -> Result<(), NoMemory>
    ensures { OnOk result (text.new ≡ text.old ++ spec.profile_text counts.now) }
{
    for code in 0..256 {
        add_line(text, code as u8, counts[code])?;
    }
    Ok(())
}

/// Adds the line of a code, where it occurs.
fn add_line(text: &mut Bytes, code: u8, count: u64) -> Result<(), NoMemory>
    ensures { OnOk result (text.new ≡ text.old ++ spec.profile_line code count) }
{
    if count == 0 {
        return Ok(());
    }
    text.extend(b"profile ")?;
    text.extend(&byte_hex(code))?;
    text.push(b' ')?;
    text.extend(name(code).as_bytes())?;
    text.push(b' ')?;
    add_count(text, count)?;
    text.push(b'\n')
}
