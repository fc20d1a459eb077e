//! How far loading has come.

ghost use Rattle.std.specs.Prelude.{◌≡◌, ◌≢◌, ◌≤◌, ◌+◌, ◌==◌, true, Ok, Err, if◌then◌else◌};
ghost use Rattle.mx_mmo.specs.Meaning as spec;
ghost use Rattle.mx_mmo.specs.Meaning.{nothing, after_load, lined, with_image, with_name, noted, take_item};
ghost use Rattle.mx_mmo.specs.Valid.{Fits};
ghost use Rattle.mx_load.specs.Faults.{told, given};
ghost use Rattle.mx_load.specs.Status.{GoesOn, loading_of};

use crate::{Image, LoadFault};
use mx_mmo::Item;
use mx_word::Bytes;
use std::alloc::Global;
use std::collections::BTreeSet;

/// How far loading has come: the image so far, lambda, the line in force, whether a file is
/// selected, and the numbers of the files that were named.
#[derive(Drop)]
pub struct Progress {
    pub image: Image,
    pub lambda: u64,
    pub line: u32,
    pub selected: bool,
    pub named: BTreeSet<u8>,
}

/// The address this many tetras before another.
fn tetras_before(n: u32, a: u64) -> u64
    ensures { result ≡ spec.tetras_before n a }
{
    a.wrapping_sub(4 * u64::from(n))
}

/// The address this many tetras after another.
fn tetras_following(n: u32, a: u64) -> u64
    ensures { result ≡ spec.tetras_following n a }
{
    a.wrapping_add(4 * u64::from(n))
}

/// The address where a far fix joins its tetra.
fn far_place(a: u64, bits: u8, t: u32) -> u64
    requires { bits ≤ 24 }
    ensures { result ≡ spec.far_place a bits t }
{
    if t >= 1 << 24 {
        tetras_following(1 << bits, tetras_before(t % (1 << 24), a))
    } else {
        tetras_before(t, a)
    }
}

/// The line in force after a tetra.
fn next_line(line: u32) -> u32
    ensures { result ≡ spec.next_line line }
{
    if line == 0 { 0 } else { line.saturating_add(1) }
}

impl Progress {
    /// Nothing was taken so far.
    pub fn new(alloc: Global) -> Progress
        ensures { loading_of result ≡ nothing }
    {
        Progress {
            image: Image::empty(alloc),
            lambda: 0,
            line: 0,
            selected: false,
            named: BTreeSet::new(alloc),
        }
    }

    /// Notes the line in force, where one is, for the tetra at lambda, and goes on to the next line. Mostly none is.
    #[inline(always)]
    fn count_line(&mut self) -> Result<(), LoadFault>
        ensures { GoesOn result self.old self.new
            (λ s. Ok (record s { image = noted s s.image; line = spec.next_line s.line })) }
    {
        if self.line == 0 {
            return Ok(());
        }
        self.note_line()
    }

    /// Notes the number of the line in force for the tetra at lambda, also where it is 0, and goes on to the next line.
    /// It is a call, so that a tetra without a line pays for none of it.
    #[inline(never)]
    fn note_line(&mut self) -> Result<(), LoadFault>
        ensures { GoesOn result self.old self.new (λ s. Ok (record s {
          image = record s.image { line_of = lined s.image.line_of s.lambda s.line };
          line = spec.next_line s.line;
        })) }
    {
        self.image.note(self.lambda, self.line)?;
        self.line = next_line(self.line);
        Ok(())
    }

    /// Goes on after the tetra that was joined at lambda.
    #[inline(always)]
    fn advance(&mut self) -> Result<(), LoadFault>
        ensures { GoesOn result self.old self.new (λ s. after_load s (Ok s.image)) }
    {
        self.count_line()?;
        self.lambda = (4 * (self.lambda / 4)).wrapping_add(4);
        Ok(())
    }

    /// Loads a tetra at lambda.
    #[inline(always)]
    pub(crate) fn load(&mut self, t: u32) -> Result<(), LoadFault>
        ensures { GoesOn result self.old self.new (λ s. after_load s (spec.join s.image s.lambda t)) }
    {
        self.image.join(self.lambda, t)?;
        self.advance()
    }

    /// Joins a tetra at an address.
    fn fix(&mut self, a: u64, t: u32) -> Result<(), LoadFault>
        ensures { GoesOn result self.old self.new (λ s. with_image s (spec.join s.image a t)) }
    {
        self.image.join(a, t)
    }

    /// Joins lambda, as an octa, at an address.
    fn fix_octa(&mut self, a: u64) -> Result<(), LoadFault>
        ensures { GoesOn result self.old self.new (λ s. with_image s (spec.join_octa s.image a s.lambda)) }
    {
        self.image.join_octa(a, self.lambda)
    }

    /// Selects a file that is named here.
    fn select_named(&mut self, number: u8) -> Result<(), LoadFault>
        ensures { GoesOn result self.old self.new
            (λ s. Ok (record s { selected = true; named = with_name s.named number })) }
    {
        self.named.insert(number)?;
        self.selected = true;
        Ok(())
    }

    /// Selects a file, which is named here or has to have been named before.
    fn select(&mut self, number: u8, name: &Option<Bytes>) -> Result<(), LoadFault>
        ensures { GoesOn result self.old self.new (λ s. spec.select s number name.now) }
    {
        if name.is_some() {
            return self.select_named(number);
        }
        if !self.named.contains(&number) {
            return Err(LoadFault::NoFile);
        }
        self.selected = true;
        Ok(())
    }

    /// Sets the line in force, for which a file has to be selected.
    fn set_line(&mut self, n: u16) -> Result<(), LoadFault>
        ensures { let s = loading_of self.old in given result (loading_of self.new)
            ≡ told (if s.selected then Ok (record s { line = n }) else Err spec.NoFile) }
    {
        if !self.selected {
            return Err(LoadFault::NoFile);
        }
        self.line = u32::from(n);
        Ok(())
    }

    /// Takes the next item.
    pub fn take(&mut self, item: &Item) -> Result<(), LoadFault>
        requires { Fits item.now }
        ensures { GoesOn result self.old self.new (λ s. take_item s item.now) }
    {
        match item {
            Item::Load(t) => self.load(*t),
            Item::Loc(a) => {
                self.lambda = *a;
                Ok(())
            }
            Item::Skip(n) => {
                self.lambda = self.lambda.wrapping_add(u64::from(*n));
                Ok(())
            }
            Item::FixOcta(a) => self.fix_octa(*a),
            Item::FixNear(n) => {
                let n = u32::from(*n);
                self.fix(tetras_before(n, self.lambda), n)
            }
            Item::FixFar { bits, word } => self.fix(far_place(self.lambda, *bits, *word), *word),
            Item::File { number, name } => self.select(*number, name),
            Item::Line(n) => self.set_line(*n),
            Item::Post { g, values } => self.image.set_globals(*g, values.as_slice()),
            Item::Spec(_) | Item::Pre(_) | Item::Stab => Ok(()),
        }
    }
}
