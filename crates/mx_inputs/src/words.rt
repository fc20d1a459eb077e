//! The words of a view that runs a program: its options, those of `mmixware run`, then the file and the arguments of the program.

ghost use Rattle.std.specs.Prelude.{◌<◌, ◌≤◌, IfOk, length};

use mx_word::{NoMemory, Sequence};
use mx_words::{Order, WordsFault, read};
use std::alloc::Global;

/// The option that a view has beside those of every view that runs a program, and whether a value follows it.
#[derive(Clone, Copy)]
pub struct OwnOption {
    pub name: &'static str,
    pub has_value: bool,
}

/// What is named by the words, by places among them: the view's own option, or its value; the file of the standard input; the
/// files that the program is to find; and the number of steps. And the words with which `mmixware run` does the same run, each
/// with its place.
#[derive(Drop)]
pub struct Named {
    pub own: Option<usize>,
    pub input: Option<usize>,
    pub files: Sequence<usize>,
    pub steps: Option<usize>,
    pub words: Vec<String>,
    places: Vec<usize>,
}

/// What a word is in front of the file.
#[derive(Clone, Copy)]
enum Kind {
    Own,
    Input,
    File,
    Steps,
    Ring,
    Unknown,
    Source,
}

/// Why words are no order.
pub enum Unread {
    Fault(WordsFault),
    OutOfMemory,
}

impl From<NoMemory> for Unread {
    fn from(_error: NoMemory) -> Unread {
        Unread::OutOfMemory
    }
}

/// What a word is in front of the file.
fn kind_of(own: OwnOption, word: &str) -> Kind {
    if word == own.name {
        return Kind::Own;
    }
    match word {
        "--input" => Kind::Input,
        "--file" => Kind::File,
        "--steps" => Kind::Steps,
        "--ring" => Kind::Ring,
        _ => {
            if word.as_bytes().first() == Some(&b'-') {
                Kind::Unknown
            } else {
                Kind::Source
            }
        }
    }
}

impl Named {
    /// Nothing, before the words.
    fn new(alloc: Global) -> Result<Named, NoMemory> {
        let mut words = Vec::new(alloc);
        words.push(String::from_str(alloc, "run")?)?;
        let mut places = Vec::new(alloc);
        places.push(0usize)?;
        Ok(Named {
            own: None,
            input: None,
            files: Sequence::new(alloc),
            steps: None,
            words,
            places,
        })
    }

    /// Adds a word of those of `mmixware run`.
    fn add(&mut self, alloc: Global, word: &str, place: usize) -> Result<(), NoMemory> {
        self.words.push(String::from_str(alloc, word)?)?;
        self.places.push(place)?;
        Ok(())
    }

    /// Takes the value of an option.
    fn set(&mut self, alloc: Global, kind: Kind, word: &str, place: usize) -> Result<(), NoMemory> {
        match kind {
            Kind::Own => self.own = Some(place),
            Kind::Input => self.input = Some(place),
            Kind::File => self.files.push(place)?,
            Kind::Steps => {
                self.steps = Some(place);
                self.add(alloc, word, place)?;
            }
            Kind::Ring | Kind::Unknown | Kind::Source => {
                self.add(alloc, word, place)?;
            }
        }
        Ok(())
    }

    /// The place among the words of the view that a word of those of `mmixware run` has; after them it is that of the next word.
    fn place_of(&self, word: usize, next: usize) -> usize {
        match self.places.as_slice().get(word) {
            Some(place) => *place,
            None => next,
        }
    }
}

/// What was read of the words so far: an option that awaits its value, and whether the file was there.
#[derive(Drop)]
struct Reading {
    named: Named,
    awaiting: Option<Kind>,
    has_file: bool,
}

impl Reading {
    /// Takes a word where an option or the file is due.
    fn take_option(
        &mut self,
        alloc: Global,
        own: OwnOption,
        word: &str,
        place: usize,
    ) -> Result<(), Unread> {
        let kind = kind_of(own, word);
        match kind {
            Kind::Unknown => {
                return Err(Unread::Fault(WordsFault {
                    kind: 3,
                    word: place,
                }));
            }
            Kind::Source => self.has_file = true,
            Kind::Own if !own.has_value => self.named.own = Some(place),
            Kind::Own | Kind::Input | Kind::File | Kind::Steps | Kind::Ring => self.awaiting = Some(
                kind,
            ),
        }
        match kind {
            Kind::Source | Kind::Steps | Kind::Ring => Ok(self.named.add(alloc, word, place)?),
            _ => Ok(()),
        }
    }

    /// Takes a word.
    fn take(
        &mut self,
        alloc: Global,
        own: OwnOption,
        word: &str,
        place: usize,
    ) -> Result<(), Unread> {
        if self.has_file {
            return Ok(self.named.add(alloc, word, place)?);
        }
        match self.awaiting {
            Some(kind) => {
                self.awaiting = None;
                Ok(self.named.set(alloc, kind, word, place)?)
            }
            None => self.take_option(alloc, own, word, place),
        }
    }
}

/// What the words after the name of a view name. Places count that name as 0.
fn read_named(alloc: Global, own: OwnOption, words: &[String]) -> Result<Named, Unread> {
    let mut reading = Reading {
        named: Named::new(alloc)?,
        awaiting: None,
        has_file: false,
    };
    for (place, word) in words.iter().enumerate() {
        reading.take(alloc, own, word.as_str(), place.saturating_add(1))?;
    }
    if reading.awaiting.is_some() {
        return Err(Unread::Fault(WordsFault {
            kind: 4,
            word: words.len().saturating_add(1),
        }));
    }
    Ok(reading.named)
}

/// What the words order, and what they name.
#[derive(Drop)]
pub struct Ordered {
    pub named: Named,
    pub order: Order,
}

/// What the words after the name of a view order.
pub fn read_order(alloc: Global, own: OwnOption, words: &[String]) -> Result<Ordered, Unread>
    ensures { IfOk result (λ o. (o.order.file < length o.named.words.items) × (o.order.rest ≤ length o.named.words.items)) }
{
    let named = read_named(alloc, own, words)?;
    match read(named.words.as_slice()) {
        Ok(order) => Ok(Ordered { named, order }),
        Err(fault) => Err(Unread::Fault(WordsFault {
            kind: fault.kind,
            word: named.place_of(fault.word, words.len().saturating_add(1)),
        })),
    }
}
