//! What is explained.

ghost use Rattle.std.specs.Prelude.{◌≡◌};
ghost use Rattle.mx_explain.specs.Topics as spec;

use mx_outcome::{fault_name, usage_name};

/// What a row is about: a number of the program, or a name of MMIXAL.
#[derive(Clone, Copy, PartialEq, Eq)]
pub enum Topic {
    /// A fault of a source.
    Source(u16),
    /// A fault of an object.
    Object(u16),
    /// A reason why a run is stopped.
    Stop(u16),
    /// A command-line error.
    Kind(u16),
    /// A warning of a source.
    Warning(u16),
    /// A status that a program ends with.
    Status(u16),
    /// A number of a part of the program, which no message has.
    Inside(u16),
    /// An operation of MMIXAL that the machine performs or that the assembler carries out.
    Operation,
    /// An instruction that the machine does not perform.
    Unperformed,
    /// A predefined symbol.
    Symbol,
}

/// A row as the tables have it: its topic; the name of a warning, a status, an operation or a symbol, and no text where a number has
/// its name from the tables of the program; sentences, of an operation after a line that says what it does in the notation of the
/// book; an example, or no text; and what mends the example, or no text where it is good.
pub type Entry = (
    Topic,
    &'static str,
    &'static str,
    &'static str,
    &'static str,
);

/// A row: what it is about, its own name if it has one, its sentences, its example, and what mends that.
#[derive(Clone, Copy)]
pub struct Row {
    pub topic: Topic,
    pub name: &'static str,
    pub says: &'static str,
    pub example: &'static str,
    pub mended: &'static str,
}

/// The row of an entry.
pub fn row_of(entry: &Entry) -> Row
    ensures { spec.seen result ≡ spec.row entry.now.0 entry.now.1.now entry.now.2.now entry.now.3.now entry.now.4.now }
{
    let (topic, name, says, example, mended) = entry;
    Row {
        topic: *topic,
        name,
        says,
        example,
        mended,
    }
}

/// The number of a topic, if it has one.
pub(crate) fn number_of(topic: Topic) -> Option<u16>
    ensures { result ≡ spec.number_of topic }
{
    match topic {
        Topic::Source(number)
        | Topic::Object(number)
        | Topic::Stop(number)
        | Topic::Kind(number)
        | Topic::Warning(number)
        | Topic::Status(number)
        | Topic::Inside(number) => Some(number),
        Topic::Operation | Topic::Unperformed | Topic::Symbol => None,
    }
}

/// The name of a topic, where a row has this one.
pub(crate) fn topic_name(topic: Topic, given: &'static str) -> &'static str
    ensures { result.now ≡ spec.topic_name topic given.now }
{
    match topic {
        Topic::Kind(number) => usage_name(number),
        Topic::Source(number)
        | Topic::Object(number)
        | Topic::Stop(number)
        | Topic::Inside(number) => { fault_name(number) }
        Topic::Warning(_)
        | Topic::Status(_)
        | Topic::Operation
        | Topic::Unperformed
        | Topic::Symbol => given,
    }
}

/// The name of a row: no text where the tables have no name of its number.
pub fn name_of(row: Row) -> &'static str
    ensures { result.now ≡ spec.name_of (spec.seen row) }
{
    topic_name(row.topic, row.name)
}
