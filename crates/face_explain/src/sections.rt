//! The sections of the table.

ghost use Rattle.std.specs.Prelude.{◌≡◌, map};
ghost use Rattle.mx_explain.specs.Topics.{row};
ghost use Rattle.face_explain.specs.Tables as spec;
ghost use Rattle.face_explain.specs.Tables.{seen_part};

use mx_explain::{
    Entry, event_rows, file_rows, more_register_rows, other_rows, pseudo_rows, register_rows,
    service_rows,
};
use mx_messages::{
    expression_rows, inside_rows, kind_rows, line_rows, loading_rows, object_rows, place_rows,
    source_rows, statement_rows, status_rows, stop_rows, trap_rows, trie_rows, warning_rows,
};
use mx_operations::{
    arithmetic_rows, bit_rows, branch_rows, byte_rows, comparison_rows, float_rows, hint_rows,
    jump_rows, load_rows, more_float_rows, set_rows, store_rows, system_rows, wyde_rows,
};

/// A section of the table.
#[derive(Clone, Copy)]
pub(crate) enum Section {
    Lines,
    Expressions,
    Statements,
    Places,
    Sources,
    Warnings,
    Objects,
    Tries,
    Loading,
    Stops,
    Traps,
    Kinds,
    Statuses,
    Inside,
    Arithmetic,
    Comparisons,
    Bits,
    Bytes,
    Wydes,
    Branches,
    Sets,
    Loads,
    Stores,
    Hints,
    Jumps,
    System,
    Floats,
    MoreFloats,
    PseudoOperations,
    Registers,
    MoreRegisters,
    Events,
    Files,
    Services,
    Others,
}

/// The sections in their order.
pub(crate) static ALL: [Section; 35] = [
    Section::Lines,
    Section::Expressions,
    Section::Statements,
    Section::Places,
    Section::Sources,
    Section::Warnings,
    Section::Objects,
    Section::Tries,
    Section::Loading,
    Section::Stops,
    Section::Traps,
    Section::Kinds,
    Section::Statuses,
    Section::Inside,
    Section::Arithmetic,
    Section::Comparisons,
    Section::Bits,
    Section::Bytes,
    Section::Wydes,
    Section::Branches,
    Section::Sets,
    Section::Loads,
    Section::Stores,
    Section::Hints,
    Section::Jumps,
    Section::System,
    Section::Floats,
    Section::MoreFloats,
    Section::PseudoOperations,
    Section::Registers,
    Section::MoreRegisters,
    Section::Events,
    Section::Files,
    Section::Services,
    Section::Others,
];

/// What a section has: its title, its entries, how wide its columns are in a list, and how many cells of a line have one to
/// their right.
#[derive(Clone, Copy)]
pub(crate) struct Part {
    pub(crate) title: &'static str,
    pub(crate) entries: &'static [Entry],
    pub(crate) width: usize,
    pub(crate) most: usize,
}

/// All sections, in order.
#[tactic(auto, unfolding(crate::specs::Tables::sections))]
pub(crate) fn all() -> &'static [Section]
    ensures { result.now ≡ spec.sections }
{
    &ALL
}

/// A section of numbers with their names.
fn numbers_section(title: &'static str, entries: &'static [Entry]) -> Part
    ensures { seen_part result ≡ spec.numbers_section title.now (map (λ e. row e.0 e.1.now e.2.now e.3.now e.4.now) entries.now) }
{
    Part {
        title,
        entries,
        width: 24,
        most: 2,
    }
}

/// A section of operations or registers.
fn operations_section(title: &'static str, entries: &'static [Entry]) -> Part
    ensures { seen_part result ≡ spec.operations_section title.now (map (λ e. row e.0 e.1.now e.2.now e.3.now e.4.now) entries.now) }
{
    Part {
        title,
        entries,
        width: 8,
        most: 8,
    }
}

/// A section of symbols.
fn symbols_section(title: &'static str, entries: &'static [Entry]) -> Part
    ensures { seen_part result ≡ spec.symbols_section title.now (map (λ e. row e.0 e.1.now e.2.now e.3.now e.4.now) entries.now) }
{
    Part {
        title,
        entries,
        width: 18,
        most: 3,
    }
}

/// What a section has.
pub(crate) fn part_of(section: Section) -> Part
    ensures { seen_part result ≡ spec.part_of section }
{
    match section {
        Section::Lines => numbers_section("Faults of a line", line_rows()),
        Section::Expressions => numbers_section("Faults of an expression", expression_rows()),
        Section::Statements => numbers_section("Faults of a statement", statement_rows()),
        Section::Places => numbers_section("Faults of addresses and labels", place_rows()),
        Section::Sources => numbers_section("Faults of a source as a whole", source_rows()),
        Section::Warnings => numbers_section("Warnings of a source", warning_rows()),
        Section::Objects => numbers_section("Faults of an object", object_rows()),
        Section::Tries => numbers_section("Faults of the symbols of an object", trie_rows()),
        Section::Loading => numbers_section("Faults of an object that is loaded", loading_rows()),
        Section::Stops => numbers_section("Reasons of a stop", stop_rows()),
        Section::Traps => numbers_section("Reasons of a stop of RESUME or TRAP", trap_rows()),
        Section::Kinds => numbers_section("Command-line errors", kind_rows()),
        Section::Statuses => numbers_section("Exit statuses", status_rows()),
        Section::Inside => numbers_section("Numbers inside the program", inside_rows()),
        Section::Arithmetic => operations_section("Instructions on numbers", arithmetic_rows()),
        Section::Comparisons => operations_section(
            "Comparisons, negations, shifts and copies",
            comparison_rows(),
        ),
        Section::Bits => operations_section("Instructions on bits", bit_rows()),
        Section::Bytes => operations_section("Instructions on bytes and single bits", byte_rows()),
        Section::Wydes => operations_section("Instructions on wydes", wyde_rows()),
        Section::Branches => operations_section("Branches", branch_rows()),
        Section::Sets => operations_section("Registers that are set by a condition", set_rows()),
        Section::Loads => operations_section("Loads", load_rows()),
        Section::Stores => operations_section("Stores", store_rows()),
        Section::Hints => operations_section("Hints to the cache", hint_rows()),
        Section::Jumps => operations_section(
            "Jumps, subroutines and special registers",
            jump_rows(),
        ),
        Section::System => operations_section("Trips, traps and the state", system_rows()),
        Section::Floats => operations_section(
            "Instructions on floating-point numbers",
            float_rows(),
        ),
        Section::MoreFloats => operations_section(
            "More instructions on floating-point numbers",
            more_float_rows(),
        ),
        Section::PseudoOperations => operations_section("Pseudo-operations", pseudo_rows()),
        Section::Registers => operations_section("Special registers", register_rows()),
        Section::MoreRegisters => operations_section(
            "More special registers",
            more_register_rows(),
        ),
        Section::Events => symbols_section("Bits and handlers of events", event_rows()),
        Section::Files => symbols_section("Handles and modes of files", file_rows()),
        Section::Services => symbols_section("Services of TRAP", service_rows()),
        Section::Others => symbols_section("Other predefined symbols", other_rows()),
    }
}
