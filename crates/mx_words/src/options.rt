//! The options before the file.

ghost use Rattle.std.specs.Prelude.{◌≡◌, ◌<◌, ◌≤◌, ◌+◌, ◌^◌, length, map, drop, string_bytes, IfOk};
ghost use Rattle.mx_words.specs.OneOption as spec;
ghost use Rattle.mx_words.specs.Orders as orders;

use crate::order::{Command, WordsFault};
use crate::settings::Settings;
use crate::values::{last_value, ring_value, steps_value};

/// Whether a command runs a file that the words name.
fn is_file_command(command: Command) -> bool
    ensures { result ≡ orders.runs_file command }
{
    matches!(command, Command::Run | Command::Sim)
}

/// Whether a command makes steps of an image up to a number, and may show memory at the end.
fn has_step_options(command: Command) -> bool
    ensures { result ≡ orders.takes_steps command }
{
    matches!(command, Command::Run | Command::Sim | Command::Multi)
}

/// Whether a command runs a program on a ring.
fn has_ring_option(command: Command) -> bool
    ensures { result ≡ orders.takes_ring command }
{
    matches!(
        command,
        Command::Run | Command::Sim | Command::Gen | Command::Multi
    )
}

/// Whether a word is `-i`, where the command takes it.
fn is_console(command: Command, word: &String) -> bool
    ensures { result ≡ orders.is_console command (string_bytes word.now) }
{
    is_file_command(command) && word.as_str() == "-i"
}

/// Whether a word is `--report`, where the command takes it.
fn is_report(command: Command, word: &String) -> bool
    ensures { result ≡ orders.is_report command (string_bytes word.now) }
{
    is_file_command(command) && word.as_str() == "--report"
}

/// Whether a word is `--last`, where the command takes it.
fn is_last(command: Command, word: &String) -> bool
    ensures { result ≡ orders.is_last command (string_bytes word.now) }
{
    is_file_command(command) && word.as_str() == "--last"
}

/// Whether a word is `--dump`, where the command takes it.
fn is_dump(command: Command, word: &String) -> bool
    ensures { result ≡ orders.is_dump command (string_bytes word.now) }
{
    has_step_options(command) && word.as_str() == "--dump"
}

/// Whether a word is `--steps`, where the command takes it.
fn is_steps(command: Command, word: &String) -> bool
    ensures { result ≡ orders.is_steps command (string_bytes word.now) }
{
    has_step_options(command) && word.as_str() == "--steps"
}

/// Whether a word is `--ring`, where the command takes it.
fn is_ring(command: Command, word: &String) -> bool
    ensures { result ≡ orders.is_ring command (string_bytes word.now) }
{
    has_ring_option(command) && word.as_str() == "--ring"
}

/// `-i` at a place: not after `--report` or `--last`.
fn with_console(settings: Settings, at: usize) -> Result<(Settings, usize), WordsFault>
    requires { at + 1 < 2 ^ 64 }
    ensures value { result ≡ spec.console_read settings at }
    ensures onward { IfOk result (λ next. at < next.1) }
{
    if settings.report || settings.last != 0 {
        return Err(WordsFault { kind: 10, word: at });
    }
    Ok((
        Settings {
            interactive: true,
            ..settings
        },
        at + 1,
    ))
}

/// `--report` at a place: not after `-i` or `--last`.
fn with_report(settings: Settings, at: usize) -> Result<(Settings, usize), WordsFault>
    requires { at + 1 < 2 ^ 64 }
    ensures value { result ≡ spec.report_read settings at }
    ensures onward { IfOk result (λ next. at < next.1) }
{
    if settings.interactive || settings.last != 0 {
        return Err(WordsFault { kind: 10, word: at });
    }
    Ok((
        Settings {
            report: true,
            ..settings
        },
        at + 1,
    ))
}

/// The option at a place: what is set then, and the place of the next word. A fault is 3, 4, 5, 6 or 10.
#[tactic(auto, using(crate::proofs::Places::places))]
pub(crate) fn read_option(
    command: Command,
    settings: Settings,
    words: &[String],
    at: usize,
) -> Result<(Settings, usize), WordsFault>
    requires { at < length words.now }
    ensures value { result ≡ spec.option_at command settings at (drop at (map string_bytes words.now)) }
    ensures onward { IfOk result (λ next. at < next.1) }
{
    let word = &words[at];
    if is_console(command, word) {
        return with_console(settings, at);
    }
    if is_report(command, word) {
        return with_report(settings, at);
    }
    if is_last(command, word) {
        return with_last(settings, words, at);
    }
    if is_dump(command, word) {
        return Ok((
            Settings {
                dump: true,
                ..settings
            },
            at + 1,
        ));
    }
    if is_ring(command, word) {
        return with_ring(settings, words, at + 1);
    }
    if is_steps(command, word) {
        return with_steps(settings, words, at + 1);
    }
    Err(WordsFault { kind: 3, word: at })
}

/// `--last` at a place: not after `-i` or `--report`.
#[tactic(auto, using(crate::proofs::Places::places))]
fn with_last(
    settings: Settings,
    words: &[String],
    at: usize,
) -> Result<(Settings, usize), WordsFault>
    requires { at < length words.now }
    ensures value { result ≡ spec.back_read settings at (drop (at + 1) (map string_bytes words.now)) }
    ensures onward { IfOk result (λ next. at < next.1) }
{
    if settings.interactive || settings.report {
        return Err(WordsFault { kind: 10, word: at });
    }
    with_back(settings, words, at + 1)
}

/// The value of `--last` at a place.
#[tactic(auto, using(crate::proofs::Places::places))]
fn with_back(
    settings: Settings,
    words: &[String],
    at: usize,
) -> Result<(Settings, usize), WordsFault>
    requires { at ≤ length words.now }
    ensures value { result ≡ spec.last_read settings at (drop at (map string_bytes words.now)) }
    ensures onward { IfOk result (λ next. at < next.1) }
{
    if at == words.len() {
        return Err(WordsFault { kind: 4, word: at });
    }
    match last_value(&words[at]) {
        Ok(last) => Ok((Settings { last, ..settings }, at + 1)),
        Err(kind) => Err(WordsFault { kind, word: at }),
    }
}

/// The value of `--ring` at a place.
#[tactic(auto, using(crate::proofs::Places::places))]
fn with_ring(
    settings: Settings,
    words: &[String],
    at: usize,
) -> Result<(Settings, usize), WordsFault>
    requires { at ≤ length words.now }
    ensures value { result ≡ spec.ring_read settings at (drop at (map string_bytes words.now)) }
    ensures onward { IfOk result (λ next. at < next.1) }
{
    if at == words.len() {
        return Err(WordsFault { kind: 4, word: at });
    }
    match ring_value(&words[at]) {
        Ok(ring) => Ok((Settings { ring, ..settings }, at + 1)),
        Err(kind) => Err(WordsFault { kind, word: at }),
    }
}

/// The value of `--steps` at a place.
#[tactic(auto, using(crate::proofs::Places::places))]
fn with_steps(
    settings: Settings,
    words: &[String],
    at: usize,
) -> Result<(Settings, usize), WordsFault>
    requires { at ≤ length words.now }
    ensures value { result ≡ spec.steps_read settings at (drop at (map string_bytes words.now)) }
    ensures onward { IfOk result (λ next. at < next.1) }
{
    if at == words.len() {
        return Err(WordsFault { kind: 4, word: at });
    }
    match steps_value(&words[at]) {
        Ok(steps) => Ok((Settings { steps, ..settings }, at + 1)),
        Err(kind) => Err(WordsFault { kind, word: at }),
    }
}
