//! The words of a command line as typed commands, and their readings: a seed fits 64 bits, a count of calls is
//! 1 to 1,000, and what is none of the known forms is no command.
ghost use Rattle.std.specs.Prelude.{◌≡◌, ◌≤◌, IfSome, Some, map, string_bytes};
ghost use Rattle.std.specs.List.{list_all};
ghost use Rattle.std.specs.Char.{is_ascii_digit};
ghost use Rattle.std.specs.Str.{all_ascii_digits};
ghost use Rattle.program_words.specs.declared.words.Generate.{Generate};
ghost use Rattle.program_words.specs.declared.words.Command.TheVariants as commands;
ghost use Rattle.program_words.specs.Words.{calls_of, check_of, command, form_named, generate_of, in_range, is_seed_text, line_kind, named, rehearse_of, run_asked, run_of, seed_of, with_lines, with_seed};

/// How a run is reported.
#[derive(Clone, Copy, Debug, PartialEq, Eq)]
pub enum Form {
    /// With each member's log, and the items that no log has.
    Long,
    /// Without these.
    Short,
    /// The journal's own text, in place of a report.
    Journal,
}

/// What `rehearse` is asked for.
#[derive(Clone, Copy, Debug, PartialEq, Eq)]
pub struct Rehearse {
    pub seed: Option<u64>,
    pub form: Form,
}

/// What `gen` is asked for.
#[derive(Clone, Copy, Debug, PartialEq, Eq)]
pub struct Generate {
    pub seed: u64,
    /// How many calls: 1 to 1,000.
    pub calls: u16,
}

/// The lines that a run with threads goes over.
#[derive(Clone, Copy, Debug, PartialEq, Eq)]
pub enum LineKind {
    /// Lines in memory.
    Memory,
    /// TCP on 127.0.0.1, both ends in this process.
    Loopback,
}

/// What `run` is asked for.
#[derive(Clone, Copy, Debug, PartialEq, Eq)]
pub struct Run {
    pub over: LineKind,
    pub form: Form,
}

/// What the program is asked for, but for `run`, which has a reading of its own.
#[derive(Clone, Copy, Debug, PartialEq, Eq)]
pub enum Command {
    Rehearse(Rehearse),
    Check,
    Generate(Generate),
}

#[tactic(auto, using(crate::proofs::Seeds::all_digits))]
fn all_digits(bytes: &[u8]) -> bool
    ensures { result ≡ all_ascii_digits bytes.now }
{
    each_digit(bytes)
}

fn each_digit(bytes: &[u8]) -> bool
    ensures { result ≡ list_all is_ascii_digit bytes.now }
{
    bytes.iter().all(|b| b.is_ascii_digit())
}

/// Whether these are 1 to 20 digits.
fn is_seed_text(bytes: &[u8]) -> bool
    ensures { result ≡ is_seed_text bytes.now }
{
    if bytes.is_empty() || bytes.len() > 20 {
        return false;
    }
    all_digits(bytes)
}

/// The number of 1 to 20 digits, where it fits.
fn seed_of(word: &str) -> Option<u64>
    ensures { result ≡ seed_of word.now }
{
    if !is_seed_text(word.as_bytes()) {
        return None;
    }
    word.parse::<u64>().ok()
}

#[tactic(auto, unfolding(crate::specs::Words::form_named))]
fn form_named(word: &str) -> Option<Form>
    ensures { result ≡ form_named word.now }
{
    if word == "short" {
        return Some(Form::Short);
    }
    if word == "journal" {
        return Some(Form::Journal);
    }
    None
}

fn with_seed(form: Form, word: &str) -> Option<Rehearse>
    ensures { result ≡ with_seed form word.now }
{
    match seed_of(word) {
        Some(seed) => Some(Rehearse {
            seed: Some(seed),
            form,
        }),
        None => None,
    }
}

fn rehearse_of(words: &[String]) -> Option<Rehearse>
    ensures { result ≡ rehearse_of (map string_bytes words.now) }
{
    match words {
        [] => Some(Rehearse {
            seed: None,
            form: Form::Long,
        }),
        [word] => match form_named(word.as_str()) {
            Some(form) => Some(Rehearse { seed: None, form }),
            None => with_seed(Form::Long, word.as_str()),
        },
        [word, next] => match form_named(next.as_str()) {
            Some(form) => with_seed(form, word.as_str()),
            None => None,
        },
        _ => None,
    }
}

fn in_range(number: u64) -> Option<u16>
    ensures is { result ≡ in_range (Some number) }
    ensures few { IfSome result (λ n. n ≤ 1000) }
{
    if number == 0 || number > 1000 {
        return None;
    }
    Some(number as u16)
}

/// The number of 1 to 4 digits, where it is 1 to 1,000.
fn calls_of(word: &str) -> Option<u16>
    ensures is { result ≡ calls_of word.now }
    ensures few { IfSome result (λ n. n ≤ 1000) }
{
    if word.len() > 4 {
        return None;
    }
    in_range(seed_of(word)?)
}

fn generate_of(words: &[String]) -> Option<Generate>
    ensures is { result ≡ generate_of (map string_bytes words.now) }
    ensures few { IfSome result (λ g. g.calls ≤ 1000) }
{
    match words {
        [seed, calls] => {
            let seed = seed_of(seed.as_str())?;
            let calls = calls_of(calls.as_str())?;
            Some(Generate { seed, calls })
        }
        _ => None,
    }
}

fn check_of(words: &[String]) -> Option<Command>
    ensures { result ≡ check_of (map string_bytes words.now) }
{
    match words {
        [] => Some(Command::Check),
        _ => None,
    }
}

/// What the first word and the others ask for.
#[tactic(auto, unfolding(crate::specs::Words::named))]
fn named(first: &str, rest: &[String]) -> Option<Command>
    ensures is { result ≡ named first.now (map string_bytes rest.now) }
    ensures few { (g : Generate) → result ≡ Some (commands.Generate g) → g.calls ≤ 1000 }
{
    if first == "rehearse" {
        return Some(Command::Rehearse(rehearse_of(rest)?));
    }
    if first == "check" {
        return check_of(rest);
    }
    if first == "gen" {
        return Some(Command::Generate(generate_of(rest)?));
    }
    None
}

/// What the words ask for: None where they are none of these commands, `run` among those.
pub fn command_of(words: &[String]) -> Option<Command>
    ensures is { result ≡ command (map string_bytes words.now) }
    ensures few { (g : Generate) → result ≡ Some (commands.Generate g) → g.calls ≤ 1000 }
{
    match words {
        [first, rest @ ..] => named(first.as_str(), rest),
        [] => None,
    }
}

/// The kind of lines of this name.
#[tactic(auto, unfolding(crate::specs::Words::line_kind))]
fn line_kind(word: &str) -> Option<LineKind>
    ensures { result ≡ line_kind word.now }
{
    if word == "memory" {
        return Some(LineKind::Memory);
    }
    if word == "loopback" {
        return Some(LineKind::Loopback);
    }
    None
}

fn with_lines(over: LineKind, words: &[String]) -> Option<Run>
    ensures { result ≡ with_lines over (map string_bytes words.now) }
{
    match words {
        [] => Some(Run {
            over,
            form: Form::Long,
        }),
        [word] => match form_named(word.as_str()) {
            Some(form) => Some(Run { over, form }),
            None => None,
        },
        _ => None,
    }
}

/// What the words behind `run` ask for.
fn run_asked(words: &[String]) -> Option<Run>
    ensures { result ≡ run_asked (map string_bytes words.now) }
{
    match words {
        [word, rest @ ..] => match line_kind(word.as_str()) {
            Some(over) => with_lines(over, rest),
            None => None,
        },
        [] => None,
    }
}

/// What the words ask for, where the first is `run`.
pub fn run_of(words: &[String]) -> Option<Run>
    ensures { result ≡ run_of (map string_bytes words.now) }
{
    match words {
        [first, rest @ ..] if first.as_str() == "run" => run_asked(rest),
        _ => None,
    }
}
