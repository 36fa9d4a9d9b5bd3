// The words of the command line.
ghost use Rattle.std.specs.Prelude.{◌≡◌, IfSome, map, string_bytes};
ghost use Rattle.xc_tool.specs.Words.{form_of, is_name, number_from, workload_of, FormFits};

use xc_base::read_number;
use xc_source::MOST_STEPS;

/// A command of the command line.
#[derive(Clone, Copy, Debug, PartialEq, Eq)]
pub enum Form {
    /// `replay LOGS SCRIPT` polls the logs as the script asks, and prints what it answers.
    Replay,
    /// `audit LOGS` says how far each log is accepted and whether the tablets agree.
    Audit,
    /// `upgrade LOGS` prints the logs as a text of version 2.
    Upgrade,
    /// `make SOURCE` prints the logs that a source script makes.
    Make,
    /// `gen NUMBER SIZE` says in a line what a target shows of the generated workload of this number, which has so many
    /// steps: 1 to 100,000.
    Gen { number: u64, size: u64 },
}

fn is_name(word: &str) -> bool
    ensures { result ≡ is_name word.now }
{
    match word.as_bytes() {
        [] => false,
        [first, ..] => *first != b'-',
    }
}

// The number that the word spells, where it is from `least` to `most`.
fn number_from(least: u64, most: u64, word: &str) -> Option<u64>
    ensures { result ≡ number_from least most word.now }
{
    match read_number(word.as_bytes(), most) {
        Ok(number) if least <= number => Some(number),
        _ => None,
    }
}

fn workload_of(number: &str, size: &str) -> Option<Form>
    ensures { result ≡ workload_of number.now size.now }
{
    Some(Form::Gen {
        number: number_from(0, u64::MAX, number)?,
        size: number_from(1, MOST_STEPS, size)?,
    })
}

/// The command that the words form, or None.
pub(crate) fn form_of(words: &[String]) -> Option<Form>
    ensures form { result ≡ form_of (map string_bytes words.now) }
    ensures fits { IfSome result FormFits }
{
    match words {
        [word, logs, script]
            if word.as_str() == "replay" && is_name(logs.as_str()) && is_name(script.as_str()) => {
            Some(Form::Replay)
        }
        [word, number, size] if word.as_str() == "gen" => {
            workload_of(number.as_str(), size.as_str())
        }
        [word, logs] if word.as_str() == "audit" && is_name(logs.as_str()) => Some(Form::Audit),
        [word, logs] if word.as_str() == "upgrade" && is_name(logs.as_str()) => Some(Form::Upgrade),
        [word, source] if word.as_str() == "make" && is_name(source.as_str()) => Some(Form::Make),
        _ => None,
    }
}
