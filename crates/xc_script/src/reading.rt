// What the lines of a script give, one by one.
ghost use Rattle.std.specs.Prelude.{◌≡◌, true, false, map, count_by, if◌then◌else◌, Ok, Err};
ghost use Rattle.xc_record.specs.Bounds.{are_bounds, rises_from};
ghost use Rattle.xc_script.specs.Kinds.{Answers};
ghost use Rattle.xc_script.specs.Words.{Ask, end_of, line_by, line_of, version_of};
ghost use Rattle.xc_script.specs.ScriptText.{after_line, begun, forward, is_drain, is_inner, is_scan, is_too_many};
ghost use Rattle.xc_script.specs.ScriptText.{is_unknown, is_watch_line, step, step_by, with_bounds, with_command};
ghost use Rattle.xc_script.specs.ScriptText.{with_version, with_watched};

use crate::command::read_command;
use crate::kind::{Fail, ScriptKind};
use crate::script::{Bounds, Commands, Keys, Script};
use crate::words::{are_words, pieces, read_bounds, read_keys};
use std::alloc::Global;
use xc_base::{MOST_DRAINS, MOST_SCANS, MOST_TARGETS, SCRIPT_LINES, WATCHED_KEYS};
use xc_record::Command;

// How keys are written.
#[derive(Clone, Copy, PartialEq, Eq, Debug)]
pub(crate) enum Version {
    // By their bytes, which are plain.
    One,
    // By words for any bytes.
    Two,
}

// Which line may stand next.
#[derive(Clone, Copy, PartialEq, Eq, Debug)]
pub(crate) enum Stage {
    // The first line of all.
    First,
    // The bounds.
    Target,
    // The watched keys, a command or the last line.
    Watch,
    // A command or the last line.
    Commands,
    // None.
    Ended,
}

// What the lines so far gave, of a script for so many source tablets.
#[derive(Drop, Debug)]
pub(crate) struct Reading {
    sources: u32,
    pub(crate) lines: u64,
    version: Version,
    pub(crate) stage: Stage,
    pub(crate) script: Script,
}

// Whether the hashes begin with 0, each is above the one before, and they aren't too many.
#[tactic(auto, unfolding(xc_record::specs::Bounds::are_bounds))]
fn are_bounds(bounds: &[u16]) -> bool
    ensures { result ≡ are_bounds bounds.now }
{
    match bounds {
        [first, rest @ ..] => *first == 0 && rises_from(0, rest) && bounds.len() <= MOST_TARGETS,
        [] => false,
    }
}

fn rises_from(before: u16, bounds: &[u16]) -> bool
    ensures { result ≡ rises_from before bounds.now }
{
    let mut last = before;
    for bound in bounds {
        if *bound <= last {
            return false;
        }
        last = *bound;
    }
    true
}

// How many of the commands are scans.
fn scans(commands: &[Command]) -> usize
    ensures { result ≡ count_by is_scan commands.now }
{
    commands
        .iter()
        .filter(|command| matches!(command, Command::Scan))
        .count()
}

// How many of the commands are drains.
fn drains(commands: &[Command]) -> usize
    ensures { result ≡ count_by is_drain commands.now }
{
    commands
        .iter()
        .filter(|command| matches!(command, Command::Drain))
        .count()
}

// Whether the command is of a tablet that isn't there.
fn is_unknown(sources: u32, targets: usize, command: &Command) -> bool
    ensures { result ≡ is_unknown sources targets (Ask command.now) }
{
    match command {
        Command::Poll { id, .. } | Command::Ack { id } | Command::Restart { id } => *id >= sources,
        Command::Stop { id, last, .. } => *id >= sources || *last >= targets,
        _ => false,
    }
}

// Whether there are as many of the command before as there may be.
fn is_too_many(before: &[Command], command: &Command) -> bool
    ensures { result ≡ is_too_many before.now (Ask command.now) }
{
    match command {
        Command::Scan => scans(before) >= MOST_SCANS,
        Command::Drain => drains(before) >= MOST_DRAINS,
        _ => false,
    }
}

// The version that the words after the first one name.
fn read_version(words: &[&[u8]]) -> Option<Version>
    ensures { result ≡ version_of (map (λ word. word.now) words.now) }
{
    match words {
        [word] if *word == b"1".as_slice() => Some(Version::One),
        [word] if *word == b"2".as_slice() => Some(Version::Two),
        _ => None,
    }
}

impl Reading {
    // Before the first line.
    pub(crate) fn begun(alloc: Global, sources: u32) -> Reading
        ensures { result ≡ begun sources }
    {
        Reading {
            sources,
            lines: 0,
            version: Version::One,
            stage: Stage::First,
            script: Script {
                bounds: Bounds::new(alloc),
                watched: Keys::new(alloc),
                commands: Commands::new(alloc),
            },
        }
    }

    // Takes the next line, given without the byte that ends it.
    #[tactic(auto, unfolding(crate::specs::ScriptText::step))]
    pub(crate) fn take_line(&mut self, alloc: Global, line: &[u8]) -> Result<(), Fail>
        ensures { Answers (λ _. self.new) result (step self.old line.now) }
    {
        let words = pieces(alloc, line, b' ')?;
        self.take_words(alloc, &words)
    }

    #[tactic(auto, unfolding(crate::specs::Words::line_of))]
    fn take_words(&mut self, alloc: Global, words: &[&[u8]]) -> Result<(), Fail>
        ensures { Answers (λ _. self.new) result (step_by self.old (line_of (map (λ word. word.now) words.now))) }
    {
        if !are_words(words) {
            return Err(Fail::Bad(ScriptKind::Form));
        }
        match words {
            [] => Err(Fail::Bad(ScriptKind::Form)),
            [first, rest @ ..] => self.take_line_of(alloc, first, rest),
        }
    }

    // Takes the line whose first word and other words these are.
    fn take_line_of(&mut self, alloc: Global, first: &[u8], rest: &[&[u8]]) -> Result<(), Fail>
        ensures { Answers (λ _. self.new) result (step_by self.old (line_by first.now (map
            (λ word. word.now) rest.now))) }
    {
        match self.stage {
            Stage::First => self.take_first(first, rest),
            Stage::Target => self.take_target(alloc, first, rest),
            Stage::Watch => self.take_watch(alloc, first, rest),
            Stage::Commands => self.take_command(first, rest),
            Stage::Ended => Err(Fail::Bad(ScriptKind::Form)),
        }
    }

    // Takes a line that names the version, and no other.
    fn take_first(&mut self, first: &[u8], rest: &[&[u8]]) -> Result<(), Fail>
        requires { self.old.stage ≡ Stage.First }
        ensures { Answers (λ _. self.new) result (step_by self.old (line_by first.now (map
            (λ word. word.now) rest.now))) }
    {
        if first != b"xcscript".as_slice() {
            return Err(Fail::Bad(ScriptKind::Form));
        }
        match read_version(rest) {
            None => Err(Fail::Bad(ScriptKind::Form)),
            Some(version) => self.set_version(version),
        }
    }

    fn set_version(&mut self, version: Version) -> Result<(), Fail>
        ensures { Answers (λ _. self.new) result (with_version self.old version) }
    {
        self.go_forward(Stage::Target)?;
        self.version = version;
        Ok(())
    }

    // Takes a line that names the bounds, and no other.
    #[tactic(auto, using(crate::proofs::StepLaws::target_step))]
    fn take_target(&mut self, alloc: Global, first: &[u8], rest: &[&[u8]]) -> Result<(), Fail>
        requires { self.old.stage ≡ Stage.Target }
        ensures { Answers (λ _. self.new) result (step_by self.old (line_by first.now (map
            (λ word. word.now) rest.now))) }
    {
        if first != b"target".as_slice() {
            return Err(Fail::Bad(ScriptKind::Form));
        }
        let bounds = read_bounds(alloc, rest)?;
        self.set_bounds(bounds)
    }

    fn set_bounds(&mut self, bounds: Bounds) -> Result<(), Fail>
        ensures { Answers (λ _. self.new) result (with_bounds self.old bounds) }
    {
        if !are_bounds(bounds.as_slice()) {
            return Err(Fail::Bad(ScriptKind::Target));
        }
        self.go_forward(Stage::Watch)?;
        self.script.bounds = bounds;
        Ok(())
    }

    // Takes a line that names the watched keys, or one behind them.
    #[tactic(auto, using(crate::proofs::StepLaws::watch_step))]
    fn take_watch(&mut self, alloc: Global, first: &[u8], rest: &[&[u8]]) -> Result<(), Fail>
        requires { self.old.stage ≡ Stage.Watch }
        ensures { Answers (λ _. self.new) result (step_by self.old (line_by first.now (map
            (λ word. word.now) rest.now))) }
    {
        if first != b"watch".as_slice() {
            return self.take_command(first, rest);
        }
        let keys = read_keys(alloc, self.version, rest)?;
        self.set_watched(keys)
    }

    fn set_watched(&mut self, keys: Keys) -> Result<(), Fail>
        ensures { Answers (λ _. self.new) result (with_watched self.old keys) }
    {
        if keys.as_slice().len() > WATCHED_KEYS {
            return Err(Fail::Bad(ScriptKind::Limit));
        }
        self.go_forward(Stage::Commands)?;
        self.script.watched = keys;
        Ok(())
    }

    // Takes a command or the last line.
    #[tactic(auto, using(crate::proofs::StepLaws::ask_step, crate::proofs::StepLaws::end_step))]
    fn take_command(&mut self, first: &[u8], rest: &[&[u8]]) -> Result<(), Fail>
        requires stage { is_inner self.old.stage ≡ true }
        requires other { is_watch_line self.old.stage first.now ≡ false }
        ensures { Answers (λ _. self.new) result (step_by self.old (line_by first.now (map
            (λ word. word.now) rest.now))) }
    {
        if first == b"end".as_slice() {
            return self.take_end(rest);
        }
        let command = read_command(self.version, first, rest)?;
        self.add_command(command)
    }

    // Takes the last line, which has one word.
    fn take_end(&mut self, rest: &[&[u8]]) -> Result<(), Fail>
        requires { is_inner self.old.stage ≡ true }
        ensures { Answers (λ _. self.new) result (step_by self.old (end_of (map (λ word. word.now) rest.now))) }
    {
        if !rest.is_empty() {
            return Err(Fail::Bad(ScriptKind::Form));
        }
        self.go_forward(Stage::Ended)
    }

    fn add_command(&mut self, command: Command) -> Result<(), Fail>
        ensures { Answers (λ _. self.new) result (with_command self.old command) }
    {
        if is_unknown(self.sources, self.script.bounds.as_slice().len(), &command) {
            return Err(Fail::Bad(ScriptKind::UnknownTablet));
        }
        if is_too_many(self.script.commands.as_slice(), &command) {
            return Err(Fail::Bad(ScriptKind::Limit));
        }
        self.go_forward(Stage::Commands)?;
        self.script.commands.push(command)?;
        Ok(())
    }

    // Counts the line, where there may be one more, and says which may stand next.
    fn go_forward(&mut self, stage: Stage) -> Result<(), Fail>
        ensures { Answers (λ _. self.new) result (forward self.old stage self.old.script) }
    {
        if self.lines >= SCRIPT_LINES {
            return Err(Fail::Bad(ScriptKind::Limit));
        }
        self.lines += 1;
        self.stage = stage;
        Ok(())
    }
}
