// What the lines of a source script give, one by one.
ghost use Rattle.std.specs.Prelude.{◌≡◌, true, false, nat_le, map, MatchResult, bytes_eq, codes};
ghost use Rattle.xc_source_script.specs.Kinds.{Answers};
ghost use Rattle.xc_source_script.specs.declared.kind.SourceKind.TheVariants.{Limit};
ghost use Rattle.xc_source_script.specs.declared.kind.Fail.TheVariants.{Bad};
ghost use Rattle.xc_source_script.specs.Words.{line_by, line_of, end_of};
ghost use Rattle.xc_source_script.specs.SourceText.{begun, follows, is_inner, is_whole, root_breaks, step, step_by};
ghost use Rattle.xc_source_script.specs.SourceText.{with_command, with_root, with_start, with_version};

use crate::command::read_command;
use crate::kind::{Fail, SourceKind};
use crate::line::{read_root, read_start, read_version};
use crate::script::{Roots, SourceCommands, SourceScript};
use std::alloc::Global;
use xc_base::{SCRIPT_LINES, Value};
use xc_record::{Header, Op};
use xc_script::{are_words, pieces};
use xc_source::SourceCommand;
use xc_text::Version;

// Which line may stand next.
#[derive(Clone, Copy, PartialEq, Eq, Debug)]
pub(crate) enum Stage {
    // The first line of all.
    First,
    // The time that the clock begins at.
    Start,
    // A root, a command or the last line.
    Roots,
    // A command or the last line.
    Commands,
    // None.
    Ended,
}

// What the lines so far gave, and the first hash that no root has yet.
#[derive(Drop, Debug)]
pub(crate) struct Reading {
    pub(crate) lines: u64,
    version: Version,
    pub(crate) stage: Stage,
    covered: u32,
    pub(crate) script: SourceScript,
}

// Whether the header is of a root that may stand behind those before.
fn follows(before: &[Header], covered: u32, header: &Header) -> bool
    ensures { result ≡ follows before.now covered header.now }
{
    header.parent.is_none()
        && header.id as usize == before.len()
        && header.lo <= header.hi
        && u32::from(header.lo) == covered
}

impl Reading {
    // Before the first line.
    pub(crate) fn begun(alloc: Global) -> Reading
        ensures { result ≡ begun }
    {
        Reading {
            lines: 0,
            version: Version::One,
            stage: Stage::First,
            covered: 0,
            script: SourceScript {
                start: 0,
                roots: Roots::new(alloc),
                commands: SourceCommands::new(alloc),
            },
        }
    }

    // Takes the next line, given without the byte that ends it.
    #[tactic(auto, unfolding(crate::specs::SourceText::step))]
    pub(crate) fn take_line(&mut self, alloc: Global, line: &[u8]) -> Result<(), Fail>
        ensures { Answers (λ _. self.new) result (step self.old line.now) }
    {
        let words = pieces(alloc, line, b' ')?;
        self.take_words(&words)
    }

    #[tactic(auto, unfolding(crate::specs::Words::line_of))]
    fn take_words(&mut self, words: &[&[u8]]) -> Result<(), Fail>
        ensures { Answers (λ _. self.new) result (step_by self.old (line_of self.old.version (map
            (λ word. word.now) words.now))) }
    {
        if !are_words(words) {
            return Err(Fail::Bad(SourceKind::Form));
        }
        match words {
            [] => Err(Fail::Bad(SourceKind::Form)),
            [first, rest @ ..] => self.take_line_of(first, rest),
        }
    }

    // Takes the line whose first word and other words these are.
    fn take_line_of(&mut self, first: &[u8], rest: &[&[u8]]) -> Result<(), Fail>
        ensures { Answers (λ _. self.new) result (step_by self.old (line_by self.old.version first.now (map
            (λ word. word.now) rest.now))) }
    {
        match self.stage {
            Stage::First => self.take_first(first, rest),
            Stage::Start => self.take_start(first, rest),
            Stage::Roots | Stage::Commands => self.take_inner(first, rest),
            Stage::Ended => Err(Fail::Bad(SourceKind::Form)),
        }
    }

    // Takes a line that names the version, and no other.
    fn take_first(&mut self, first: &[u8], rest: &[&[u8]]) -> Result<(), Fail>
        requires { self.old.stage ≡ Stage.First }
        ensures { Answers (λ _. self.new) result (step_by self.old (line_by self.old.version first.now (map
            (λ word. word.now) rest.now))) }
    {
        if first != b"xcsource".as_slice() {
            return Err(Fail::Bad(SourceKind::Form));
        }
        match read_version(rest) {
            None => Err(Fail::Bad(SourceKind::Form)),
            Some(version) => self.set_version(version),
        }
    }

    fn set_version(&mut self, version: Version) -> Result<(), Fail>
        ensures { Answers (λ _. self.new) result (with_version self.old version) }
    {
        self.need_room()?;
        self.lines += 1;
        self.stage = Stage::Start;
        self.version = version;
        Ok(())
    }

    // Takes a line that names the time that the clock begins at, and no other.
    #[tactic(auto, using(crate::proofs::StepLaws::start_step))]
    fn take_start(&mut self, first: &[u8], rest: &[&[u8]]) -> Result<(), Fail>
        requires { self.old.stage ≡ Stage.Start }
        ensures { Answers (λ _. self.new) result (step_by self.old (line_by self.old.version first.now (map
            (λ word. word.now) rest.now))) }
    {
        if first != b"start".as_slice() {
            return Err(Fail::Bad(SourceKind::Form));
        }
        let time = read_start(rest)?;
        self.set_start(time)
    }

    fn set_start(&mut self, time: u64) -> Result<(), Fail>
        ensures { Answers (λ _. self.new) result (with_start self.old time) }
    {
        self.need_room()?;
        self.lines += 1;
        self.stage = Stage::Roots;
        self.script.start = time;
        Ok(())
    }

    // Takes a root, a command or the last line.
    #[tactic(auto, using(crate::proofs::StepLaws::root_step, crate::proofs::StepLaws::end_step))]
    fn take_inner(&mut self, first: &[u8], rest: &[&[u8]]) -> Result<(), Fail>
        requires { is_inner self.old.stage ≡ true }
        ensures { Answers (λ _. self.new) result (step_by self.old (line_by self.old.version first.now (map
            (λ word. word.now) rest.now))) }
    {
        if first == b"tablet".as_slice() {
            let header = read_root(rest)?;
            return self.add_root(header);
        }
        if first == b"end".as_slice() {
            return self.take_end(rest);
        }
        self.take_command(first, rest)
    }

    // Takes a command.
    #[tactic(auto, using(crate::proofs::StepLaws::ask_step))]
    fn take_command(&mut self, first: &[u8], rest: &[&[u8]]) -> Result<(), Fail>
        requires stage { is_inner self.old.stage ≡ true }
        requires tablet { bytes_eq first.now (codes "tablet") ≡ false }
        requires end { bytes_eq first.now (codes "end") ≡ false }
        ensures { Answers (λ _. self.new) result (step_by self.old (line_by self.old.version first.now (map
            (λ word. word.now) rest.now))) }
    {
        // The borrow checker is told by these what a command may hold.
        let _op: Option<Op> = None;
        let _value: Option<Value> = None;
        let command = read_command(self.version, first, rest)?;
        self.add_command(command)
    }

    fn add_root(&mut self, header: Header) -> Result<(), Fail>
        ensures { Answers (λ _. self.new) result (with_root self.old header) }
    {
        if self.breaks(&header) {
            return Err(Fail::Bad(SourceKind::Header));
        }
        self.need_room()?;
        let covered = u32::from(header.hi) + 1;
        self.script.roots.push(header)?;
        self.lines += 1;
        self.stage = Stage::Roots;
        self.covered = covered;
        Ok(())
    }

    // Whether the root stands in the wrong place.
    fn breaks(&self, header: &Header) -> bool
        ensures { result ≡ root_breaks self.now header.now }
    {
        self.stage == Stage::Commands
            || !follows(self.script.roots.as_slice(), self.covered, header)
    }

    // Whether the roots so far have all hashes.
    fn is_whole(&self) -> bool
        ensures { result ≡ is_whole self.now }
    {
        self.covered == 65_536
    }

    // Takes the last line, which has one word.
    fn take_end(&mut self, rest: &[&[u8]]) -> Result<(), Fail>
        requires { is_inner self.old.stage ≡ true }
        ensures { Answers (λ _. self.new) result (step_by self.old (end_of (map (λ word. word.now) rest.now))) }
    {
        if !rest.is_empty() {
            return Err(Fail::Bad(SourceKind::Form));
        }
        if !self.is_whole() {
            return Err(Fail::Bad(SourceKind::Header));
        }
        self.need_room()?;
        self.lines += 1;
        self.stage = Stage::Ended;
        Ok(())
    }

    fn add_command(&mut self, command: SourceCommand) -> Result<(), Fail>
        ensures { Answers (λ _. self.new) result (with_command self.old command) }
    {
        if !self.is_whole() {
            return Err(Fail::Bad(SourceKind::Header));
        }
        self.need_room()?;
        self.script.commands.push(command)?;
        self.lines += 1;
        self.stage = Stage::Commands;
        Ok(())
    }

    // Whether there may be one line more.
    fn need_room(&self) -> Result<(), Fail>
        ensures { MatchResult result (λ _. nat_le SCRIPT_LINES self.now.lines ≡ false) (λ e. (e ≡ Bad Limit)
            × (nat_le SCRIPT_LINES self.now.lines ≡ true)) }
    {
        if self.lines >= SCRIPT_LINES {
            return Err(Fail::Bad(SourceKind::Limit));
        }
        Ok(())
    }
}
