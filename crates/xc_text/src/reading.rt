// What the lines of a log text give, one by one.
ghost use Rattle.std.specs.Prelude.{◌≡◌, ◌==◌, ◌<◌, ◌≤◌, ◌&&◌, ◌||◌, true, false, nat_le, nat_lt, MatchOption};
ghost use Rattle.std.specs.List.{list_any};
ghost use Rattle.xc_record.specs.Valid.{headers_of, ops_in};
ghost use Rattle.xc_text.specs.Kinds.{Answers};
ghost use Rattle.xc_text.specs.LogText.{begun, between, in_range, is_split_off, is_orphaned, is_inner, placed};
ghost use Rattle.xc_text.specs.LogText.{starting, step};
ghost use Rattle.xc_text.specs.Spans.{Describes, DescribesLine};

use crate::kind::{Fail, LogKind};
use crate::line::{LogLine, Version, read_line};
use crate::line_ops::{LineOps, Span};
use std::alloc::Global;
use xc_base::{MOST_OPERATIONS, MOST_RECORDS, RECORD_OPERATIONS};
use xc_record::{Header, Kind, Next, Record, Records, Tablet, Tablets, children};

// How far a text is.
#[derive(Clone, Copy, PartialEq, Eq, Debug)]
pub(crate) enum Stage {
    Start,
    Headers,
    Records,
    Ended,
}

// What the lines so far gave, what header may stand next, and what room is left.
#[derive(Drop, Debug)]
pub(crate) struct Reading {
    version: Version,
    pub(crate) tablets: Tablets,
    next: Next,
    pub(crate) stage: Stage,
    records_left: usize,
    operations_left: usize,
}

// Whether the tablet holds each hash from the least to the greatest.
#[inline(always)]
fn all_held(header: &Header, span: Span) -> bool
    ensures held { result ≡ (nat_le header.now.lo span.least && nat_le span.greatest header.now.hi) }
    ensures low { header.now.lo < 65536 }
{
    header.lo <= span.least && span.greatest <= header.hi
}

#[inline(always)]
fn in_range(tablets: &[Tablet], header: &Header, kind: &Kind, span: Span) -> bool
    requires { Describes span kind.now }
    ensures { result ≡ in_range (headers_of tablets.now) header.now kind.now }
{
    match kind {
        Kind::Write { .. } | Kind::Intent { .. } => all_held(header, span),
        Kind::Split { at, left, right } => match children(tablets, header.id) {
            None => false,
            Some((l, r)) => *at == r.lo && *left == l.id && *right == r.id,
        },
        Kind::Apply { .. } | Kind::Abort { .. } | Kind::Safe { .. } => true,
    }
}

#[inline(always)]
fn is_split_off(tablet: &Tablet) -> bool
    ensures { result ≡ is_split_off tablet.now }
{
    match tablet.records.as_slice().last() {
        Some(last) => matches!(last.kind, Kind::Split { .. }),
        None => false,
    }
}

fn is_orphaned(tablets: &[Tablet], tablet: &Tablet) -> bool
    ensures { result ≡ is_orphaned (headers_of tablets.now) tablet.now }
{
    children(tablets, tablet.header.id).is_some() && !is_split_off(tablet)
}

fn any_orphaned(tablets: &[Tablet]) -> bool
    ensures { result ≡ list_any (is_orphaned (headers_of tablets.now)) tablets.now }
{
    tablets.iter().any(|tablet| is_orphaned(tablets, tablet))
}

impl Reading {
    pub(crate) fn begun(alloc: Global) -> Reading
        ensures { result ≡ begun }
    {
        Reading {
            version: Version::One,
            tablets: Tablets::from_vec(Vec::new(alloc)),
            next: Next::RootAt(0),
            stage: Stage::Start,
            records_left: MOST_RECORDS,
            operations_left: MOST_OPERATIONS,
        }
    }

    fn take_header(&mut self, alloc: Global, header: Header) -> Result<(), Fail>
        ensures { Answers (λ _. self.new) result (placed self.old (LogLine.Tablet header)) }
    {
        let before = self.tablets.as_slice();
        if self.stage == Stage::Records || !self.next.fits(before, &header) {
            return Err(Fail::Bad(LogKind::Header));
        }
        let next = self.next.after(before, &header);
        let records = Records::from_vec(Vec::new(alloc));
        self.tablets.push(Tablet { header, records })?;
        self.next = next;
        Ok(())
    }

    // How many operations the record has, where there is room for it.
    #[inline(always)]
    fn room_for(&self, entry: &Record, span: Span) -> Option<usize>
        requires { Describes span entry.now.kind }
        ensures { let past = nat_lt RECORD_OPERATIONS (ops_in entry.now.kind) || (self.now.records_left == 0
            || nat_lt self.now.operations_left (ops_in entry.now.kind)) in
            MatchOption result (past ≡ true) (λ count. (count ≡ ops_in entry.now.kind) × (past ≡ false)
            × (0 < self.now.records_left) × (count ≤ self.now.operations_left)) }
    {
        let count = match &entry.kind {
            Kind::Write { .. } | Kind::Intent { .. } => span.count,
            Kind::Apply { .. } | Kind::Abort { .. } | Kind::Safe { .. } | Kind::Split { .. } => 0,
        };
        if count > RECORD_OPERATIONS || self.records_left == 0 || count > self.operations_left {
            return None;
        }
        Some(count)
    }

    #[inline(always)]
    fn take_record(&mut self, id: u32, entry: Record, span: Span) -> Result<(), Fail>
        requires { Describes span entry.kind }
        ensures { Answers (λ _. self.new) result (placed self.old (LogLine.Entry id entry)) }
    {
        if !self.next.may_end() {
            return Err(Fail::Bad(LogKind::Header));
        }
        let tablets = self.tablets.as_slice();
        let Some(tablet) = tablets.get(id as usize) else {
            return Err(Fail::Bad(LogKind::UnknownTablet));
        };
        if !in_range(tablets, &tablet.header, &entry.kind, span) {
            return Err(Fail::Bad(LogKind::Range));
        }
        if is_split_off(tablet) {
            return Err(Fail::Bad(LogKind::AfterSplit));
        }
        let Some(count) = self.room_for(&entry, span) else {
            return Err(Fail::Bad(LogKind::Limit));
        };
        self.tablets.push_record(id, entry)?;
        self.stage = Stage::Records;
        self.records_left -= 1;
        self.operations_left -= count;
        Ok(())
    }

    fn take_end(&mut self) -> Result<(), Fail>
        ensures { Answers (λ _. self.new) result (placed self.old LogLine.End) }
    {
        if !self.next.may_end() {
            return Err(Fail::Bad(LogKind::Header));
        }
        if any_orphaned(self.tablets.as_slice()) {
            return Err(Fail::Bad(LogKind::Orphan));
        }
        self.stage = Stage::Ended;
        Ok(())
    }

    // Takes the next line, given without the byte that ends it.
    #[inline(always)]
    pub(crate) fn take_line(
        &mut self,
        alloc: Global,
        read: &mut LineOps,
        line: &[u8],
    ) -> Result<(), Fail>
        ensures { Answers (λ _. self.new) result (step self.old line.now) }
    {
        match self.stage {
            Stage::Start => self.take_first(alloc, read, line),
            Stage::Headers | Stage::Records => self.take_inner(alloc, read, line),
            Stage::Ended => Err(Fail::Bad(LogKind::Form)),
        }
    }

    // Takes the first line.
    fn take_first(&mut self, alloc: Global, read: &mut LineOps, line: &[u8]) -> Result<(), Fail>
        requires { self.old.stage ≡ Stage.Start }
        ensures { Answers (λ _. self.new) result (step self.old line.now) }
    {
        match read_line(alloc, self.version, read, line) {
            Ok(line) => self.start(line),
            Err(Fail::NoMemory) => Err(Fail::NoMemory),
            Err(Fail::Bad(_)) => Err(Fail::Bad(LogKind::Form)),
        }
    }

    fn start(&mut self, line: LogLine) -> Result<(), Fail>
        ensures { Answers (λ _. self.new) result (starting self.old line) }
    {
        match line {
            LogLine::First(version) => {
                self.version = version;
                self.stage = Stage::Headers;
                Ok(())
            }
            LogLine::Tablet(_) | LogLine::Entry(..) | LogLine::End => Err(Fail::Bad(LogKind::Form)),
        }
    }

    // Takes a line between the first and the last, or the last.
    #[inline(always)]
    fn take_inner(&mut self, alloc: Global, read: &mut LineOps, line: &[u8]) -> Result<(), Fail>
        requires { is_inner self.old.stage ≡ true }
        ensures { Answers (λ _. self.new) result (step self.old line.now) }
    {
        let line = read_line(alloc, self.version, read, line)?;
        self.take(alloc, line, read.span)
    }

    #[inline(always)]
    fn take(&mut self, alloc: Global, line: LogLine, span: Span) -> Result<(), Fail>
        requires { DescribesLine span line }
        ensures { Answers (λ _. self.new) result (between self.old line) }
    {
        match line {
            LogLine::First(_) => Err(Fail::Bad(LogKind::Form)),
            LogLine::Tablet(header) => self.take_header(alloc, header),
            LogLine::Entry(id, entry) => self.take_record(id, entry, span),
            LogLine::End => self.take_end(),
        }
    }
}
