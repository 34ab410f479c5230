// The lines of a report after its head.
ghost use Rattle.std.specs.Prelude.{◌≡◌, ◌<◌, length, drop, option_map, IfOk};
ghost use Rattle.std.specs.Option.{option_copied};
ghost use Rattle.nf_report_def.specs.ReportLines.{key_word, begins_with, point_line, trace_line, never_line, state_in, capacity_at, state_line, end_line, line_kind, body_line, are_alike as are_alike_by};
ghost use Rattle.nf_report_lines.specs.Keys.{seen_kind};
ghost use Rattle.nf_report_lines.specs.Lines.{seen_line_kind, words_behind, state_read};
ghost use Rattle.nf_report_lines.specs.Drafts.{seen_draft, IsWithinNetwork};
ghost use Rattle.nf_report_lines.specs.Entries.{drafted, FitsDraft};
ghost use Rattle.nf_side.specs.Said.{said_by};

use crate::draft::Draft;
use crate::entry::{Entry, RatedPoint};
use crate::keys::Kind;
use crate::numbers::{read_number, read_rate};
use nf_model::State;
use nf_net::{LinkId, Network};
use nf_report_def::ReportRule;
use nf_side::link_of;
use nf_text::{ReadLine, is_word};

/// The kind of a line after the head.
#[derive(Clone, Copy)]
pub enum LineKind {
    Label,
    Inflow,
    Outflow,
    Queue,
    Never,
    State,
    End,
}

// Returns the kind of a line, given its first word. `never` is a keyword from version 2 on.
fn kind_of_line(version: u32, word: &[u8]) -> Option<LineKind>
    ensures { option_map seen_line_kind result ≡ line_kind version word.now }
{
    if is_word(word, b"label") {
        Some(LineKind::Label)
    } else if is_word(word, b"inflow") {
        Some(LineKind::Inflow)
    } else if is_word(word, b"outflow") {
        Some(LineKind::Outflow)
    } else if is_word(word, b"queue") {
        Some(LineKind::Queue)
    } else if is_word(word, b"state") {
        Some(LineKind::State)
    } else if is_word(word, b"end") {
        Some(LineKind::End)
    } else if version != 1 && is_word(word, b"never") {
        Some(LineKind::Never)
    } else {
        None
    }
}

fn state_named(word: &[u8]) -> Option<State>
    ensures { result ≡ state_in word.now }
{
    if is_word(word, b"tight") {
        Some(State::Tight)
    } else if is_word(word, b"full") {
        Some(State::Full)
    } else if is_word(word, b"zero") {
        Some(State::Zero)
    } else {
        None
    }
}

// Reads the state of a link. Fails with P9 if the word is unknown, or if an unbounded link is full.
fn read_state(net: &Network, link: LinkId, word: &[u8]) -> Result<State, ReportRule>
    requires { link < length net.now.net.links }
    ensures { result ≡ state_read (capacity_at net.now.net.links link) word.now }
{
    match (state_named(word), net.link(link).capacity) {
        (None, _) | (Some(State::Full), None) => Err(ReportRule::P9),
        (Some(state), _) => Ok(state),
    }
}

// Returns whether the next line begins with the word of this kind and this name.
fn goes_on(next: Option<&ReadLine>, kind: Kind, name: &[u8]) -> bool
    ensures { result ≡ begins_with (key_word (seen_kind kind)) name.now
        (words_behind (option_copied next.entry)) }
{
    match next {
        Some(next) => {
            next.len() >= 2 && is_word(next.at(0), kind.word()) && is_word(next.at(1), name)
        }
        None => false,
    }
}

// Returns whether both are equal.
fn are_alike(left: bool, right: bool) -> bool
    ensures { result ≡ are_alike_by left right }
{
    if left { right } else { !right }
}

impl Draft {
    // Reads `label NODE TIME VALUE` and `queue LINK TIME VALUE`.
    fn read_point(&self, net: &Network, kind: Kind, line: &ReadLine) -> Result<Entry, ReportRule>
        requires words { 0 < length line.now.words }
        requires within { IsWithinNetwork net.now self.now }
        ensures says { let draft = seen_draft net.now self.now in
            point_line (seen_kind kind) draft (drop 1 line.now.words)
            ≡ said_by (drafted net.now draft) result }
        ensures fits { IfOk result (λ entry. FitsDraft net.now (seen_draft net.now self.now) entry) }
    {
        if line.len() != 4 {
            return Err(ReportRule::P6);
        }
        let opening = self.opened(net, kind, line.at(1))?;
        let time = read_number(line.at(2))?;
        let value = read_number(line.at(3))?;
        if !self.comes_after(opening, time) {
            return Err(ReportRule::P11);
        }
        Ok(Entry::OfCurve(
            opening,
            RatedPoint {
                time,
                value,
                rate: None,
            },
        ))
    }

    // Reads `inflow LINK TIME VALUE RATE` and `outflow ..`. The rate is `-` exactly if the next line does not continue this curve.
    fn read_rated(
        &self,
        net: &Network,
        kind: Kind,
        line: &ReadLine,
        next: Option<&ReadLine>,
    ) -> Result<Entry, ReportRule>
        requires words { 0 < length line.now.words }
        requires within { IsWithinNetwork net.now self.now }
        ensures says { let draft = seen_draft net.now self.now in
            trace_line (seen_kind kind) draft (words_behind (option_copied next.entry))
            (drop 1 line.now.words)
            ≡ said_by (drafted net.now draft) result }
        ensures fits { IfOk result (λ entry. FitsDraft net.now (seen_draft net.now self.now) entry) }
    {
        if line.len() != 5 {
            return Err(ReportRule::P6);
        }
        let name = line.at(1);
        let opening = self.opened(net, kind, name)?;
        let time = read_number(line.at(2))?;
        let value = read_number(line.at(3))?;
        let rate = read_rate(line.at(4))?;
        if !self.comes_after(opening, time) {
            return Err(ReportRule::P11);
        }
        if are_alike(rate.is_none(), goes_on(next, kind, name)) {
            return Err(ReportRule::P12);
        }
        Ok(Entry::OfCurve(opening, RatedPoint { time, value, rate }))
    }

    // Reads `never NODE`.
    fn read_never(&self, net: &Network, line: &ReadLine) -> Result<Entry, ReportRule>
        requires words { 0 < length line.now.words }
        requires within { IsWithinNetwork net.now self.now }
        ensures says { let draft = seen_draft net.now self.now in
            never_line draft (drop 1 line.now.words) ≡ said_by (drafted net.now draft) result }
        ensures fits { IfOk result (λ entry. FitsDraft net.now (seen_draft net.now self.now) entry) }
    {
        if line.len() != 2 {
            return Err(ReportRule::P6);
        }
        if !self.never_comes(net, line.at(1)) {
            return Err(ReportRule::P7);
        }
        Ok(Entry::Never)
    }

    // Reads `state LINK STATE`.
    fn read_state(&self, net: &Network, line: &ReadLine) -> Result<Entry, ReportRule>
        requires words { 0 < length line.now.words }
        requires within { IsWithinNetwork net.now self.now }
        ensures says { let draft = seen_draft net.now self.now in
            state_line net.now draft (drop 1 line.now.words)
            ≡ said_by (drafted net.now draft) result }
        ensures fits { IfOk result (λ entry. FitsDraft net.now (seen_draft net.now self.now) entry) }
    {
        if line.len() != 3 {
            return Err(ReportRule::P6);
        }
        // Proof: each link has a name.
        net.recall();
        let link = match link_of(net, line.at(1)) {
            Some(link) if link.0 >= self.next_state => link,
            _ => return Err(ReportRule::P7),
        };
        let state = read_state(net, link, line.at(2))?;
        if !self.has_all(net) {
            return Err(ReportRule::P13);
        }
        Ok(Entry::OfLink(link, state))
    }

    // Reads `end`.
    fn read_end(&self, net: &Network, line: &ReadLine) -> Result<Entry, ReportRule>
        requires words { 0 < length line.now.words }
        requires within { IsWithinNetwork net.now self.now }
        ensures says { let draft = seen_draft net.now self.now in
            end_line draft (drop 1 line.now.words) ≡ said_by (drafted net.now draft) result }
        ensures fits { IfOk result (λ entry. FitsDraft net.now (seen_draft net.now self.now) entry) }
    {
        if line.len() != 1 {
            return Err(ReportRule::P6);
        }
        if !self.has_all(net) {
            return Err(ReportRule::P13);
        }
        Ok(Entry::End)
    }

    /// Returns the meaning of a line after the head, or the first rule that the line breaks. `next` is the line after it.
    pub(crate) fn read_body(
        &self,
        net: &Network,
        line: &ReadLine,
        next: Option<&ReadLine>,
    ) -> Result<Entry, ReportRule>
        requires words { 0 < length line.now.words }
        requires within { IsWithinNetwork net.now self.now }
        ensures says { let draft = seen_draft net.now self.now in
            body_line net.now draft (words_behind (option_copied next.entry)) line.now.words
            ≡ said_by (drafted net.now draft) result }
        ensures fits { IfOk result (λ entry. FitsDraft net.now (seen_draft net.now self.now) entry) }
    {
        let Some(kind) = kind_of_line(net.version(), line.at(0)) else {
            return Err(ReportRule::P5);
        };
        match kind {
            LineKind::Label => self.read_point(net, Kind::Label, line),
            LineKind::Inflow => self.read_rated(net, Kind::Inflow, line, next),
            LineKind::Outflow => self.read_rated(net, Kind::Outflow, line, next),
            LineKind::Queue => self.read_point(net, Kind::Queue, line),
            LineKind::Never => self.read_never(net, line),
            LineKind::State => self.read_state(net, line),
            LineKind::End => self.read_end(net, line),
        }
    }
}
