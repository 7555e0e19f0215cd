//! Commands that drive the machine, each by plain lines.

ghost use Rattle.std.specs.Prelude.{◌≡◌, ◌<◌, ◌≤◌, IfOk, IfSome, true};
ghost use Rattle.sh_command.specs.Saved.{ShowsLine};

use crate::answer::LineAnswer;
use crate::shell::{Outcome, Shell};
use evm_room::NoMemory;
use evm_streams::Meter;
use sh_answers::{
    Comparison, Condition, Line, Page, ScriptStop, Snapshot, StoppedLine, Swallowed, View,
    condition_of, holds, number_of, put_decoded, put_plain, put_swallowed, read_line, report_stop,
};
use std::alloc::Global;

/// The most rounds of `each` and `until`.
const MOST_ROUNDS: u64 = 1_048_576;

/// The rounds of `until` without `within`.
const ROUNDS: u64 = 10_000;

const EACH_FORM: &str = "bad line: wanted `each N`, N rounds of 1 to 1048576";

const UNTIL_FORM: &str =
    "bad line: wanted `until PC|owner M T|state T in-ready|oob-ready|waits|exit|fault|errno T [within N]`";

// A number of rounds.
fn rounds_of(word: &str) -> Option<u64>
    ensures { IfSome result (λ rounds. (0 < rounds) × (rounds ≤ MOST_ROUNDS)) }
{
    let rounds = number_of(word)?;
    if rounds == 0 || rounds > MOST_ROUNDS {
        return None;
    }
    Some(rounds)
}

// Whether a processor was stopped then.
fn was_stopped(before: Option<&Snapshot>, c: u8) -> bool {
    let Some(before) = before else {
        return false;
    };
    match before.processors.get(usize::from(c)) {
        Some(processor) => processor.stopped,
        None => false,
    }
}

/// The plain line of steps of a processor.
pub(crate) fn put_steps(page: &mut Page, c: u8, count: u64) -> Result<(), NoMemory> {
    page.put("step ")?;
    page.put_decimal(u64::from(c))?;
    page.put(" ")?;
    page.put_decimal(count)
}

impl<M: Meter + Drop> Shell<'_, M> {
    // Does a plain line, and appends the text of its view; false where it is not done, which the answer says.
    pub(crate) fn run_plain(
        &mut self,
        line: &[u8],
        answer: &mut LineAnswer,
    ) -> Result<bool, NoMemory>
        ensures image { self.new.scripted.image ≡ self.old.scripted.image }
        ensures done { IfOk result (λ done. done ≡ true → ShowsLine line.now self.old.scripted self.new.scripted answer.old.page answer.new.page) }
    {
        let alloc = answer.alloc;
        let mut text = String::new(alloc);
        match self.scripted.run(alloc, line, &mut text, &mut self.notes) {
            Ok(()) => {
                answer.page.put(&text)?;
                Ok(true)
            }
            Err(ScriptStop::NoMemory) => Err(NoMemory),
            Err(stop) => {
                self.failed = true;
                let stopped = StoppedLine {
                    number: answer.number,
                    line,
                    stop,
                    done: self.scripted.lines(),
                    image: self.image,
                };
                report_stop(alloc, &mut answer.page, &stopped)?;
                Ok(false)
            }
        }
    }

    // What the machine is now, if there is one.
    fn shot(&self, alloc: Global) -> Result<Option<Snapshot>, NoMemory> {
        match self.scripted.machine() {
            None => Ok(None),
            Some(machine) => Ok(Some(Snapshot::of(alloc, machine)?)),
        }
    }

    // The steps of a processor, whose line was the last that was done, that did nothing.
    fn swallowed(&self, cpu: u8) -> Option<Swallowed> {
        let steps = self.notes.swallowed();
        Some(Swallowed { cpu, steps })
    }

    // What has changed since then.
    fn tell(
        &mut self,
        before: Option<&Snapshot>,
        swallowed: Option<Swallowed>,
        page: &mut Page,
    ) -> Result<(), NoMemory>
        ensures { self.new.scripted.image ≡ self.old.scripted.image }
    {
        if let Some(machine) = self.scripted.machine()
            && let Some(before) = before
        {
            let comparison = Comparison {
                names: &self.names,
                machine,
                old: before,
            };
            comparison.put_states(page, swallowed)?;
        }
        self.tell_watches(page)
    }

    /// A line of a script, with names.
    pub(crate) fn plain(&mut self, text: &str, answer: &mut LineAnswer) -> Result<Outcome, NoMemory>
        ensures { self.new.scripted.image ≡ self.old.scripted.image }
    {
        let mut line = Page::new(answer.alloc);
        put_plain(&mut line, &self.names, text)?;
        let before = self.shot(answer.alloc)?;
        if !self.run_plain(line.bytes(), answer)? {
            return Ok(Outcome::Said);
        }
        let page = &mut answer.page;
        match read_line(line.bytes()) {
            Ok(Line::Show(view)) => self.decode(&view, page)?,
            Ok(Line::Steps(c, count)) if was_stopped(before.as_ref(), c) => {
                self.tell_swallowed(c, count, page)?;
            }
            Ok(Line::Steps(c, _)) => self.tell(before.as_ref(), self.swallowed(c), page)?,
            _ => self.tell(before.as_ref(), None, page)?,
        }
        Ok(Outcome::Said)
    }

    fn decode(&self, view: &View, page: &mut Page) -> Result<(), NoMemory> {
        match self.scripted.machine() {
            None => Ok(()),
            Some(machine) => put_decoded(page, &self.names, machine, &self.notes, view),
        }
    }

    fn tell_swallowed(&self, c: u8, count: u32, page: &mut Page) -> Result<(), NoMemory> {
        match self.scripted.machine() {
            None => Ok(()),
            Some(machine) => put_swallowed(page, &self.names, machine, c, count),
        }
    }

    // Steps of a processor, as a plain line.
    fn steps(&mut self, c: u8, count: u64, answer: &mut LineAnswer) -> Result<bool, NoMemory>
        ensures { self.new.scripted.image ≡ self.old.scripted.image }
    {
        let mut line = Page::new(answer.alloc);
        put_steps(&mut line, c, count)?;
        self.run_plain(line.bytes(), answer)
    }

    // A step of each processor.
    fn round(&mut self, cpus: u8, answer: &mut LineAnswer) -> Result<bool, NoMemory>
        ensures { self.new.scripted.image ≡ self.old.scripted.image }
    {
        for c in 0..cpus {
            if !self.steps(c, 1, answer)? {
                return Ok(false);
            }
        }
        Ok(true)
    }

    fn rounds(&mut self, cpus: u8, count: u64, answer: &mut LineAnswer) -> Result<(), NoMemory>
        ensures { self.new.scripted.image ≡ self.old.scripted.image }
    {
        if cpus == 1 {
            let _done = self.steps(0, count, answer)?;
            return Ok(());
        }
        for done in 0..count {
            self.meter.passed(done);
            if !self.round(cpus, answer)? {
                return Ok(());
            }
        }
        Ok(())
    }

    /// `each N`: N rounds over all processors.
    pub(crate) fn each(&mut self, rest: &str, answer: &mut LineAnswer) -> Result<Outcome, NoMemory>
        ensures { self.new.scripted.image ≡ self.old.scripted.image }
    {
        let Some(count) = rounds_of(rest) else {
            return Ok(Outcome::Wanted(EACH_FORM));
        };
        let Some(machine) = self.scripted.machine() else {
            return Ok(Outcome::NotBooted);
        };
        let cpus = machine.cpu_count();
        let before = self.shot(answer.alloc)?;
        let outcome = self.rounds(cpus, count, answer);
        self.meter.ended();
        outcome?;
        let swallowed = if cpus == 1 { self.swallowed(0) } else { None };
        self.tell(before.as_ref(), swallowed, &mut answer.page)?;
        Ok(Outcome::Said)
    }

    // How many rounds came before a condition held; none where it never did, or a step was not done.
    fn rounds_until(
        &mut self,
        condition: Condition,
        bound: u64,
        answer: &mut LineAnswer,
    ) -> Result<Option<u64>, NoMemory>
        ensures { self.new.scripted.image ≡ self.old.scripted.image }
    {
        for done in 0..bound {
            let Some(machine) = self.scripted.machine() else {
                return Ok(None);
            };
            if holds(condition, machine) {
                return Ok(Some(done));
            }
            let cpus = machine.cpu_count();
            self.meter.passed(done);
            if !self.round(cpus, answer)? {
                return Ok(None);
            }
        }
        match self.scripted.machine() {
            Some(machine) if holds(condition, machine) => Ok(Some(bound)),
            _ => Ok(None),
        }
    }

    fn say_rounds(&mut self, reached: Option<u64>, page: &mut Page) -> Result<(), NoMemory>
        ensures { self.new.scripted.image ≡ self.old.scripted.image }
    {
        match reached {
            Some(rounds) => {
                page.put("  reached after ")?;
                page.put_decimal(rounds)?;
                page.put(" rounds\n")
            }
            None => {
                self.failed = true;
                page.put("  not reached\n")
            }
        }
    }

    /// `until CONDITION [within N]`: rounds over all processors until a condition holds, or N of them.
    pub(crate) fn until(&mut self, rest: &str, answer: &mut LineAnswer) -> Result<Outcome, NoMemory>
        ensures { self.new.scripted.image ≡ self.old.scripted.image }
    {
        let (words, bound) = match rest.split_once(" within ") {
            None => (rest, Some(ROUNDS)),
            Some((words, bound)) => (words, rounds_of(bound)),
        };
        let (Some(condition), Some(bound)) = (condition_of(&self.names, words), bound) else {
            return Ok(Outcome::Wanted(UNTIL_FORM));
        };
        if self.scripted.machine().is_none() {
            return Ok(Outcome::NotBooted);
        }
        let before = self.shot(answer.alloc)?;
        let outcome = self.rounds_until(condition, bound, answer);
        self.meter.ended();
        let reached = outcome?;
        self.say_rounds(reached, &mut answer.page)?;
        self.tell(before.as_ref(), None, &mut answer.page)?;
        Ok(Outcome::Said)
    }
}
