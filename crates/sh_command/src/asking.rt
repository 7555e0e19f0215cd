//! Commands that look at the machine and leave it as it is.

ghost use Rattle.std.specs.Prelude.{◌≡◌};

use crate::answer::LineAnswer;
use crate::shell::{Outcome, Shell, Watch};
use evm_room::NoMemory;
use evm_streams::Meter;
use sh_answers::{
    AnyDevice, Comparison, Line, Machine, Names, Page, Snapshot, address_of, numbers_of, push_one,
    put_line, put_numbers, put_place, put_plain, read_line,
};
use std::alloc::Global;
use text_symbols::{CodeSpot, SymbolTable};

/// The most watches.
const MOST_WATCHES: usize = 16;

const EXPECT_FORM: &str = "bad line: wanted `expect VIEW is TEXT` or `expect VIEW has TEXT`";

const WATCH_FORM: &str = "bad line: wanted `watch ADDRESS`, of up to 16 words of 8 bytes in RAM";

const SHOW_FORM: &str =
    "bad line: wanted `show ADDRESS as TYPE` or `TYPE[N]`, of u8 to u64 or s8 to s64, inside RAM";

const MARK_FORM: &str = "bad line: wanted `mark`";

const DIFF_FORM: &str = "bad line: wanted `diff`, after a `mark`";

const WHERE_FORM: &str = "bad line: wanted `where ADDRESS`";

const SYMBOLS_FORM: &str = "bad line: wanted `symbols`";

// The word of 8 bytes at an address.
fn word_at(machine: &Machine<AnyDevice>, address: u64) -> Option<u64> {
    let bytes = machine.bytes(address, 8)?;
    let mut value = 0u64;
    for byte in bytes.iter().rev() {
        value = value.wrapping_mul(256).wrapping_add(u64::from(*byte));
    }
    Some(value)
}

// A view, how its text is compared, and with what.
fn expected(rest: &str) -> Option<(&str, bool, &str)> {
    if let Some((view, text)) = rest.split_once(" is ") {
        return Some((view, true, text));
    }
    let (view, text) = rest.split_once(" has ")?;
    Some((view, false, text))
}

// Whether the text of a view is what is wanted, or has it.
fn is_met(seen: &[u8], whole: bool, wanted: &str) -> bool {
    match std::str::from_utf8(seen) {
        Ok(text) if whole => text.trim_end() == wanted,
        Ok(text) => text.contains(wanted),
        Err(_) => false,
    }
}

fn put_watch(
    page: &mut Page,
    names: &Names,
    watch: &Watch,
    new: Option<u64>,
) -> Result<(), NoMemory> {
    page.put("  ")?;
    put_place(page, names, watch.address)?;
    page.put(" ")?;
    page.put_decimal(watch.value.unwrap_or(0))?;
    page.put(" -> ")?;
    page.put_decimal(new.unwrap_or(0))?;
    page.put("\n")
}

impl<M: Meter + Drop> Shell<'_, M> {
    /// Says which watched words have changed.
    pub(crate) fn tell_watches(&mut self, page: &mut Page) -> Result<(), NoMemory>
        ensures { self.new.scripted.image ≡ self.old.scripted.image }
    {
        let Some(machine) = self.scripted.machine() else {
            return Ok(());
        };
        for watch in self.watches.iter_mut() {
            let new = word_at(machine, watch.address);
            if new != watch.value {
                put_watch(page, &self.names, watch, new)?;
                watch.value = new;
            }
        }
        Ok(())
    }

    /// `watch ADDRESS`: from now on each change of a word of 8 bytes is said.
    pub(crate) fn watch(&mut self, rest: &str, page: &mut Page) -> Result<Outcome, NoMemory>
        ensures { self.new.scripted.image ≡ self.old.scripted.image }
    {
        let Some(address) = address_of(&self.names.symbols, rest) else {
            return Ok(Outcome::Wanted(WATCH_FORM));
        };
        let Some(machine) = self.scripted.machine() else {
            return Ok(Outcome::NotBooted);
        };
        let value = word_at(machine, address);
        if value.is_none() || self.watches.len() >= MOST_WATCHES {
            return Ok(Outcome::Wanted(WATCH_FORM));
        }
        push_one(&mut self.watches, Watch { address, value })?;
        page.put("  ")?;
        put_place(page, &self.names, address)?;
        page.put(" is ")?;
        page.put_decimal(value.unwrap_or(0))?;
        page.put("\n")?;
        Ok(Outcome::Said)
    }

    /// `expect VIEW is TEXT`: whether the text of a view is this, or has it.
    pub(crate) fn expect(
        &mut self,
        rest: &str,
        answer: &mut LineAnswer,
    ) -> Result<Outcome, NoMemory>
        ensures { self.new.scripted.image ≡ self.old.scripted.image }
    {
        let Some((view, whole, wanted)) = expected(rest) else {
            return Ok(Outcome::Wanted(EXPECT_FORM));
        };
        let mut line = Page::new(answer.alloc);
        put_plain(&mut line, &self.names, view)?;
        let Ok(Line::Show(_)) = read_line(line.bytes()) else {
            return Ok(Outcome::Wanted(EXPECT_FORM));
        };
        let mut seen = LineAnswer::new(answer.alloc, answer.number);
        if !self.run_plain(line.bytes(), &mut seen)? {
            self.add_case(rest, false, &seen)?;
            answer.page.put_bytes(seen.bytes())?;
            return Ok(Outcome::Said);
        }
        let met = is_met(seen.bytes(), whole, wanted);
        self.add_case(rest, met, &seen)?;
        self.tell_met(seen.bytes(), met, &mut answer.page)?;
        Ok(Outcome::Said)
    }

    // Adds a case to the test suite, if one is written.
    fn add_case(&mut self, words: &str, met: bool, seen: &LineAnswer) -> Result<(), NoMemory>
        ensures { self.new.scripted.image ≡ self.old.scripted.image }
    {
        let Some(cases) = &mut self.cases else {
            return Ok(());
        };
        let shown = if met {
            None
        } else {
            Some(std::str::from_utf8(seen.bytes()).unwrap_or(""))
        };
        cases.add(seen.alloc, seen.number, words, shown)
    }

    // Says whether an expectation is met, and what was seen if not.
    fn tell_met(&mut self, seen: &[u8], met: bool, page: &mut Page) -> Result<(), NoMemory>
        ensures { self.new.scripted.image ≡ self.old.scripted.image }
    {
        if met {
            return page.put("  as expected\n");
        }
        self.failed = true;
        page.put_bytes(seen)?;
        page.put("  differs\n")
    }

    /// `show ADDRESS as TYPE[N]`: what RAM holds, as numbers.
    pub(crate) fn show(&mut self, rest: &str, page: &mut Page) -> Result<Outcome, NoMemory>
        ensures { self.new.scripted.image ≡ self.old.scripted.image }
    {
        let Some(numbers) = numbers_of(&self.names, rest) else {
            return Ok(Outcome::Wanted(SHOW_FORM));
        };
        let Some(machine) = self.scripted.machine() else {
            return Ok(Outcome::NotBooted);
        };
        page.put(" ")?;
        if !put_numbers(page, machine, numbers)? {
            page.put("\n")?;
            return Ok(Outcome::Wanted(SHOW_FORM));
        }
        page.put("\n")?;
        Ok(Outcome::Said)
    }

    /// `mark`: what `diff` compares with.
    pub(crate) fn set_mark(&mut self, alloc: Global, rest: &str) -> Result<Outcome, NoMemory>
        ensures { self.new.scripted.image ≡ self.old.scripted.image }
    {
        if !rest.is_empty() {
            return Ok(Outcome::Wanted(MARK_FORM));
        }
        let Some(machine) = self.scripted.machine() else {
            return Ok(Outcome::NotBooted);
        };
        self.mark = Some(Snapshot::of(alloc, machine)?);
        Ok(Outcome::Said)
    }

    /// `diff`: what has changed since the last `mark`.
    pub(crate) fn diff(&mut self, rest: &str, page: &mut Page) -> Result<Outcome, NoMemory>
        ensures { self.new.scripted.image ≡ self.old.scripted.image }
    {
        let Some(machine) = self.scripted.machine() else {
            return Ok(Outcome::NotBooted);
        };
        let Some(mark) = &self.mark else {
            return Ok(Outcome::Wanted(DIFF_FORM));
        };
        if !rest.is_empty() {
            return Ok(Outcome::Wanted(DIFF_FORM));
        }
        page.put("  ")?;
        page.put_decimal(machine.event_count().saturating_sub(mark.events))?;
        page.put(" events, ")?;
        page.put_decimal(machine.ticks().saturating_sub(mark.ticks))?;
        page.put(" ticks\n")?;
        let comparison = Comparison {
            names: &self.names,
            machine,
            old: mark,
        };
        comparison.put_states(page, None)?;
        comparison.put_owners(page)?;
        comparison.put_harts(page)?;
        Ok(Outcome::Said)
    }

    /// `where ADDRESS`: an address by number and by name, and the line of the source that its code comes from.
    pub(crate) fn place(&mut self, rest: &str, page: &mut Page) -> Result<Outcome, NoMemory>
        ensures { self.new.scripted.image ≡ self.old.scripted.image }
    {
        let Some(address) = address_of(&self.names.symbols, rest) else {
            return Ok(Outcome::Wanted(WHERE_FORM));
        };
        page.put("  ")?;
        page.put_hexadecimal(address)?;
        page.put(" ")?;
        put_place(page, &self.names, address)?;
        if let Some(CodeSpot::Source(line)) = self.names.code(address) {
            page.put(", ")?;
            put_line(page, line)?;
        }
        page.put("\n")?;
        Ok(Outcome::Said)
    }

    /// `symbols`: the names that the image has.
    pub(crate) fn list(&mut self, rest: &str, page: &mut Page) -> Result<Outcome, NoMemory>
        ensures { self.new.scripted.image ≡ self.old.scripted.image }
    {
        if !rest.is_empty() {
            return Ok(Outcome::Wanted(SYMBOLS_FORM));
        }
        match self.names.symbols.table() {
            SymbolTable::Absent => page.put("  the image has no symbol table\n")?,
            SymbolTable::Damaged => page.put("  the image has a damaged symbol table\n")?,
            SymbolTable::Read => {}
        }
        for symbol in self.names.symbols.symbols() {
            page.put("  ")?;
            page.put_hexadecimal(symbol.value())?;
            page.put(" ")?;
            page.put(symbol.name())?;
            page.put("\n")?;
        }
        Ok(Outcome::Said)
    }
}
