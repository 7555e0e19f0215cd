//! The shell: a line, and what it answers.

ghost use Rattle.std.specs.Prelude.{◌≡◌, IfOk};

use crate::answer::LineAnswer;
use crate::cases::Cases;
use crate::commands::{Suggestion, UNKNOWN, missing_in, suggest};
use crate::help::SHELL_HELP;
use evm_ram::Image;
use evm_room::NoMemory;
use evm_streams::Meter;
use sh_answers::{Names, Notes, ScriptedMachine, Snapshot, split_word};
use std::alloc::Global;

/// A word of RAM that is watched: its address, and what it was.
#[derive(Clone, Copy, Debug)]
pub(crate) struct Watch {
    pub address: u64,
    pub value: Option<u64>,
}

/// A shell over a scripted machine.
#[derive(Drop)]
pub struct Shell<'a, M: Meter + Drop> {
    pub(crate) scripted: ScriptedMachine<'a>,
    pub(crate) image: &'a Image,
    pub(crate) names: Names,
    pub(crate) notes: Notes,
    pub(crate) mark: Option<Snapshot>,
    pub(crate) watches: Vec<Watch>,
    pub(crate) failed: bool,
    // the test suite, if one is written
    pub(crate) cases: Option<Cases>,
    // whether a line is shown before its answer
    pub(crate) is_echoing: bool,
    pub(crate) meter: M,
}

/// What came of a command.
#[derive(Clone, Copy, Debug, PartialEq, Eq)]
pub(crate) enum Outcome {
    /// It was done, or the page says why not.
    Said,
    /// It is misspelt: this form is wanted.
    Wanted(&'static str),
    /// No machine is booted.
    NotBooted,
}

impl<'a, M: Meter + Drop> Shell<'a, M> {
    /// A shell for an image, with the names of its addresses. The meter gets the rounds of a command.
    ///
    /// # Errors
    ///
    /// Memory was refused.
    pub fn new(alloc: Global, image: &'a Image, names: Names, meter: M) -> Result<Self, NoMemory>
        ensures { IfOk result (λ shell. shell.scripted.image ≡ image.now) }
    {
        let notes = Notes::new(alloc)?;
        Ok(Shell {
            scripted: ScriptedMachine::new(image),
            image,
            names,
            notes,
            mark: None,
            watches: Vec::new(alloc),
            failed: false,
            cases: None,
            is_echoing: true,
            meter,
        })
    }

    /// From now on a line is shown before its answer, or not.
    pub(crate) fn echo(&mut self, is_echoing: bool)
        ensures { self.new.scripted.image ≡ self.old.scripted.image }
    {
        self.is_echoing = is_echoing;
    }

    /// Whether a line was not done, or an expectation was not met.
    pub fn has_failed(&self) -> bool {
        self.failed
    }

    /// The scripted machine, with the machine and the lines of a script that made it.
    pub fn scripted(&self) -> &ScriptedMachine<'a>
        ensures { result.now ≡ self.now.scripted }
    {
        &self.scripted
    }

    // A command, from its keyword and the words behind it.
    fn command(&mut self, text: &str, answer: &mut LineAnswer) -> Result<Outcome, NoMemory>
        ensures { self.new.scripted.image ≡ self.old.scripted.image }
    {
        let (keyword, rest) = split_word(text);
        match keyword {
            "each" => self.each(rest, answer),
            "until" => self.until(rest, answer),
            "expect" => self.expect(rest, answer),
            "watch" => self.watch(rest, &mut answer.page),
            "show" => self.show(rest, &mut answer.page),
            "mark" => self.set_mark(answer.alloc, rest),
            "diff" => self.diff(rest, &mut answer.page),
            "where" => self.place(rest, &mut answer.page),
            "symbols" => self.list(rest, &mut answer.page),
            "help" => {
                answer.page.put(SHELL_HELP)?;
                Ok(Outcome::Said)
            }
            _ => self.plain(text, answer),
        }
    }

    // Says that a line is misspelt, or that there is no machine; behind the words, in quotes or not, one that is at fault.
    fn blame_word(
        &mut self,
        words: &str,
        word: &str,
        behind: &str,
        answer: &mut LineAnswer,
    ) -> Result<(), NoMemory>
        ensures { self.new.scripted.image ≡ self.old.scripted.image }
    {
        self.failed = true;
        let page = &mut answer.page;
        page.put("! line:")?;
        page.put_decimal(answer.number)?;
        page.put(": ")?;
        page.put(words)?;
        page.put(word)?;
        page.put(behind)?;
        page.put("\n")
    }

    fn blame(&mut self, words: &str, answer: &mut LineAnswer) -> Result<(), NoMemory>
        ensures { self.new.scripted.image ≡ self.old.scripted.image }
    {
        self.blame_word(words, "", "", answer)
    }

    // Whether a line is not done since it has no such command or no such symbol, which the page says then.
    fn is_unknown(&mut self, text: &str, answer: &mut LineAnswer) -> Result<bool, NoMemory>
        ensures { self.new.scripted.image ≡ self.old.scripted.image }
    {
        let (keyword, rest) = split_word(text);
        match suggest(keyword) {
            Suggestion::Known => {}
            Suggestion::Near(word) => {
                self.blame_word(
                    "bad line: no such command; did you mean `",
                    word,
                    "`?",
                    answer,
                )?;
                return Ok(true);
            }
            Suggestion::Unknown => {
                self.blame(UNKNOWN, answer)?;
                return Ok(true);
            }
        }
        let Some(name) = missing_in(&self.names, keyword, rest, text) else {
            return Ok(false);
        };
        self.blame_word("bad line: no symbol ", name, "", answer)?;
        Ok(true)
    }

    /// Does a line, without its newline, and appends to the answer the line and what it answers.
    ///
    /// # Errors
    ///
    /// Memory was refused. The machine is as the lines say that were done.
    pub fn line(&mut self, line: &[u8], answer: &mut LineAnswer) -> Result<(), NoMemory>
        ensures { self.new.scripted.image ≡ self.old.scripted.image }
    {
        let Ok(text) = std::str::from_utf8(line) else {
            return self.blame("bad line: no UTF-8", answer);
        };
        let text = text.trim_end();
        if text.is_empty() || text.starts_with('#') {
            return Ok(());
        }
        if self.is_echoing {
            answer.page.put("> ")?;
            answer.page.put(text)?;
            answer.page.put("\n")?;
        }
        if self.is_unknown(text, answer)? {
            return Ok(());
        }
        match self.command(text, answer)? {
            Outcome::Said => Ok(()),
            Outcome::Wanted(form) => self.blame(form, answer),
            Outcome::NotBooted => {
                self.blame("bad line: the first command must be `boot`", answer)
            }
        }
    }
}
