ghost use Rattle.std.specs.Prelude.{◌≡◌, ◌<◌, ◌-◌, slice_get, IfSome};
ghost use Rattle.evm_lines.specs.Lines.{has_line, has_none, least_line};
ghost use Rattle.evm_model.specs.Bounds.{COUNT_LIMIT, PipeUpTo};
ghost use Rattle.evm_model.specs.Pipes.{idle_pipe, idle_log, no_counts, log_of, raise, arrive, leave_wire, receive, play, set_stall};

use crate::counting::{arrive_in, play_in, raise_in, receive_in};
use evm_lines::{LINE_COUNT, LINES, LineSet};
use evm_model::{Counts, Passage, Stage, StageLog};
use std::marker::Model;

/// The pipe of one processor.
#[derive(Clone, Copy, Debug)]
pub struct Pipe {
    oob: StageLog,
    in_band: StageLog,
    wire: LineSet,
    counts: [Counts; LINE_COUNT],
}

impl Model for Pipe {
    ghost use Rattle.evm_model.specs.Pipes as model;

    ghost Value = { model.Pipe };

    ghost view = { λ p. record { oob = p.oob; in_band = p.in_band; wire = p.wire; counts = p.counts } };

    ghost inverse = { λ p. record { oob = p.oob; in_band = p.in_band; wire = p.wire; counts = p.counts } };
}

fn idle_log() -> StageLog
    ensures { result ≡ idle_log }
{
    StageLog {
        stalled: false,
        lines: LineSet::new(),
    }
}

fn no_counts() -> Counts
    ensures { result ≡ no_counts }
{
    let passage = Passage {
        arrivals: 0,
        merged: 0,
        played: 0,
    };
    Counts {
        raised: 0,
        merged: 0,
        received: 0,
        oob: passage,
        in_band: passage,
    }
}

impl Pipe {
    /// A pipe where nothing has happened.
    pub fn new() -> Pipe
        ensures { result ≡ idle_pipe }
    {
        Pipe {
            oob: idle_log(),
            in_band: idle_log(),
            wire: LineSet::new(),
            counts: [no_counts(); LINE_COUNT],
        }
    }

    /// The lines that were raised and not yet received.
    pub fn wire(&self) -> LineSet
        ensures { result ≡ self.now.wire }
    {
        self.wire
    }

    /// The log of a stage.
    pub fn log(&self, stage: Stage) -> StageLog
        ensures { result ≡ log_of stage self.now }
    {
        match stage {
            Stage::OutOfBand => self.oob,
            Stage::InBand => self.in_band,
        }
    }

    /// How often what happened to a line; None where there is no such line.
    pub fn counts(&self, line: u8) -> Option<Counts>
        ensures { result ≡ slice_get self.now.counts line }
    {
        self.counts.get(line as usize).copied()
    }

    /// How often what happened to each line: of line l the l-th.
    pub fn line_counts(&self) -> &[Counts]
        ensures { result.now ≡ self.now.counts }
    {
        self.counts.as_slice()
    }

    /// Puts a line on the wire, or merges it with itself there.
    #[tactic(auto, unfolding(evm_model::specs::Pipes::raise))]
    pub fn raise(&mut self, line: u8)
        requires line { line < LINES }
        requires room { PipeUpTo COUNT_LIMIT self.old }
        ensures { self.new ≡ raise line self.old }
    {
        let merged = self.wire.contains(line);
        self.wire.insert(line);
        raise_in(&mut self.counts, line, merged);
    }

    /// Puts a line into the log of a stage, or merges it with itself there.
    #[tactic(auto, unfolding(evm_model::specs::Pipes::arrive))]
    pub fn arrive(&mut self, stage: Stage, line: u8)
        requires line { line < LINES }
        requires room { PipeUpTo COUNT_LIMIT self.old }
        ensures { self.new ≡ arrive stage line self.old }
    {
        match stage {
            Stage::OutOfBand => {
                let merged = self.oob.lines.contains(line);
                self.oob.lines.insert(line);
                arrive_in(&mut self.counts, stage, line, merged);
            }
            Stage::InBand => {
                let merged = self.in_band.lines.contains(line);
                self.in_band.lines.insert(line);
                arrive_in(&mut self.counts, stage, line, merged);
            }
        }
    }

    // Takes a line from the wire.
    #[tactic(auto, unfolding(evm_model::specs::Pipes::leave_wire))]
    fn leave_wire(&mut self, line: u8)
        requires line { line < LINES }
        requires room { PipeUpTo COUNT_LIMIT self.old }
        ensures { self.new ≡ leave_wire line self.old }
    {
        self.wire.remove(line);
        receive_in(&mut self.counts, line);
    }

    /// Takes a line from the wire into the log of a stage.
    #[tactic(auto, using(crate::proofs::Growing::leave_wire_grows), unfolding(evm_model::specs::Pipes::receive))]
    pub fn receive(&mut self, stage: Stage, line: u8)
        requires line { line < LINES }
        requires room { PipeUpTo (COUNT_LIMIT - 1) self.old }
        ensures { self.new ≡ receive stage line self.old }
    {
        self.leave_wire(line);
        self.arrive(stage, line);
    }

    /// Takes a line from the log of a stage, to be played.
    #[tactic(auto, unfolding(evm_model::specs::Pipes::play))]
    pub fn play(&mut self, stage: Stage, line: u8)
        requires line { line < LINES }
        requires room { PipeUpTo COUNT_LIMIT self.old }
        ensures { self.new ≡ play stage line self.old }
    {
        play_in(&mut self.counts, stage, line);
        match stage {
            Stage::OutOfBand => self.oob.lines.remove(line),
            Stage::InBand => self.in_band.lines.remove(line),
        }
    }

    /// Stalls a stage, or lets it go on.
    #[tactic(auto, unfolding(evm_model::specs::Pipes::set_stall))]
    pub fn set_stall(&mut self, stage: Stage, stalled: bool)
        ensures { self.new ≡ set_stall stage stalled self.old }
    {
        match stage {
            Stage::OutOfBand => self.oob.stalled = stalled,
            Stage::InBand => self.in_band.stalled = stalled,
        }
    }
}

impl Default for Pipe {
    /// A pipe where nothing has happened.
    fn default() -> Self {
        Pipe::new()
    }
}
