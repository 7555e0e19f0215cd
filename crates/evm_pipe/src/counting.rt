ghost use Rattle.std.specs.Prelude.{◌≡◌, slice_get, Option};
ghost use Rattle.evm_model.specs.Bounds.{COUNT_LIMIT, UpTo, PassageUpTo};
ghost use Rattle.evm_model.specs.Lists.{change};
ghost use Rattle.evm_model.specs.Pipes.{count_raise, count_receipt, count_arrival, count_play, on_passage};
ghost use Rattle.evm_model.specs.declared.counts.Counts.{Counts};

use evm_lines::LINE_COUNT;
use evm_model::{Counts, Passage, Stage};

fn count_raise(counts: &mut Counts, merged: bool)
    requires { UpTo COUNT_LIMIT counts.old }
    ensures { counts.new ≡ count_raise merged counts.old }
{
    counts.raised += 1;
    if merged {
        counts.merged += 1;
    }
}

fn count_receipt(counts: &mut Counts)
    requires { UpTo COUNT_LIMIT counts.old }
    ensures { counts.new ≡ count_receipt counts.old }
{
    counts.received += 1;
}

fn count_arrival(passage: &mut Passage, merged: bool)
    requires { PassageUpTo COUNT_LIMIT passage.old }
    ensures { passage.new ≡ count_arrival merged passage.old }
{
    passage.arrivals += 1;
    if merged {
        passage.merged += 1;
    }
}

fn count_play(passage: &mut Passage)
    requires { PassageUpTo COUNT_LIMIT passage.old }
    ensures { passage.new ≡ count_play passage.old }
{
    passage.played += 1;
}

fn count_arrival_at(counts: &mut Counts, stage: Stage, merged: bool)
    requires { UpTo COUNT_LIMIT counts.old }
    ensures { counts.new ≡ on_passage stage (count_arrival merged) counts.old }
{
    match stage {
        Stage::OutOfBand => count_arrival(&mut counts.oob, merged),
        Stage::InBand => count_arrival(&mut counts.in_band, merged),
    }
}

fn count_play_at(counts: &mut Counts, stage: Stage)
    requires { UpTo COUNT_LIMIT counts.old }
    ensures { counts.new ≡ on_passage stage count_play counts.old }
{
    match stage {
        Stage::OutOfBand => count_play(&mut counts.oob),
        Stage::InBand => count_play(&mut counts.in_band),
    }
}

/// One more raise of a line.
pub fn raise_in(counts: &mut [Counts; LINE_COUNT], line: u8, merged: bool)
    requires { (n : Counts) → slice_get counts.old line ≡ Option.Some n → UpTo COUNT_LIMIT n }
    ensures { counts.new ≡ change (count_raise merged) counts.old line }
{
    let index = line as usize;
    if counts.get(index).is_some() {
        count_raise(&mut counts[index], merged);
    }
}

/// One more receipt of a line.
pub fn receive_in(counts: &mut [Counts; LINE_COUNT], line: u8)
    requires { (n : Counts) → slice_get counts.old line ≡ Option.Some n → UpTo COUNT_LIMIT n }
    ensures { counts.new ≡ change count_receipt counts.old line }
{
    let index = line as usize;
    if counts.get(index).is_some() {
        count_receipt(&mut counts[index]);
    }
}

/// One more arrival of a line in the log of a stage.
pub fn arrive_in(counts: &mut [Counts; LINE_COUNT], stage: Stage, line: u8, merged: bool)
    requires { (n : Counts) → slice_get counts.old line ≡ Option.Some n → UpTo COUNT_LIMIT n }
    ensures { counts.new ≡ change (on_passage stage (count_arrival merged)) counts.old line }
{
    let index = line as usize;
    if counts.get(index).is_some() {
        count_arrival_at(&mut counts[index], stage, merged);
    }
}

/// One more play of a line by a stage.
pub fn play_in(counts: &mut [Counts; LINE_COUNT], stage: Stage, line: u8)
    requires { (n : Counts) → slice_get counts.old line ≡ Option.Some n → UpTo COUNT_LIMIT n }
    ensures { counts.new ≡ change (on_passage stage count_play) counts.old line }
{
    let index = line as usize;
    if counts.get(index).is_some() {
        count_play_at(&mut counts[index], stage);
    }
}
