//! Deadlines, timers, notices, promotions and ends as flags.

ghost use Rattle.std.specs.Prelude.{◌≡◌, ◌<◌, false, IfOk, length};

use crate::layout::{FLAGS, LABEL, y_of};
use crate::lines::{Place, push_point, words_of};
use crate::room::{Rows, takes_room};
use crate::shapes::{label, polygon};
use evm_model::{Stage, Wait};
use evm_room::Refused;
use text_markup::Draft;
use view_timeline::{Deed, Mark, Piece, Shown, say};

// What is written on a flag: the word, and the task.
fn flag(mark: &Mark) -> Option<(&'static str, u8)> {
    match *mark {
        Mark::Deadline { task, .. } => Some(("deadline ", task)),
        Mark::Woken {
            task,
            wait: Wait::Timer(_),
        } => Some(("timer ", task)),
        Mark::Notice { task, .. } => Some(("notice ", task)),
        Mark::Created { task } => Some(("new ", task)),
        Mark::Ended { task } => Some(("end ", task)),
        Mark::Faulted { task, .. } => Some(("fault ", task)),
        Mark::Migrates { task, .. } => Some(("moves ", task)),
        Mark::Moves {
            task,
            stage: Stage::OutOfBand,
        } => Some(("oob ", task)),
        Mark::Moves {
            task,
            stage: Stage::InBand,
        } => Some(("in ", task)),
        _ => None,
    }
}

fn is_alarm(mark: &Mark) -> bool {
    match mark {
        Mark::Deadline { .. } | Mark::Notice { .. } | Mark::Faulted { .. } => true,
        _ => false,
    }
}

// The row of flags that has room for a flag and its label: the first, or the second; the third has flags without labels.
fn row_of(rows: &mut Rows, cpu: u8, x: u32, text: &str) -> u32 {
    if takes_room(&mut rows.upper, cpu, x, text) {
        return 0;
    }
    if takes_room(&mut rows.lower, cpu, x, text) {
        return 1;
    }
    2
}

/// Appends the points of a flag.
pub(crate) fn push_flag(out: &mut String, x: u32, y: u32) -> Result<(), Refused> {
    push_point(out, x, y.saturating_sub(8))?;
    push_point(out, x.saturating_add(7), y.saturating_sub(4))?;
    push_point(out, x, y)
}

/// The flag of a mark, if it has one.
pub(crate) fn flag_sign(
    draft: Draft,
    at: Place<'_>,
    shown: &Shown,
    rows: &mut Rows,
) -> Result<Draft, Refused>
    requires content { draft.in_tag ≡ false }
    requires inside { 0 < length draft.tags }
    ensures { IfOk result (λ new. new ≡ draft) }
{
    let Deed::Mark(mark) = shown.deed else {
        return Ok(draft);
    };
    let (Some((word, task)), Some(cpu)) = (flag(&mark), shown.subject) else {
        return Ok(draft);
    };
    let class = if is_alarm(&mark) { "alarm" } else { "flag" };
    let words = words_of(at, shown)?;
    let mut name = String::new(at.alloc);
    say(
        &mut name,
        &[Piece::Text(word), Piece::Number(u64::from(task))],
    )?;
    let x = at.x.saturating_add(2);
    let row = row_of(rows, cpu, x, name.as_str());
    let y = y_of(at.top, cpu, FLAGS).saturating_add(row.saturating_mul(LABEL));
    let mut points = String::new(at.alloc);
    push_flag(&mut points, x, y)?;
    let draft = polygon(draft, class, points.as_str(), words.as_str())?;
    if row < 2 {
        label(draft, class, x.saturating_add(9), y, name.as_str())
    } else {
        Ok(draft)
    }
}
