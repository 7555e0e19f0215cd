//! Names on the track of a task.

use crate::bearer::Bearer;
use std::marker::Model;

/// A name on the track of a task.
#[derive(Drop)]
pub struct Label {
    pub task: u8,
    pub bearer: Bearer,
    pub name: String,
}

impl Model for Label {
    ghost use Rattle.std.specs.String.{string_bytes};
    ghost use Rattle.trace_records.specs.Labels.{LabelValue};

    ghost Value = { LabelValue };

    ghost view = { λ label. record { task = label.task; bearer = label.bearer; name = string_bytes label.name } };
}
