//! A page: its markup, its style, one run or two, and its script.

ghost use Rattle.std.specs.Prelude.{◌≡◌, ◌++◌, OnOk, List, ℕ};
ghost use Rattle.std.specs.String.{string_bytes};
ghost use Rattle.view_page.specs.Entries.{Entry};
ghost use Rattle.view_page.specs.Pages.{AddsRun, TellsAll};
ghost use Rattle.view_page.specs.Texts.{run_text};

use crate::about::{About, about_text};
use crate::row::push_safe;
use crate::script::SCRIPT;
use crate::shell::{HEAD, TAIL};
use crate::style::STYLE;
use crate::telling::push_run;
use evm_dev::Device;
use evm_ram::Image;
use evm_room::{Refused, push_text};
use evm_streams::Meter;
use run_walk::{Devices, Walk, WalkStop};
use std::alloc::Global;

/// A run that a page tells of.
#[derive(Clone, Copy)]
pub struct ToldRun<'a> {
    pub about: About<'a>,
    /// The image of the program.
    pub image: &'a Image,
    /// The text of the journal.
    pub journal: &'a str,
}

// Appends a run that is walked, with its header.
fn push_walk<D: Device, M: Meter>(
    alloc: Global,
    out: &mut String,
    header: &[u8],
    walk: &mut Walk<D>,
    meter: &mut M,
) -> Result<(), WalkStop>
    ensures { OnOk result ((start : List ℕ) × (entries : List Entry) × TellsAll walk.old entries × (string_bytes out.new ≡ string_bytes out.old ++ run_text header.now start entries)) }
{
    push_text(out, "<script type=\"application/json\" class=\"about\">")?;
    push_safe(out, header)?;
    push_text(
        out,
        "</script>\n<script type=\"application/json\" class=\"run\">",
    )?;
    push_run(alloc, out, walk, meter)?;
    push_text(out, "</script>\n")?;
    Ok(())
}

/// Appends the run of a journal, which is replayed on a machine with the devices and its image.
///
/// # Errors
///
/// The first fault, as a replay reports it; or memory was refused.
pub fn push_journal<D: Device, M: Meter>(
    alloc: Global,
    out: &mut String,
    devices: Devices<D>,
    run: &ToldRun<'_>,
    meter: &mut M,
) -> Result<(), WalkStop>
    ensures { OnOk result (AddsRun devices run.now.image.now run.now.journal.now (string_bytes out.old) (string_bytes out.new)) }
{
    let header = about_text(alloc, &run.about, run.journal)?;
    let mut walk = Walk::start(alloc, run.image, devices, run.journal)?;
    push_walk(alloc, out, header.as_bytes(), &mut walk, meter)
}

/// What stands in a page before its runs.
pub fn page_head(alloc: Global) -> Result<String, Refused> {
    let mut out = String::new(alloc);
    push_text(&mut out, HEAD)?;
    push_text(&mut out, "<style>\n")?;
    push_text(&mut out, STYLE)?;
    push_text(&mut out, "</style>\n")?;
    Ok(out)
}

/// Appends what stands in a page behind its runs.
pub fn push_tail(out: &mut String) -> Result<(), Refused>
    ensures { OnOk result ((back : List ℕ) × (string_bytes out.new ≡ string_bytes out.old ++ back)) }
{
    push_text(out, "<script>\n")?;
    push_text(out, SCRIPT)?;
    push_text(out, "</script>\n")?;
    push_text(out, TAIL)
}
