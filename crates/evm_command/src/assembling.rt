//! `asm`: the source of a file assembled into another.

ghost use Rattle.evm_command.specs.Jobs.{Creates, AssemblesFile};

use evm_host::{
    Input, System, World, assemble_to, ended_with, not_created, not_opened, not_read, read_utf8,
    report_out,
};
use std::alloc::Global;

// Creates OUT, and assembles the text of a source into it.
fn assemble_text<S: System>(
    alloc: Global,
    source: &str,
    out: &str,
    text: &str,
    world: &mut World<S>,
) -> u8
    ensures { Creates S.creates S.Created.takes S.Output.takes S.Errors.takes source.now out.now text.now world.old world.new result }
{
    match world.files.create(out) {
        Err(fault) => not_created(out, fault, &mut world.errors),
        Ok(mut file) => {
            let ending = assemble_to(alloc, text, &mut file, &mut world.output);
            let status = ended_with(Input::Source(text), source, &ending, &mut world.errors);
            report_out(source, out, &ending, &mut world.errors);
            status
        }
    }
}

/// Assembles the source of a file into another, which is created only once the source is read.
pub(crate) fn assemble_file<S: System>(
    alloc: Global,
    source: &str,
    out: &str,
    world: &mut World<S>,
) -> u8
    ensures { AssemblesFile S.opens S.creates S.Opened.gives S.Created.takes S.Output.takes S.Errors.takes source.now out.now world.old world.new result }
{
    let mut file = match world.files.open(source) {
        Ok(file) => file,
        Err(fault) => return not_opened(source, fault, &mut world.errors),
    };
    match read_utf8(alloc, &mut file) {
        Ok(text) => assemble_text(alloc, source, out, text.as_str(), world),
        Err(stop) => not_read(stop, source, world),
    }
}
