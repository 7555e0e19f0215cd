//! `run`: the script of standard input served.

ghost use Rattle.std.specs.Prelude.{option_copied};
ghost use Rattle.evm_command.specs.Jobs.{ServesScript, ServesInput, RunsImage, Runs};

use evm_dev::Device;
use evm_host::{
    Devices, Input, RunOptions, System, World, ended_with, image_at, not_read, read_all, run_script,
};
use std::alloc::Global;

/// The name of the script in front of its lines.
const SCRIPT: &str = "script";

/// The name of the stream that it comes from.
const INPUT: &str = "standard input";

// Serves a script.
fn serve_text<S: System, D: Device>(
    alloc: Global,
    options: RunOptions<'_, D>,
    script: &[u8],
    world: &mut World<S>,
) -> u8
    ensures { ServesScript S.Output.takes S.Errors.takes options.entry script.now world.old world.new result }
{
    let image = options.image;
    let ending = run_script(
        alloc,
        options,
        SCRIPT,
        script,
        &mut world.output,
        &mut world.errors,
    );
    ended_with(
        Input::Lines(image, script),
        SCRIPT,
        &ending,
        &mut world.errors,
    )
}

// Serves the script of standard input.
fn serve_input<S: System, D: Device>(
    alloc: Global,
    options: RunOptions<'_, D>,
    world: &mut World<S>,
) -> u8
    ensures { ServesInput S.Input.gives S.Output.takes S.Errors.takes options.entry world.old world.new result }
{
    match read_all(alloc, &mut world.input) {
        Ok(script) => serve_text(alloc, options, script.as_slice(), world),
        Err(stop) => not_read(stop, INPUT, world),
    }
}

// Serves it with devices and the image of a file.
fn run_image<S: System, D: Device>(
    alloc: Global,
    devices: Devices<D>,
    path: &str,
    world: &mut World<S>,
) -> u8
    ensures { RunsImage S.opens S.Opened.gives S.Input.gives S.Output.takes S.Errors.takes devices path.now world.old world.new result }
{
    match image_at(alloc, path, world) {
        Ok(image) => {
            let options = RunOptions {
                image: Some(&image),
                devices,
            };
            serve_input(alloc, options, world)
        }
        Err(status) => status,
    }
}

/// Serves the script of standard input, with devices in the machine, and with the image of a file, if one is named.
pub(crate) fn run<S: System, D: Device>(
    alloc: Global,
    devices: Devices<D>,
    image: Option<&str>,
    world: &mut World<S>,
) -> u8
    ensures { Runs S.opens S.Opened.gives S.Input.gives S.Output.takes S.Errors.takes devices (option_copied image.entry) world.old world.new result }
{
    match image {
        None => {
            let options = RunOptions {
                image: None,
                devices,
            };
            serve_input(alloc, options, world)
        }
        Some(path) => run_image(alloc, devices, path, world),
    }
}
