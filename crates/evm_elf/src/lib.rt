//! ELF64 images of RV64I programs: read, checked and written.
#![tactic(auto)]

mod detail;
mod fault;
mod faults;
mod header;
mod laws;
mod message;
mod overlap;
mod reading;
mod segments;
mod writing;

pub use detail::{ImageDetail, image_detail};
pub use evm_asm::{
    AsmFault, AsmFaultKind, Program, all_that_is_meant_stands, assemble, la_loads, li_loads,
    lines_are_worded, words_stand,
};
pub use fault::ElfFault;
pub use laws::{
    accepted_is_sound, assembled_is_read, overlap_is_shared_address, words_are_loaded,
    written_is_read,
};
pub use reading::read_image;
pub use writing::{PROGRAM_MAX, write_bytes, write_image};
