//! The claims on sources, files and scripts, and the laws that carry them: a law that goes is missed here. A call of a law
//! does nothing and gives what it ensures. The rows of docs/CLAIMS.md name these functions. `sources`, `programs` and
//! `journals` have the claims, the other modules the laws: of the assembler (`faults`, `places`, `words`), of its programs in a
//! machine (`loading`, `running`, `staying`, `pseudo`, `expansions`), of scripts (`replays`) and of sessions (`sessions`).
#![tactic(auto)]

mod expansions;
mod faults;
mod journals;
mod loading;
mod places;
mod programs;
mod pseudo;
mod replays;
mod running;
mod sessions;
mod sources;
mod staying;
mod words;

pub use journals::a_script_is_its_journal;
pub use programs::{
    an_image_loads_where_it_fits, each_line_does_its_instruction, li_and_la_load_what_they_name,
};
pub use replays::a_written_journal_shows_its_machine;
pub use sessions::a_session_is_a_run;
pub use sources::{
    a_source_has_its_least_fault, each_instruction_has_a_word, labels_and_fillings_are_in_order,
    lines_have_their_addresses,
};
