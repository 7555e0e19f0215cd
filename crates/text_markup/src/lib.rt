//! Markup as text. JSON (RFC 8259): the text of a value, and strings in quotes. XML that is well-formed by its type: a draft knows which
//! elements are open, and escapes each text. `Suite` is the cases of a test suite, as the servers of continuous integration read them.
#![tactic(auto)]

mod draft;
mod escape;
mod laws;
mod names;
mod quoted;
mod suite;

pub use draft::{Draft, finished};
pub use escape::{push_escaped, push_markup};
pub use laws::{decimals_are_json, listings_are_json, values_are_json};
pub use names::{Key, Share, Tag};
pub use quoted::push_quoted;
pub use suite::{CaseEnd, Suite};
