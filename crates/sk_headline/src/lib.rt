//! What a published kernel is, exactly when a run writes one, and what those who use the program may rely on.
#![tactic(auto)]

mod laws;

pub use laws::{
    accepted_are_published, adds_nothing, adds_one_block, canonical_is_read, named_files_alone,
    no_fewer_triples, none_adds_none, one_outcome, one_text, read_again, same_document,
    text_is_read, utc_is_read,
};
