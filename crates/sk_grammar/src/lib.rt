//! Text kernels: their documents, and how their texts are read.
#![tactic(auto)]

mod bytes;
mod data_lines;
mod document;
mod ending;
mod fault;
mod item_text;
mod items;
mod items_left;
mod laws;
mod lines;
mod list;
mod place;
mod read;
mod reader;
mod reading;
mod state;
mod stop;
mod take;
mod taking;
mod text;
mod tokens;
mod value;
mod value_text;
mod values;

pub use bytes::Bytes;
pub use document::{Block, Doc, Item};
pub use fault::{GrammarFault, Reason};
pub use items::Items;
pub use items_left::ItemsLeft;
pub use laws::{
    always_one, canonical_text_spells, item_lines_spell, never_both, one_document, one_item,
    one_reason, one_refusal,
};
pub use list::List;
pub use read::read_doc;
pub use reader::Reader;
pub use text::Lines;
pub use value::{Op, Value};
