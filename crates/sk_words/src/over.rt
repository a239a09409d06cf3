//! The names of further kernels.

ghost use Rattle.std.specs.Prelude.{◌≡◌, ◌≤◌, [], length, map, IfOk};
ghost use Rattle.std.specs.Option.{option_map_or};
ghost use Rattle.sk_words.specs.Request.{over_names};
ghost use Rattle.sk_words.specs.Asked.{options_in};

use crate::request::Request;
use crate::tables::OptionName;
use sk_checks::NoMemory;
use std::alloc::Global;

/// The names between commas.
fn names_in<'a>(alloc: Global, text: &'a str) -> Result<Vec<&'a str>, NoMemory>
    ensures { IfOk result (λ names. map (λ name. name.now) names.items ≡ over_names text.now) }
{
    text.split(',').collect(alloc)
}

impl<'a> Request<'a> {
    /// The names of the kernels that go over the clock kernel, in order, 16 at most; none where they are not given.
    pub fn over(&self, alloc: Global) -> Result<Vec<&'a str>, NoMemory>
        ensures names { IfOk result (λ names. map (λ name. name.now) names.items ≡ option_map_or over_names (options_in self.now OptionName.Over) []) }
        ensures few { IfOk result (λ names. length names.items ≤ 16) }
    {
        match self.text(OptionName::Over) {
            Some(text) => names_in(alloc, text),
            None => Ok(Vec::new(alloc)),
        }
    }
}
