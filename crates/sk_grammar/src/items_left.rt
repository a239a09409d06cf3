//! The items of a block, one by one.

ghost use Rattle.std.specs.Prelude.{◌≡◌, [], false, IfOk, MatchOption};
ghost use Rattle.std.specs.List.{list_any};
ghost use Rattle.sk_decimal.specs.Reading.{number_of};
ghost use Rattle.sk_grammar.specs.Lines.{is_line_feed};
ghost use Rattle.sk_grammar.specs.Reading.{read_from};
ghost use Rattle.sk_grammar.specs.HeldItems.{held_items, HoldsItems};
ghost use Rattle.sk_grammar.specs.OneByOne.{IsFirstHeld, IsNext, IsValidWhenClosed, EndsAs};

use crate::document::Item;
use crate::items::Items;
use crate::place::Place;
use crate::reading::read_line;
use crate::taking::split_line;
use std::alloc::{AllocError, Global};
use std::marker::Model;

/// The items that are left to be read, of which one at a time takes memory.
#[derive(Drop)]
pub struct ItemsLeft<'a> {
    text: &'a [u8],
}

impl<'a> Model for ItemsLeft<'a> {
    ghost use Rattle.std.specs.Prelude.{List as Sequence};
    ghost use Rattle.sk_grammar.specs.Document.{ItemView};
    ghost use Rattle.sk_grammar.specs.HeldItems.{held_items, HoldsItems};

    ghost Value = { Sequence ItemView };

    ghost view = { λ i. held_items i.text.now };

    ghost invariant = { λ i. HoldsItems i.text.now };
}

/// What a line leaves: the item that it closes, or the place within one.
enum LineEnd {
    Item(Item),
    Open(Place),
}

/// What a line of an item leaves.
fn read_item_line(alloc: Global, place: Place, line: &[u8]) -> Result<LineEnd, AllocError>
    requires one_line { list_any is_line_feed line.now ≡ false }
    requires valid { IfOk (read_from number_of place 0 line.now) IsValidWhenClosed }
    ensures { IfOk result (EndsAs (read_from number_of place 0 line.now)) }
{
    match read_line(alloc, place, line) {
        Ok(Place::Closed(name, op, values)) => {
            let values = values.to_list(alloc)?;
            Ok(LineEnd::Item(Item { name, op, values }))
        }
        // The lines of valid items are read, so only memory can be wanting.
        Ok(Place::Named(_)) | Err(_) => Err(AllocError),
        Ok(open) => Ok(LineEnd::Open(open)),
    }
}

/// The item in front, and the text behind it; `None` where there is none.
fn first_item(alloc: Global, text: &[u8]) -> Result<Option<(Item, &[u8])>, AllocError>
    requires { HoldsItems text.now }
    ensures { IfOk result (λ found. MatchOption found (held_items text.now ≡ []) (λ first. IsFirstHeld text.now first.0 first.1.now)) }
{
    let mut place = Place::Idle;
    let mut rest = text;
    while let Some((line, behind)) = split_line(rest) {
        match read_item_line(alloc, place, line)? {
            LineEnd::Item(item) => return Ok(Some((item, behind))),
            LineEnd::Open(open) => {
                place = open;
                rest = behind;
            }
        }
    }
    Ok(None)
}

impl Items {
    /// All items, to be read one by one.
    pub fn left(&self) -> ItemsLeft<'_>
        ensures { result ≡ self.now }
    {
        ItemsLeft {
            text: self.as_bytes(),
        }
    }
}

impl<'a> ItemsLeft<'a> {
    /// The next item, with its name as it stands in the block; `None` where none is left.
    pub fn next(&mut self, alloc: Global) -> Result<Option<(&'a [u8], Item)>, AllocError>
        ensures { IfOk result (λ found. MatchOption found (self.old ≡ []) (λ next. IsNext self.old self.new next.0.now next.1)) }
    {
        let text = self.text;
        let Some((item, behind)) = first_item(alloc, text)? else {
            return Ok(None);
        };
        let (name, _) = text.split_at(item.name.as_slice().len());
        self.text = behind;
        Ok(Some((name, item)))
    }
}
