//! The items of a block.

ghost use Rattle.std.specs.Prelude.{◌≡◌, ◌≤◌, ◌++◌, [], ◌∷◌, All, IfOk, false, length, Ok};
ghost use Rattle.std.specs.List.{list_any};
ghost use Rattle.sk_grammar.specs.Document.{IsItem};
ghost use Rattle.sk_grammar.specs.HeldItems.{held_items, items_text, line_of_items, HoldsItems};
ghost use Rattle.sk_grammar.specs.Lines.{is_line_feed};

use crate::document::Item;
use crate::item_text::write_item;
use crate::list::List;
use crate::place::Place;
use crate::reading::read_line;
use crate::taking::split_line;
use crate::value::Op;
use crate::values::Values;
use std::alloc::{AllocError, Global};
use std::marker::Model;

/// Items that contracts see as their list. Each is held as its canonical lines, in one text for all, so that a short
/// item takes hardly more than its bytes and all items are written as they stand.
#[derive(Debug, Drop)]
pub struct Items {
    text: Vec<u8>,
}

impl Model for Items {
    ghost use Rattle.std.specs.Prelude.{List as Sequence};
    ghost use Rattle.sk_grammar.specs.Document.{ItemView};
    ghost use Rattle.sk_grammar.specs.HeldItems.{held_items, HoldsItems};

    ghost Value = { Sequence ItemView };

    ghost view = { λ i. held_items i.text.items };

    ghost invariant = { λ i. HoldsItems i.text.items };
}

/// The place behind a line; an item that the line closes is put last.
fn take_line_of_items(
    alloc: Global,
    items: &mut List<Item>,
    place: Place,
    line: &[u8],
) -> Result<Place, AllocError>
    requires one_line { list_any is_line_feed line.now ≡ false }
    requires valid { IfOk (line_of_items items.old place line.now) (λ next. All IsItem next.0) }
    ensures { IfOk result (λ next. line_of_items items.old place line.now ≡ Ok (items.new, next)) }
{
    match read_line(alloc, place, line) {
        Ok(Place::Closed(name, op, values)) => {
            let values = values.to_list(alloc)?;
            items.push(Item { name, op, values })?;
            Ok(Place::Idle)
        }
        // The lines of valid items are read, so only memory can be wanting.
        Ok(Place::Named(_)) | Err(_) => Err(AllocError),
        Ok(open) => Ok(open),
    }
}

impl Items {
    /// No items, which take no memory.
    pub fn new(alloc: Global) -> Items
        ensures { result ≡ [] }
    {
        Items {
            text: Vec::new(alloc),
        }
    }

    /// The items, and one more behind them.
    pub fn with_item(self, alloc: Global, item: &Item) -> Result<Items, AllocError>
        ensures more { IfOk result (λ more. more ≡ self ++ item.now ∷ []) }
        ensures valid { IfOk result (All IsItem) }
    {
        let values = Values::of_list(alloc, item.values.as_slice())?;
        self.with_values(item.name.as_slice(), item.op, &values)
    }

    /// The items, and behind them that with these parts.
    pub(crate) fn with_values(
        self,
        name: &[u8],
        op: Op,
        values: &Values,
    ) -> Result<Items, AllocError>
        requires { IsItem (record { name = name.now; op = op; values = values.now }) }
        ensures more { IfOk result (λ more. more ≡ self ++ record { name = name.now; op = op; values = values.now } ∷ []) }
        ensures valid { IfOk result (All IsItem) }
    {
        let Items { mut text } = self;
        write_item(&mut text, name, op, values)?;
        Ok(Items { text })
    }

    /// The canonical lines of the items, each with a line feed behind it.
    pub fn as_text(&self) -> &[u8]
        ensures text { result.now ≡ items_text self.now }
        ensures count { length self.now ≤ length result.now }
    {
        self.text.as_slice()
    }

    /// The text that the items are held as.
    pub(crate) fn as_bytes(&self) -> &[u8]
        ensures value { held_items result.now ≡ self.now }
        ensures holds { HoldsItems result.now }
    {
        self.text.as_slice()
    }

    /// The items, one by one.
    pub fn to_list(&self, alloc: Global) -> Result<List<Item>, AllocError>
        ensures { IfOk result (λ items. items ≡ self.now) }
    {
        let mut items = List::from_vec(Vec::new(alloc));
        let mut place = Place::Idle;
        let mut rest = self.text.as_slice();
        while let Some((line, behind)) = split_line(rest) {
            place = take_line_of_items(alloc, &mut items, place, line)?;
            rest = behind;
        }
        Ok(items)
    }
}
