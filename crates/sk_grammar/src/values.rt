//! The values of an item.

ghost use Rattle.std.specs.Prelude.{◌≡◌, [], ◌∷◌, ◌++◌, true, All, IfOk, OnOk, option_map};
ghost use Rattle.std.specs.List.{list_all};
ghost use Rattle.std.specs.Bool.{beq};
ghost use Rattle.sk_grammar.specs.Canonical.{value_text, is_number as is_number_value};
ghost use Rattle.sk_grammar.specs.Document.{is_text as is_text_value, AreOfOneKind};
ghost use Rattle.sk_grammar.specs.HeldValues.{values_text, only_text, IsHeldValue};

use crate::list::List;
use crate::taking::split_line;
use crate::tokens::value_at;
use crate::value::Value;
use crate::value_text::write_value;
use std::alloc::{AllocError, Global};
use std::marker::Model;

/// The values of one item, which are all texts or hold no text. Each is held as its canonical spelling with a line feed
/// behind it, in one text for all, so that a short value takes hardly more than its bytes.
#[derive(Drop)]
pub struct Values {
    text: Vec<u8>,
    /// Whether they are texts.
    texts: bool,
    /// Whether all are numbers.
    numbers: bool,
}

impl Model for Values {
    ghost use Rattle.std.specs.Prelude.{List as Sequence};
    ghost use Rattle.sk_grammar.specs.declared.value.Value.{Value as OneValue};
    ghost use Rattle.sk_grammar.specs.HeldValues.{held_values, HoldsValues};

    ghost Value = { Sequence OneValue };

    ghost view = { λ v. held_values v.text.items };

    ghost invariant = { λ v. HoldsValues v.text.items v.texts v.numbers };
}

/// Whether the value is a text.
fn is_text(value: &Value) -> bool
    ensures { result ≡ is_text_value value.now }
{
    match value {
        Value::Text(_) => true,
        _ => false,
    }
}

/// Whether the value is a number.
fn is_number(value: &Value) -> bool
    ensures { result ≡ is_number_value value.now }
{
    match value {
        Value::Number(_) => true,
        _ => false,
    }
}

/// Appends the value and a line feed.
fn write_value_line(out: &mut Vec<u8>, value: &Value) -> Result<(), AllocError>
    ensures { OnOk result (out.new.items ≡ out.old.items ++ (value_text value.now ++ 10 ∷ [])) }
{
    write_value(out, value)?;
    out.push(b'\n')?;
    Ok(())
}

impl Values {
    /// No values, which take no memory.
    pub fn new(alloc: Global) -> Values
        ensures { result ≡ [] }
    {
        Values {
            text: Vec::new(alloc),
            texts: false,
            numbers: true,
        }
    }

    pub fn of_one(alloc: Global, value: &Value) -> Result<Values, AllocError>
        requires { IsHeldValue value.now }
        ensures { IfOk result (λ values. values ≡ value.now ∷ []) }
    {
        let mut values = Values::new(alloc);
        values.push(value)?;
        Ok(values)
    }

    pub fn of_list(alloc: Global, list: &[Value]) -> Result<Values, AllocError>
        requires held { All IsHeldValue list.now }
        requires one_kind { AreOfOneKind list.now }
        ensures { IfOk result (λ values. values ≡ list.now) }
    {
        let mut values = Values::new(alloc);
        for value in list {
            values.push(value)?;
        }
        Ok(values)
    }

    /// Whether the value is of the kind of these.
    pub fn are_as(&self, value: &Value) -> bool
        ensures { result ≡ list_all (λ held. beq (is_text_value held) (is_text_value value.now)) self.now }
    {
        self.text.is_empty() || self.texts == is_text(value)
    }

    /// Puts a value of their kind at the end. Where memory is wanting, no values are left.
    pub fn push(&mut self, value: &Value) -> Result<(), AllocError>
        requires held { IsHeldValue value.now }
        requires kind { list_all (λ held. beq (is_text_value held) (is_text_value value.now)) self.old ≡ true }
        ensures { OnOk result (self.new ≡ self.old ++ value.now ∷ []) }
    {
        match write_value_line(&mut self.text, value) {
            Ok(()) => {
                self.texts = self.texts || is_text(value);
                self.numbers = self.numbers && is_number(value);
                Ok(())
            }
            Err(refused) => {
                self.text.clear();
                self.texts = false;
                self.numbers = true;
                Err(refused)
            }
        }
    }

    /// Whether all are numbers.
    pub fn are_numbers(&self) -> bool
        ensures { result ≡ list_all is_number_value self.now }
    {
        self.numbers
    }

    /// Each value as it stands in an item, with a line feed behind it.
    pub fn as_text(&self) -> &[u8]
        ensures { result.now ≡ values_text self.now }
    {
        self.text.as_slice()
    }

    /// The one value as it stands in an item; `None` where there are more, or none.
    pub fn only(&self) -> Option<&[u8]>
        ensures { option_map (λ text. text.now) result ≡ only_text self.now }
    {
        let (line, behind) = split_line(self.text.as_slice())?;
        if behind.is_empty() { Some(line) } else { None }
    }

    /// The values, one by one.
    pub fn to_list(&self, alloc: Global) -> Result<List<Value>, AllocError>
        ensures { IfOk result (λ values. values ≡ self.now) }
    {
        // Most items have one value, and there can be millions of them: room for one, and more where more come.
        let mut values = List::from_vec(Vec::with_capacity(alloc, 1)?);
        let mut rest = self.text.as_slice();
        while let Some((line, behind)) = split_line(rest) {
            // The spelling of a value is read, so only memory can be wanting.
            let Ok((value, _)) = value_at(alloc, line) else {
                return Err(AllocError);
            };
            values.push(value)?;
            rest = behind;
        }
        Ok(values)
    }
}
