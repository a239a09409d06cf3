//! What the items of a block claim.

ghost use Rattle.std.specs.Prelude.{◌≡◌, ◌↔◌, ◌≤◌, ◌∷◌, [], IsTrue, IfSome, IfNone, List, All, ℕ};
ghost use Rattle.std.specs.List.{list_all};
ghost use Rattle.sk_grammar.specs.declared.value.Value.{Value as AnyValue};
ghost use Rattle.sk_grammar.specs.declared.value.Value.TheVariants.{Date};
ghost use Rattle.sk_grammar.specs.Canonical.{is_number as is_number_of};
ghost use Rattle.sk_line.specs.Triple.{coefficients_name as coefficients_name_of};
ghost use Rattle.sk_audit.specs.Items.{AreClaims, AreItems, AreThrees, IsClaim, IsKernelId};

use sk_decimal::Line;
use sk_grammar::{Item, Op, Value};

// The name of the variable that holds the triples of the spacecraft with the number -sc.
fn coefficients_name(sc: u32) -> Line
    requires { sc ≤ 999_999_999 }
    ensures { result ≡ coefficients_name_of sc }
{
    let mut name = Line::new();
    name.push(b"SCLK01_COEFFICIENTS_");
    name.push_number(sc as u128);
    name
}

// The values are one date.
fn are_one_date(values: &[Value]) -> bool
    ensures one { IsTrue result → (date : List ℕ) × (values.now ≡ Date date ∷ []) }
    ensures other { (date : List ℕ) → values.now ≡ Date date ∷ [] → IsTrue result }
{
    match values {
        [Value::Date(_)] => true,
        _ => false,
    }
}

// The item is a kernel ID.
fn is_kernel_id(item: &Item) -> bool
    ensures yes { IsTrue result → IsKernelId item.now }
    ensures no { IsKernelId item.now → IsTrue result }
{
    item.name.as_slice() == b"SCLK_KERNEL_ID".as_slice()
        && item.op == Op::Set
        && are_one_date(item.values.as_slice())
}

// The value is a number.
fn is_number(value: &Value) -> bool
    ensures { result ≡ is_number_of value.now }
{
    matches!(value, Value::Number(_))
}

// The values are numbers.
fn are_numbers(values: &[Value]) -> bool
    ensures { result ≡ list_all is_number_of values.now }
{
    values.iter().all(|value| is_number(value))
}

// The values are numbers, three by three.
fn are_threes(values: &[Value]) -> bool
    ensures { IsTrue result ↔ AreThrees values.now }
{
    values.len() % 3 == 0 && are_numbers(values)
}

// The item claims further triples of the spacecraft.
fn is_claim(item: &Item, sc: u32) -> bool
    requires { sc ≤ 999_999_999 }
    ensures yes { IsTrue result → IsClaim sc item.now }
    ensures no { IsClaim sc item.now → IsTrue result }
{
    item.name.as_slice() == coefficients_name(sc).as_slice()
        && item.op == Op::Append
        && are_threes(item.values.as_slice())
}

// The numbers of the triples that the items claim, of which there is one at most.
fn claims<'a>(items: &'a [Item], sc: u32) -> Option<&'a [Value]>
    requires { sc ≤ 999_999_999 }
    ensures some { IfSome result (λ values. AreClaims sc items.now values.now) }
    ensures none { IfNone result ((values : List AnyValue) → ¬ AreClaims sc items.now values) }
{
    match items {
        [] => Some(&[]),
        [item] => {
            if is_claim(item, sc) {
                Some(item.values.as_slice())
            } else {
                None
            }
        }
        _ => None,
    }
}

/// The numbers of the triples that the items claim; `None` exactly where they are not a kernel ID, which may be left
/// out, and the numbers of triples, which may be left out.
pub fn claimed<'a>(items: &'a [Item], sc: u32) -> Option<&'a [Value]>
    requires { sc ≤ 999_999_999 }
    ensures some { IfSome result (λ values. AreItems sc items.now values.now) }
    ensures none { IfNone result ((values : List AnyValue) → ¬ AreItems sc items.now values) }
{
    match items {
        [] => Some(&[]),
        [first, rest @ ..] => {
            if is_kernel_id(first) {
                claims(rest, sc)
            } else {
                claims(items, sc)
            }
        }
    }
}
