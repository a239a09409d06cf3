ghost use Rattle.std.specs.Prelude.{◌≡◌, ◌^◌, ◌<◌, length, All, map, position, option_map, IfSome, MatchOption};
ghost use Rattle.std.specs.Str.{bytes_eq};
ghost use Rattle.sk_decimal.specs.Number.{DecimalView};
ghost use Rattle.sk_checks.specs.Checks.{JudgesUnless};
ghost use Rattle.sk_grammar.specs.Document.{IsItem};
ghost use Rattle.sk_grammar.specs.Variables.{items_of, variables_of, values_at};
ghost use Rattle.sk_pool.specs.Pool.{pool_checks, IsOneNumber, set_item};
ghost use Rattle.sk_pool.specs.declared.pool.PoolFault.TheVariants.{NoMemory};

use crate::number::only_number;
use crate::table::{Table, table_of};
use sk_decimal::Decimal;
use sk_grammar::{Bytes, Doc, List, Value};
use std::alloc::{AllocError, AllocFailed, Global};
use std::marker::Model;
use thiserror::Error;

/// The variables of a document, in order of first appearance, each with the values that it has after all items.
#[derive(Debug, Drop)]
pub struct Pool {
    names: List<Bytes>,
    values: List<List<Value>>,
}

impl Model for Pool {
    ghost use Rattle.std.specs.Prelude.{◌≡◌, List as Sequence, length};
    ghost use Rattle.sk_grammar.specs.Document.{IsItem};
    ghost use Rattle.sk_grammar.specs.Variables.{VariableView, joined};
    ghost use Rattle.sk_pool.specs.Pool.{AreVariables};

    ghost Value = { Sequence VariableView };

    ghost view = { λ p. joined p.names p.values };

    ghost invariant = { λ p. (length p.names ≡ length p.values) × AreVariables (joined p.names p.values) };
}

/// Why a document gives no pool.
#[derive(Clone, Copy, Debug, PartialEq, Eq, Error)]
pub enum PoolFault {
    /// This item, from 1, adds texts to other kinds or other kinds to texts.
    #[error("item {0} joins texts and other values")]
    AppendMixed(u32),
    #[error("out of memory")]
    NoMemory,
}

impl From<AllocError> for PoolFault {
    ghost from_gives = { λ _ fault. fault ≡ NoMemory };

    fn from(_: AllocError) -> PoolFault {
        PoolFault::NoMemory
    }
}

impl<T: Drop> From<AllocFailed<T>> for PoolFault {
    ghost from_gives = { λ _ fault. fault ≡ NoMemory };

    fn from(_: AllocFailed<T>) -> PoolFault {
        PoolFault::NoMemory
    }
}

impl Pool {
    /// The variables of the document: each has the values of its last `=` item and of all later `+=` items
    /// (NAIF Kernel Required Reading, "Text Kernels"). Refused is the first `+=` item that joins texts to other
    /// kinds, or other kinds to texts.
    pub fn of(alloc: Global, doc: &Doc) -> Result<Pool, PoolFault>
        requires { length (items_of doc.now) < 2 ^ 32 }
        ensures { JudgesUnless PoolFault.NoMemory (pool_checks doc.now) (λ pool. pool ≡ variables_of (items_of doc.now)) result }
    {
        let Table { names, values, .. } = table_of(alloc, doc)?;
        Ok(Pool {
            names: List::from_vec(names),
            values: List::from_vec(values),
        })
    }

    /// The names of the variables, in order of first appearance.
    pub fn names(&self) -> &[Bytes]
        ensures { result.now ≡ map (λ variable. variable.name) self.now }
    {
        self.names.as_slice()
    }

    /// The values of each variable, in the order of the names.
    pub fn value_lists(&self) -> &[List<Value>]
        ensures lists { result.now ≡ map (λ variable. variable.values) self.now }
        // The name and the values of a variable are those of a valid item.
        ensures valid { All (λ variable. IsItem (set_item variable)) self.now }
    {
        self.values.as_slice()
    }

    /// The variable's values, of which there is one or more; `None` exactly where there is no such variable.
    pub fn values(&self, name: &[u8]) -> Option<&[Value]>
        ensures value { option_map (λ values. values.now) result ≡ values_at name.now self.now }
        ensures some { IfSome result (λ values. 0 < length values.now) }
    {
        let place = place_of(self.names.as_slice(), name)?;
        Some(self.values.as_slice()[place].as_slice())
    }

    /// The variable's number, exactly where it is one number.
    pub fn one_number(&self, name: &[u8]) -> Option<Decimal>
        ensures { MatchOption result ((number : DecimalView) → ¬ IsOneNumber self.now name.now number) (IsOneNumber self.now name.now) }
    {
        only_number(self.values(name)?)
    }
}

// The first place of the name.
fn place_of(names: &[Bytes], name: &[u8]) -> Option<usize>
    ensures { result ≡ position (λ other. bytes_eq other name.now) names.now }
{
    names.iter().position(|other| other.as_slice() == name)
}
