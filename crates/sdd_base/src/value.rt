ghost use Rattle.std.specs.Prelude.{Some};
ghost use Rattle.std.proofs.Common.{refl};
ghost use Rattle.std.specs.Ordering.{eq_by_cmp};
ghost use Rattle.std.specs.Cmp.{partial_equiv_from_equiv, eq_by_cmp_equiv, po};
ghost use Rattle.sdd_base.specs.Order.{value_cmp};
ghost use Rattle.sdd_base.specs.ValueOrder.{value_cmp_total, value_decides, value_input, equal_values_feed_alike};

use crate::exact::Exact;
use crate::listed::Listed;
use crate::no_memory::NoMemory;
use crate::parcel::Parcel;
use crate::shared::Shared;
use crate::text::Text;
use std::cmp::Ordering;
use std::hash::{Hash, Hasher};

/// A value of a column. A column holds values of one kind.
#[derive(Drop)]
pub enum Value {
    /// A whole number.
    Int(i64),
    /// A text.
    Text(Text),
}

/// A row: the values of its columns, in their order. Copies of a row share them.
pub type Row = Shared<Value>;

/// Rows of one relation.
pub type RowList = Listed<Row>;

/// A row of an answer: the values of the columns that a query lists. It is made to be printed, and shares
/// nothing.
pub type AnswerRow = Listed<Value>;

/// The rows that answer one query.
pub type Answer = Listed<AnswerRow>;

/// The answers of the queries of a transaction, in the order of its statements.
pub type Answers = Listed<Answer>;

impl PartialEq for Value {
    ghost eq = { eq_by_cmp value_cmp };

    ghost laws = { partial_equiv_from_equiv (eq_by_cmp_equiv value_cmp_total) };

    fn eq(&self, other: &Self) -> bool {
        self.cmp(other).is_eq()
    }
}

impl Eq for Value {
    ghost laws = { eq_by_cmp_equiv value_cmp_total };
}

impl PartialOrd for Value {
    ghost partial_cmp = { λ x y. Some (value_cmp x y) };

    ghost laws = { po value_cmp_total (λ x y. refl) };

    fn partial_cmp(&self, other: &Self) -> Option<Ordering> {
        Some(self.cmp(other))
    }
}

impl Ord for Value {
    ghost cmp = { value_cmp };

    ghost total = { value_cmp_total };

    ghost matches_partial_cmp = { λ x y. refl };

    ghost matches_eq = { λ x y. refl };

    /// Whole numbers by size, then texts by their bytes.
    fn cmp(&self, other: &Self) -> Ordering {
        match (self, other) {
            (Value::Int(a), Value::Int(b)) => a.cmp(b),
            (Value::Int(_), Value::Text(_)) => Ordering::Less,
            (Value::Text(_), Value::Int(_)) => Ordering::Greater,
            (Value::Text(a), Value::Text(b)) => a.cmp(b),
        }
    }
}

impl Hash for Value {
    ghost hash_input = { value_input };

    ghost respects_eq = { equal_values_feed_alike };

    fn hash<H: Hasher>(&self, state: &mut H) {
        match self {
            Value::Int(number) => {
                state.write_u8(0);
                number.hash(state);
            }
            Value::Text(text) => {
                state.write_u8(1);
                text.hash(state);
            }
        }
    }
}

impl Exact for Value {
    ghost exact = { value_decides };
}

impl Parcel for Value {
    fn copy(&self) -> Result<Self, NoMemory> {
        match self {
            Value::Int(number) => Ok(Value::Int(*number)),
            Value::Text(text) => Ok(Value::Text(text.copy()?)),
        }
    }
}
