//! The keys that restrictions allow.
ghost use Rattle.std.specs.Prelude.{◌≡◌, ◌==◌, true, false, if◌then◌else◌, [], ◌∷◌, int_le, FitsSigned, MatchOption};
ghost use Rattle.std.specs.Int.{w64};
ghost use Rattle.sdd_base.specs.Order.{number_in};
ghost use Rattle.sdd_lang.specs.Uses.{larger, smaller, common, holds_some, all_keys, keys_for, allowed_keys, restrictions_of};
ghost use Rattle.sdd_lang.specs.Narrowing.{keys_left};

use crate::condition::Condition;
use sdd_base::{Op, Restriction, Value};
use std::marker::Model;

/// The keys from one to another, both within; none where the first is greater. Its ends may lie one
/// past the least and the greatest key.
#[derive(Drop)]
pub struct Keys {
    from: i128,
    to: i128,
}

impl Model for Keys {
    ghost use Rattle.sdd_lang.specs.Uses.{Interval};

    ghost Value = { Interval };

    ghost view = { λ k. (k.from, k.to) };
}

impl Keys {
    /// All keys.
    pub fn all() -> Keys
        ensures { result ≡ all_keys }
    {
        Keys {
            from: i64::MIN as i128,
            to: i64::MAX as i128,
        }
    }

    /// The keys that a comparison with the value allows; `!=` allows all.
    fn from_comparison(op: Op, value: &Value) -> Keys
        ensures { result ≡ keys_for op (number_in value.now) }
    {
        let number = number_of(value);
        match op {
            Op::Eq => Keys {
                from: number,
                to: number,
            },
            Op::Ne => Keys::all(),
            Op::Lt => Keys {
                from: i64::MIN as i128,
                to: number - 1,
            },
            Op::Le => Keys {
                from: i64::MIN as i128,
                to: number,
            },
            Op::Gt => Keys {
                from: number + 1,
                to: i64::MAX as i128,
            },
            Op::Ge => Keys {
                from: number,
                to: i64::MAX as i128,
            },
        }
    }

    /// The keys that are in both.
    fn within(&self, other: &Keys) -> Keys
        ensures { result ≡ common self.now other.now }
    {
        Keys {
            from: larger(&self.from, &other.from),
            to: smaller(&self.to, &other.to),
        }
    }

    /// Whether the first of these keys isn't after the last of the others.
    fn begin_before(&self, others: &Keys) -> bool
        ensures { result ≡ int_le self.now.0 others.now.1 }
    {
        self.from <= others.to
    }

    /// Whether one of these keys is among the others.
    #[tactic(auto, using(crate::proofs::KeyRanges::some_in_common))]
    fn share_one(&self, others: &Keys) -> bool
        ensures { result ≡ holds_some (common self.now others.now) }
    {
        self.begin_before(others)
            && others.begin_before(self)
            && self.begin_before(self)
            && others.begin_before(others)
    }

    /// Whether one of these keys is from `least` to `greatest`.
    pub fn meets(&self, least: &i64, greatest: &i64) -> bool
        ensures { result ≡ holds_some (common self.now (least.now, greatest.now)) }
    {
        let range = Keys {
            from: *least as i128,
            to: *greatest as i128,
        };
        self.share_one(&range)
    }

    /// The least and the greatest of these keys that are whole numbers of 64 bits, or None where
    /// there is none. Takes no memory.
    #[tactic(auto, using(crate::proofs::KeyRanges::common_in_range))]
    pub fn ends(&self) -> Option<(i64, i64)>
        ensures { let keys = common self.now all_keys in
            MatchOption result (holds_some keys ≡ false)
            (λ ends. (holds_some keys ≡ true) × (ends.0 ≡ keys.0) × (ends.1 ≡ keys.1)) }
    {
        let keys = self.within(&Keys::all());
        if keys.from <= keys.to {
            Some((keys.from as i64, keys.to as i64))
        } else {
            None
        }
    }
}

fn number_of(value: &Value) -> i128
    ensures is { result ≡ number_in value.now }
    ensures fits { FitsSigned w64 result }
{
    match value {
        Value::Int(number) => *number as i128,
        Value::Text(_) => 0,
    }
}

fn larger(a: &i128, b: &i128) -> i128
    ensures { result ≡ larger a.now b.now }
{
    if *a <= *b { *b } else { *a }
}

fn smaller(a: &i128, b: &i128) -> i128
    ensures { result ≡ smaller a.now b.now }
{
    if *a <= *b { *a } else { *b }
}

/// The keys that the restrictions on the key column allow, all together. Costs time in their number.
/// Takes no memory.
pub fn allowed_keys(key: u32, restrictions: &[Restriction]) -> Keys
    ensures { result ≡ allowed_keys key restrictions.now }
{
    let mut keys = Keys::all();
    for restriction in restrictions {
        keys = narrow_keys(
            key,
            keys,
            restriction.column,
            restriction.op,
            &restriction.value,
        );
    }
    keys
}

/// The keys that the restrictions allow which the conditions are for a part. Costs time in the
/// number of the conditions. Takes no memory.
pub(crate) fn keys_of(key: u32, part: u32, conds: &[Condition]) -> Keys
    ensures { result ≡ allowed_keys key (restrictions_of part conds.now) }
{
    let mut keys = Keys::all();
    for cond in conds {
        keys = narrowed_by(key, part, keys, cond);
    }
    keys
}

/// The keys that one more condition leaves.
fn narrowed_by(key: u32, part: u32, keys: Keys, cond: &Condition) -> Keys
    ensures { result ≡ keys_left key keys (restrictions_of part (cond.now ∷ [])) }
{
    match cond {
        Condition::Const { left, op, value } => {
            if left.part == part {
                narrow_keys(key, keys, left.column, *op, value)
            } else {
                keys
            }
        }
        Condition::Same { left: _, right: _ } => keys,
    }
}

/// The keys that one more restriction leaves.
fn narrow_keys(key: u32, keys: Keys, column: u32, op: Op, value: &Value) -> Keys
    ensures { result ≡ (if column == key then common keys (keys_for op (number_in value.now)) else keys) }
{
    if column == key {
        keys.within(&Keys::from_comparison(op, value))
    } else {
        keys
    }
}
