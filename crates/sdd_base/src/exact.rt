ghost use Rattle.std.specs.Prelude.{◌≡◌, ◌↔◌, IsTrue};
ghost use Rattle.std.specs.Bool.{Decides};
ghost use Rattle.std.specs.Cmp.{unsigned_Decides, signed_Decides};
ghost use Rattle.std.proofs.Common.{rules};

/// A type whose `==` holds exactly of equal values.
///
/// It is a law and has no function: a clause that rests on `==` takes it as a bound.
pub trait Exact: Eq {
    ghost exact: { (x y : Self) → Decides (Self.eq x y) (x ≡ y) };
}

/// Whether two values are one.
pub fn is_same<T: Exact>(a: &T, b: &T) -> bool
    ensures { IsTrue result ↔ (a.now ≡ b.now) }
{
    a == b
}

impl Exact for u8 {
    ghost exact = { unsigned_Decides };
}

impl Exact for u32 {
    ghost exact = { unsigned_Decides };
}

impl Exact for u64 {
    ghost exact = { unsigned_Decides };
}

impl Exact for i64 {
    ghost exact = { signed_Decides };
}

impl<A: Exact, B: Exact> Exact for (A, B) {
    ghost exact = { Prim.search (rules, A.exact, B.exact) };
}

impl<A: Exact> Exact for Option<A> {
    ghost exact = { Prim.search (rules, A.exact) };
}
