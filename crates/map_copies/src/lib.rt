//! Copies of ordered maps, made entry by entry in the keys' order.
#![tactic(auto)]

ghost use Rattle.std.specs.Prelude.{◌≡◌, List, [], ◌∷◌, ◌++◌};
ghost use Rattle.std.specs.declared.cmp.Ordering.{Ordering};
ghost use Rattle.std.specs.Cmp.{IsTotalOrder};
ghost use Rattle.std.specs.List.Sorted.{IsStrictlySortedBy};
ghost use Rattle.std.specs.Map.{keys_of};
ghost use Rattle.std.specs.BTreeMap.{insert_entry};
ghost use Rattle.map_copies.specs.Copies.{Mirrors};

/// A copy of the entries from the front, into which a copy of the next is inserted, is a copy of the entries up to and with
/// that one. Where each copy of a value is that value, the entries are the same.
pub fn filled_in_order<K, V>()
    ensures step { (cmp : K → K → Ordering) → IsTotalOrder cmp → (xs ys : List (K × V)) (e : K × V) (v : V) (rest : List (K × V)) → Mirrors (λ x y. x ≡ y) xs ys → e.1 ≡ v → IsStrictlySortedBy cmp (keys_of (xs ++ e ∷ rest)) → Mirrors (λ x y. x ≡ y) (xs ++ e ∷ []) (insert_entry cmp ys e.0 v) }
    ensures same { (xs ys : List (K × V)) → Mirrors (λ x y. x ≡ y) xs ys → xs ≡ ys }
{}
