//! Laws of audits.

ghost use Rattle.std.specs.Prelude.{◌≡◌, ◌&&◌, ℕ, List, Some, None, nat_lt, not, IsTrue};
ghost use Rattle.std.specs.List.{AllByRecursion, last_or};
ghost use Rattle.tr_chunk.specs.Audit.{gaps_behind, numbers_rise_after, is_in_runs, is_one_of, IsLongest};

/// For rising numbers, the runs that an audit gives have exactly the absent numbers below the last one, and they are as long
/// as they can be.
pub fn gaps_are_the_absent_numbers()
    ensures absent { (ns : List ℕ) (last k : ℕ) → IsTrue (numbers_rise_after None ns) → last_or None ns ≡ Some last
        → is_in_runs k (gaps_behind None ns) ≡ (nat_lt k last && not (is_one_of k ns)) }
    ensures longest { (ns : List ℕ) → AllByRecursion (IsLongest ns) (gaps_behind None ns) }
{}
