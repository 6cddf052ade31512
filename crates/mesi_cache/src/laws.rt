//! What holds of the operations on one set of a cache. Nothing is computed here.
ghost use Rattle.std.specs.Prelude.{◌≡◌, ◌≤◌, ◌%◌, ℕ, Bool, true, false, List, [], ◌∷◌, Some, length, filter, map};
ghost use Rattle.mesi_cache.specs.declared.lines.CacheLine.{CacheLine};
ghost use Rattle.mesi_cache.specs.Lines.{written};
ghost use Rattle.mesi_cache.specs.Sets.{is_line, find_line, others, to_front, fill_set, snoop_set};
ghost use Rattle.mesi_cache.specs.Caches.{IsSet};

/// No operation makes a line stand twice or out of its set, or the set longer than its ways.
pub fn kept_sets()
    ensures read { (ways sets number line : ℕ) (set : List CacheLine) → IsSet ways sets number set →
        IsSet ways sets number (to_front (λ l. l) line set) }
    ensures write { (ways sets number line place value : ℕ) (set : List CacheLine) → IsSet ways sets number set →
        IsSet ways sets number (to_front (written place value) line set) }
    ensures fill { (ways sets number : ℕ) (new : CacheLine) (set : List CacheLine) → new.line % sets ≡ number →
        IsSet ways sets number set → IsSet ways sets number (fill_set ways new set) }
    ensures snoop { (ways sets number line : ℕ) (own : Bool) (set : List CacheLine) → IsSet ways sets number set →
        IsSet ways sets number (snoop_set line own set) }
{}

/// A hit puts its line first, as it was read or as it is written, and keeps the others in their order.
pub fn hit_first()
    ensures read { (line : ℕ) (l : CacheLine) (set : List CacheLine) → length (filter (is_line line) set) ≤ 1 →
        find_line line set ≡ Some l → to_front (λ l. l) line set ≡ l ∷ others line set }
    ensures write { (line place value : ℕ) (l : CacheLine) (set : List CacheLine) →
        length (filter (is_line line) set) ≤ 1 → find_line line set ≡ Some l →
        to_front (written place value) line set ≡ written place value l ∷ others line set }
    ensures others_read { (line : ℕ) (set : List CacheLine) →
        others line (to_front (λ l. l) line set) ≡ others line set }
    ensures others_written { (line place value : ℕ) (set : List CacheLine) →
        others line (to_front (written place value) line set) ≡ others line set }
{}

/// A snoop keeps the lines of other numbers as they were and in their order. The line that another core takes is
/// gone; the one that another core reads keeps its place.
pub fn snoop_order()
    ensures others { (line : ℕ) (own : Bool) (set : List CacheLine) →
        others line (snoop_set line own set) ≡ others line set }
    ensures taken { (line : ℕ) (set : List CacheLine) → filter (is_line line) (snoop_set line true set) ≡ [] }
    ensures read { (line : ℕ) (set : List CacheLine) →
        map (λ l. l.line) (snoop_set line false set) ≡ map (λ l. l.line) set }
{}
