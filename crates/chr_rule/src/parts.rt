//! Lists of parts of a rule: of terms, constraints, comparisons, or members of a body.
ghost use Rattle.std.specs.Prelude.{◌≡◌, ◌↔◌, IsTrue, map};
ghost use Rattle.std.specs.List.{AllByRecursion};

/// A part of a rule.
pub(crate) trait Part {
    ghost Said: { Type 0 };

    ghost said: { Self → Said };

    ghost IsValid: { Said → Type 0 };

    /// Whether a rule may have the terms of the part.
    fn is_valid(&self) -> bool
        ensures { IsTrue result ↔ IsValid (said self.now) };

    /// Whether two parts are equal, wherever they lie.
    fn is_same(&self, other: &Self) -> bool
        ensures { IsTrue result ↔ (said self.now ≡ said other.now) };
}

/// Whether a rule may have the terms of some parts.
pub(crate) fn are_valid<P: Part>(parts: &[P]) -> bool
    ensures { IsTrue result ↔ AllByRecursion P.IsValid (map P.said parts.now) }
{
    for part in parts {
        if !part.is_valid() {
            return false;
        }
    }
    true
}

/// Whether two lists of parts are equal.
pub(crate) fn are_same<P: Part>(parts: &[P], others: &[P]) -> bool
    ensures { IsTrue result ↔ (map P.said parts.now ≡ map P.said others.now) }
{
    if parts.len() != others.len() {
        return false;
    }
    for i in 0..parts.len() {
        if !parts[i].is_same(&others[i]) {
            return false;
        }
    }
    true
}
