//! The parts of an item, and tests of them.
ghost use Rattle.std.specs.Prelude.{◌≡◌, Bool, length, map, filter};
ghost use Rattle.std.specs.List.{list_any};

/// A test of a part as it is written.
pub(crate) trait Test<X>: Copy {
    ghost Said: { Type 0 };

    ghost said: { X → Said };

    ghost passed: { Self → Said → Bool };

    fn passes(self, part: &X) -> bool
        ensures { result ≡ passed self (said part.now) };
}

/// Whether a part passes.
pub(crate) fn any<X, T: Test<X>>(test: T, parts: &[X]) -> bool
    ensures { result ≡ list_any (T.passed test) (map T.said parts.now) }
{
    for part in parts {
        if test.passes(part) {
            return true;
        }
    }
    false
}

/// How many parts pass.
pub(crate) fn count<X, T: Test<X>>(test: T, parts: &[X]) -> usize
    ensures { result ≡ length (filter (T.passed test) (map T.said parts.now)) }
{
    let mut count = 0;
    for part in parts {
        if test.passes(part) {
            count += 1;
        }
    }
    count
}
