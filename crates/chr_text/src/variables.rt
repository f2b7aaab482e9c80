//! The numbers of variables.
ghost use Rattle.std.specs.Prelude.{◌≡◌, ◌≤◌, length};
ghost use Rattle.std.specs.List.{position_or_len};
ghost use Rattle.std.specs.Str.{bytes_eq};
ghost use Rattle.chr_value.specs.Bounds.{most_variables};
ghost use Rattle.chr_limits.specs.Views.{names as texts};
ghost use Rattle.chr_text.specs.Variables.{number_variable as number_of};

use chr_limits::{Seen, is_seen};

/// The place of a variable among those that were seen.
fn place_of(seen: &[&[u8]], name: &[u8]) -> usize
    ensures place { result ≡ position_or_len (bytes_eq name.now) (texts seen.now) }
    ensures within { result ≤ length seen.now }
{
    for (place, other) in seen.iter().enumerate() {
        if name == *other {
            return place;
        }
    }
    seen.len()
}

/// The number of a variable, which gets the next one where it is new. `_` is new at each place.
pub fn number_variable<'a>(seen: &mut Seen<'a>, name: &'a [u8]) -> u8
    requires { length (number_of (texts seen.old.items) name.now).1 ≤ most_variables }
    ensures number { result ≡ (number_of (texts seen.old.items) name.now).0 }
    ensures seen { texts seen.new.items ≡ (number_of (texts seen.old.items) name.now).1 }
{
    if is_seen(seen, name) {
        return place_of(seen, name) as u8;
    }
    let number = seen.len();
    seen.push(name);
    number as u8
}
