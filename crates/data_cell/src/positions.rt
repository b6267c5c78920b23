//! Walking over positions.

ghost use Rattle.std.specs.Prelude.{◌≡◌};
ghost use Rattle.std.specs.Option.{option_map};
ghost use Rattle.data_cell.specs.Walking.{behind};

/// The positions behind this one, where it is the first of them.
pub fn behind(positions: &[u64], position: u64) -> Option<&[u64]>
    ensures { option_map (λ rest. rest.now) result ≡ behind position positions.now }
{
    match positions.split_first() {
        Some((first, rest)) if *first == position => Some(rest),
        _ => None,
    }
}
