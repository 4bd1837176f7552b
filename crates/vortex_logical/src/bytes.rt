//! Whole numbers as sixteen bytes in the same order.
ghost use Rattle.std.specs.Prelude.{◌≡◌};
ghost use Rattle.vortex_logical.specs.Sortable.{raised, sortable_bytes};

// Returns a number with its least at 0.
fn raise(number: i128) -> u128
    ensures { result ≡ raised number }
{
    if number >= 0 {
        number as u128 + 170_141_183_460_469_231_731_687_303_715_884_105_728
    } else {
        (number - i128::MIN) as u128
    }
}

/// Returns a number as sixteen bytes, which compare byte by byte as the numbers do.
pub fn sortable(number: i128) -> [u8; 16]
    ensures { result ≡ sortable_bytes number }
{
    raise(number).to_be_bytes()
}
