// Labels: 1 to 12 visible bytes.
ghost use Rattle.std.specs.Prelude.{◌≡◌};
ghost use Rattle.std.specs.List.{list_all};
ghost use Rattle.sheet.specs.Fields.{is_label, is_visible};

// Whether the bytes can be a term's label.
pub(crate) fn is_label(bytes: &[u8]) -> bool
    ensures { result ≡ is_label bytes.now }
{
    (1..=12).contains(&bytes.len()) && are_visible(bytes)
}

fn are_visible(bytes: &[u8]) -> bool
    ensures { result ≡ list_all is_visible bytes.now }
{
    bytes.iter().all(|byte| is_visible(*byte))
}

fn is_visible(byte: u8) -> bool
    ensures { result ≡ is_visible byte }
{
    byte.is_ascii_graphic()
}
