//! The bytes of a text and its parts.
ghost use Rattle.std.specs.Prelude.{◌≡◌, ◌==◌};
ghost use Rattle.rv_asm.specs.Bytes.{is_within, is_blank, is_printable, begins_name, continues_name, is_name, trim_start, trim_end, trim, parts_at, without_prefix, without_suffix};
ghost use Rattle.std.specs.List.{list_all, position, before_first, after_first};
ghost use Rattle.rv_asm.specs.Kinds.{GivesSome};

/// Whether a byte is a space or a tab.
pub(crate) fn is_blank(byte: u8) -> bool
    ensures { result ≡ is_blank byte }
{
    byte == b' ' || byte == b'\t'
}

/// Whether a byte is a tab or a printable character of ASCII.
pub(crate) fn is_printable(byte: u8) -> bool
    ensures { result ≡ is_printable byte }
{
    byte == b'\t' || is_within(b' ', b'~', byte)
}

fn is_within(low: u8, high: u8, byte: u8) -> bool
    ensures { result ≡ is_within low high byte }
{
    low <= byte && byte <= high
}

fn begins_name(byte: u8) -> bool
    ensures { result ≡ begins_name byte }
{
    is_within(b'A', b'Z', byte) || is_within(b'a', b'z', byte) || byte == b'_'
}

fn continues_name(byte: u8) -> bool
    ensures { result ≡ continues_name byte }
{
    begins_name(byte) || is_within(b'0', b'9', byte) || byte == b'.'
}

/// Whether a text is a name: a letter or `_`, and then letters, digits, `_` and `.`.
pub(crate) fn is_name(text: &[u8]) -> bool
    ensures { result ≡ is_name text.now }
{
    match text {
        [first, rest @ ..] => begins_name(*first) && all_continue_names(rest),
        [] => false,
    }
}

fn all_continue_names(bytes: &[u8]) -> bool
    ensures { result ≡ list_all continues_name bytes.now }
{
    bytes.iter().all(|byte| continues_name(*byte))
}

/// Whether each byte is a tab or a printable character of ASCII.
pub(crate) fn all_printable(bytes: &[u8]) -> bool
    ensures { result ≡ list_all is_printable bytes.now }
{
    bytes.iter().all(|byte| is_printable(*byte))
}

/// The place of the first such byte.
pub(crate) fn position_of(text: &[u8], byte: u8) -> Option<usize>
    ensures { result ≡ position (λ b. b == byte) text.now }
{
    text.iter().position(|b| *b == byte)
}

/// The place of the first blank.
fn position_of_blank(text: &[u8]) -> Option<usize>
    ensures { result ≡ position is_blank text.now }
{
    text.iter().position(|byte| is_blank(*byte))
}

/// The text without the blanks at its start.
#[tactic(auto, unfolding(crate::specs::Bytes::trim_start))]
pub(crate) fn trim_start(text: &[u8]) -> &[u8]
    ensures { result.now ≡ trim_start text.now }
{
    let mut start = 0;
    while start < text.len() && is_blank(text[start]) {
        start += 1;
    }
    &text[start..]
}

/// The text without the blanks at its end.
#[tactic(auto, unfolding(crate::specs::Bytes::trim_end))]
pub(crate) fn trim_end(text: &[u8]) -> &[u8]
    ensures { result.now ≡ trim_end text.now }
{
    let mut end = text.len();
    while end > 0 && is_blank(text[end - 1]) {
        end -= 1;
    }
    &text[..end]
}

/// The text without the blanks at its start and its end.
#[tactic(auto, unfolding(crate::specs::Bytes::trim))]
pub(crate) fn trim(text: &[u8]) -> &[u8]
    ensures { result.now ≡ trim text.now }
{
    trim_end(trim_start(text))
}

/// What stands before the first such byte, and after it.
#[tactic(auto, unfolding(crate::specs::Bytes::parts_at))]
pub(crate) fn parts_at(text: &[u8], byte: u8) -> Option<(&[u8], &[u8])>
    ensures { GivesSome (λ parts. (parts.0.now, parts.1.now)) result (parts_at byte text.now) }
{
    let at = position_of(text, byte)?;
    Some((&text[..at], &text[at + 1..]))
}

/// The rest of a text that begins so.
#[tactic(auto, unfolding(crate::specs::Bytes::without_prefix))]
pub(crate) fn without_prefix<'a>(text: &'a [u8], prefix: &[u8]) -> Option<&'a [u8]>
    ensures { GivesSome (λ rest. rest.now) result (without_prefix prefix.now text.now) }
{
    text.strip_prefix(prefix)
}

/// The front of a text that ends so.
#[tactic(auto, unfolding(crate::specs::Bytes::without_suffix))]
pub(crate) fn without_suffix<'a>(text: &'a [u8], suffix: &[u8]) -> Option<&'a [u8]>
    ensures { GivesSome (λ front. front.now) result (without_suffix suffix.now text.now) }
{
    text.strip_suffix(suffix)
}

/// What stands before the first blank, and what after it: nothing where there is none.
pub(crate) fn parts_at_blank(text: &[u8]) -> (&[u8], &[u8])
    ensures before { result.0.now ≡ before_first is_blank text.now }
    ensures after { result.1.now ≡ after_first is_blank text.now }
{
    match position_of_blank(text) {
        Some(at) => (&text[..at], &text[at + 1..]),
        None => (text, &[]),
    }
}

/// What stands before the first such byte: all where there is none.
pub(crate) fn before_byte(text: &[u8], byte: u8) -> &[u8]
    ensures { result.now ≡ before_first (λ b. b == byte) text.now }
{
    match position_of(text, byte) {
        Some(at) => &text[..at],
        None => text,
    }
}
