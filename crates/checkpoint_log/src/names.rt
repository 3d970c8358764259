// Whether names are spelled as they must be.
ghost use Rattle.std.specs.Prelude.{◌≡◌, ◌==◌, ◌||◌, ◌≤◌, length, drop};
ghost use Rattle.std.specs.List.{list_all, position_or_len};
ghost use Rattle.std.specs.Cmp.Lexicographic.{pointwise};
ghost use Rattle.samza_model.specs.Names.{is_between, is_name_byte, is_system, is_stream, is_topic};

fn is_within(low: usize, high: usize, number: usize) -> bool
    ensures { result ≡ is_between low high number }
{
    low <= number && number <= high
}

fn is_byte_within(low: u8, high: u8, c: u8) -> bool
    ensures { result ≡ is_between low high c }
{
    low <= c && c <= high
}

/// A letter, a digit, `_` or `-`.
fn is_plain(c: u8) -> bool
    ensures { result ≡ is_name_byte c }
{
    is_byte_within(b'A', b'Z', c)
        || is_byte_within(b'a', b'z', c)
        || is_byte_within(b'0', b'9', c)
        || c == b'_'
        || c == b'-'
}

fn are_plain(name: &[u8]) -> bool
    ensures { result ≡ list_all is_name_byte name.now }
{
    name.iter().all(|c| is_plain(*c))
}

fn are_plain_or_dots(name: &[u8]) -> bool
    ensures { result ≡ list_all (λ c. is_name_byte c || c == 46) name.now }
{
    name.iter().all(|c| is_plain(*c) || *c == b'.')
}

/// Whether a system or a store may have this name.
pub(crate) fn is_system_name(name: &[u8]) -> bool
    ensures { result ≡ is_system name.now }
{
    is_within(1, 64, name.len()) && are_plain(name)
}

fn is_same_text(a: &[u8], b: &[u8]) -> bool
    ensures { result ≡ pointwise ◌==◌ a.now b.now }
{
    a == b
}

/// Whether a stream may have this name.
fn is_stream_name(name: &[u8]) -> bool
    ensures { result ≡ is_stream name.now }
{
    is_within(1, 180, name.len())
        && are_plain_or_dots(name)
        && !is_same_text(name, &[b'.'])
        && !is_same_text(name, &[b'.', b'.'])
}

/// Where the first dot stands, or the name's length.
fn first_dot(name: &[u8]) -> usize
    ensures at { result ≡ position_or_len (λ c. c == 46) name.now }
    ensures bound { result ≤ length name.now }
{
    for (dot, c) in name.iter().enumerate() {
        if *c == b'.' {
            return dot;
        }
    }
    name.len()
}

fn is_stream_behind_dot(rest: &[u8]) -> bool
    ensures { result ≡ is_stream (drop 1 rest.now) }
{
    match rest {
        [] => false,
        [_, stream @ ..] => is_stream_name(stream),
    }
}

/// Whether the name is a system's and a stream's, with a dot between them.
pub(crate) fn is_topic_name(name: &[u8]) -> bool
    ensures { result ≡ is_topic name.now }
{
    let (system, rest) = name.split_at(first_dot(name));
    is_system_name(system) && is_stream_behind_dot(rest)
}
