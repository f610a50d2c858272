//! What the names of files tell.
ghost use Rattle.std.specs.Prelude.{◌≡◌, if◌then◌else◌};
ghost use Rattle.std.specs.List.{list_all};
ghost use Rattle.shelf.specs.Names.{is_share, is_key_file, is_mark_digit, is_second};

/// The most bytes that a file of a key has in any version.
const LONGEST_KEY_FILE: u64 = 148;

/// The bytes of the box of the largest document: 2^26 of the document, and 80 of its own.
const LONGEST_BOX: u64 = 67108944;

/// Whether a name is that of a share file.
pub(super) fn is_share(name: &str) -> bool
    ensures { result ≡ is_share name.now }
{
    name.as_bytes().ends_with(b".share")
}

/// How many bytes the file of a name may have.
pub(super) fn longest(name: &str) -> u64
    ensures { result ≡ (if is_key_file name.now then 148 else 67108944) }
{
    if is_share(name) || name.as_bytes().ends_with(b".now") {
        LONGEST_KEY_FILE
    } else {
        LONGEST_BOX
    }
}

/// Whether a byte is a digit of a mark, from `0` to `9` or from `a` to `f`.
fn is_mark_digit(byte: u8) -> bool
    ensures { result ≡ is_mark_digit byte }
{
    48 <= byte && byte <= 57 || 97 <= byte && byte <= 102
}

/// Whether all of these bytes are digits of a mark.
fn are_mark_digits(text: &[u8]) -> bool
    ensures { result ≡ list_all is_mark_digit text.now }
{
    text.iter().all(|byte| is_mark_digit(*byte))
}

/// Whether this is the name of the second file of a put: a dot, 32 digits and `..share`.
#[tactic(auto, unfolding(crate::specs::Names::is_second))]
pub(super) fn is_second(name: &str) -> bool
    ensures { result ≡ is_second name.now }
{
    let text = name.as_bytes();
    text.len() == 40
        && text.starts_with(b".")
        && text.ends_with(b"..share")
        && are_mark_digits(&text[1..33])
}

/// The path of the folder that a name stands in, with a slash at its end, so that nothing else is
/// opened under it.
pub(super) fn folder_of(name: &str) -> &str {
    match name.rsplit_once('/') {
        Some((_, last)) => name.strip_suffix(last).unwrap_or("./"),
        None => "./",
    }
}
