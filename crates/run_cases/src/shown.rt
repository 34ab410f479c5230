// Bytes as they are printed.

/// Returns bytes as text, or `?` if they are not UTF-8.
pub fn as_text(bytes: &[u8]) -> &str {
    std::str::from_utf8(bytes).unwrap_or("?")
}
