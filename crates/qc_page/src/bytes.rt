//! Questions on bytes.

/// The piece of a text with a number, from 0, where a sign stands between pieces.
pub fn piece_at(text: &[u8], sign: u8, number: usize) -> Option<&[u8]> {
    text.split(|byte| *byte == sign).nth(number)
}

/// How many pieces a text has, where a sign stands between them.
pub(crate) fn count_pieces(text: &[u8], sign: u8) -> usize {
    let mut count = 1usize;
    for byte in text {
        if *byte == sign {
            count = count.saturating_add(1);
        }
    }
    count
}

/// Whether a piece of a text is this one, where a sign stands between pieces.
pub(crate) fn has_piece(text: &[u8], sign: u8, piece: &[u8]) -> bool {
    for one in text.split(|byte| *byte == sign) {
        if one == piece {
            return true;
        }
    }
    false
}

/// Whether these bytes stand in a text.
pub fn has(text: &[u8], piece: &[u8]) -> bool {
    if piece.is_empty() {
        return true;
    }
    for window in text.windows(piece.len()) {
        if window == piece {
            return true;
        }
    }
    false
}

/// Whether each byte is a digit or this sign.
pub fn are_digits_or(bytes: &[u8], sign: u8) -> bool {
    for byte in bytes {
        if !byte.is_ascii_digit() && *byte != sign {
            return false;
        }
    }
    true
}

/// Whether each byte is a digit.
pub fn are_digits(bytes: &[u8]) -> bool {
    are_digits_or(bytes, b'0')
}

/// Whether a byte is a digit.
pub fn has_digit(bytes: &[u8]) -> bool {
    for byte in bytes {
        if byte.is_ascii_digit() {
            return true;
        }
    }
    false
}

/// Whether a byte is a letter of ASCII.
pub fn has_letter(bytes: &[u8]) -> bool {
    for byte in bytes {
        if byte.is_ascii_alphabetic() {
            return true;
        }
    }
    false
}

/// A text of bytes; empty where they are none.
pub fn text_of(bytes: &[u8]) -> &str {
    std::str::from_utf8(bytes).unwrap_or("")
}
