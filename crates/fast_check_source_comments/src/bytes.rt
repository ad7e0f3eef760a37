//! Bytes of a text.
/// The byte at a place, or 0 past the end.
pub fn byte(z: &[u8], at: usize) -> u8 {
    match z.get(at) {
        Some(byte) => *byte,
        None => 0,
    }
}

/// How many bytes a white space takes that begins at a place, or 0 where none does.
pub fn blank(z: &[u8], at: usize) -> usize {
    let (a, b, c) = (
        byte(z, at),
        byte(z, at.saturating_add(1)),
        byte(z, at.saturating_add(2)),
    );
    match (a, b) {
        (9..=13 | 32, _) => 1,
        (194, 160) => 2,
        (226, 128) if (128 <= c && c <= 138) || c == 168 || c == 169 || c == 175 => 3,
        (226, 129) if c == 159 => 3,
        (225, 154) if c == 128 => 3,
        (227, 128) if c == 128 => 3,
        (239, 187) if c == 191 => 3,
        _ => 0,
    }
}

/// The place from one on, or at most a limit, at which white space or a comment may begin.
pub fn past_plain(z: &[u8], at: usize, limit: usize) -> usize {
    let mut end = at;
    for _turn in at..limit {
        if !matches!(byte(z, end), 33..=46 | 48..=126) {
            break;
        }
        end = end.saturating_add(1);
    }
    end
}

/// Whether a line ends at a place.
pub fn is_line_end(z: &[u8], at: usize) -> bool {
    match byte(z, at) {
        10 | 13 => true,
        226 => {
            let last = byte(z, at.saturating_add(2));
            byte(z, at.saturating_add(1)) == 128 && (last == 168 || last == 169)
        }
        _ => false,
    }
}

/// The place where a line ends.
pub fn past_line(z: &[u8], at: usize) -> usize {
    let mut end = at;
    for _turn in 0..z.len() {
        if end >= z.len() || is_line_end(z, end) {
            break;
        }
        end = end.saturating_add(1);
    }
    end
}

/// The place behind the `*/` that comes next, or the end.
pub fn past_block(z: &[u8], at: usize) -> usize {
    let mut end = at;
    for _turn in 0..z.len() {
        if end >= z.len() {
            break;
        }
        if byte(z, end) == b'*' && byte(z, end.saturating_add(1)) == b'/' {
            return end.saturating_add(2);
        }
        end = end.saturating_add(1);
    }
    z.len()
}

/// Whether a line feed or a carriage return stands between two places.
pub fn has_break(z: &[u8], start: usize, end: usize) -> bool {
    for at in start..end {
        if byte(z, at) == 10 || byte(z, at) == 13 {
            return true;
        }
    }
    false
}
