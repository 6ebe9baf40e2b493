// The test of file names.
ghost use Rattle.std.specs.Prelude.{◌↔◌, IsTrue};
ghost use Rattle.gos_outside.specs.FileName.{IsFileByte, IsFileName};

/// The longest file name, in bytes.
const MAX_FILE_NAME: usize = 255;

/// Whether these bytes are a file name: 1 to 255 ASCII letters, digits, `_`, `.`, `-` and `/`.
pub fn is_file_name(bytes: &[u8]) -> bool
    ensures { IsTrue result ↔ IsFileName bytes.now }
{
    !bytes.is_empty() && bytes.len() <= MAX_FILE_NAME && bytes.iter().all(|b| is_file_byte(*b))
}

fn is_file_byte(b: u8) -> bool
    ensures { IsTrue result ↔ IsFileByte b }
{
    matches!(b, b'A'..=b'Z' | b'a'..=b'z' | b'0'..=b'9' | b'_' | b'.' | b'-' | b'/')
}

#[cfg(test)]
mod tests {
    use super::*;

    #[test]
    fn names_are_told_from_other_bytes(rt: HostRuntime) {
        assert!(rt; is_file_name(b"out/Main_1.net-b"));
        assert!(rt; !is_file_name(b""));
        assert!(rt; !is_file_name(b"a b"));
        assert!(rt; is_file_name(&[b'a'; 255]));
        assert!(rt; !is_file_name(&[b'a'; 256]));
    }
}
