//! The lines of an input.
use sno_io::{Device, LineError, Lines};
use std::alloc::{AllocError, Global};

/// How long the lines are: shorter than what is read at once, as long, and longer.
const LENGTHS: [usize; 3] = [1, 8192, 8193];

/// Whether each line is given; a refusal is answered again, and every byte that was read stays held.
pub(crate) fn hold(alloc: Global) -> Result<bool, AllocError> {
    let text = text(alloc)?;
    let mut reader = Device::new(text.as_slice());
    let mut lines = Lines::new(alloc);
    let mut given = 0usize;
    for length in LENGTHS {
        match lines.next(&mut reader) {
            Ok(Some(line)) => {
                if line.len() != length || line.as_slice().contains(&b'\n') {
                    return Ok(false);
                }
            }
            Ok(None) => return Ok(false),
            Err(error) => {
                let again = lines.next(&mut reader);
                let left = reader.into_inner();
                return Ok(
                    error == LineError::NoMemory
                        && again == Err(error)
                        && is_whole(&text, given, lines.held(), left),
                );
            }
        }
        given = given.saturating_add(length).saturating_add(1);
    }
    Ok(lines.next(&mut reader) == Ok(None))
}

/// Lines of these lengths, one behind the other.
fn text(alloc: Global) -> Result<Vec<u8>, AllocError> {
    let mut text = Vec::new(alloc);
    for length in LENGTHS {
        for _byte in 0..length {
            text.push(b'A')?;
        }
        text.push(b'\n')?;
    }
    Ok(text)
}

/// Whether a text is what was given of it, so many bytes, then what is held and then what is left to read.
fn is_whole(text: &[u8], given: usize, held: &[u8], left: &[u8]) -> bool {
    let Some(rest) = text.get(given..) else {
        return false;
    };
    let Some(left_of_rest) = rest.strip_prefix(held) else {
        return false;
    };
    left_of_rest == left
}
